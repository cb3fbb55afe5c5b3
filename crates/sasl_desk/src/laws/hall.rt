//! Laws of halls. Each is the contract of a function that does nothing.
ghost use Rattle.std.specs.Prelude.{◌≡◌, true, None, ℕ, List, [], ◌∷◌, ◌++◌, map};
ghost use Rattle.account_book.specs.{BookFields, IsBookText};
ghost use Rattle.log_grammar.specs.Books.{accounts_in};
ghost use Rattle.log_grammar.specs.Lines.{LogLine, said, halt};
ghost use Rattle.log_grammar.specs.Numbered.{Numbered, numbered, of_number};
ghost use Rattle.log_grammar.specs.Versions.{IsLogFront, IsClean};
ghost use Rattle.sasl_desk.specs.AcceptedLogins.{LinesAcceptExactlyValid};
ghost use Rattle.sasl_desk.specs.Alone.{HaveSameRequests, HaveSameEntries, up_to_acceptance};
ghost use Rattle.sasl_desk.specs.Halls.{HallFields, IsTurnedAway, hall_lines, hall_bytes, numbered_bytes, phase_of_number, IsPhaseOrNoneOf, IsHallAfter};
ghost use Rattle.sasl_desk.specs.Records.{HasSessionRecords};
ghost use Rattle.sasl_desk.specs.Changes.{run_of, IsHallRunOf};
ghost use Rattle.sasl_desk.specs.Passes.{AreNumberedPassed};
ghost use Rattle.sasl_desk.specs.Runs.{Call, wire_bytes, call_lines};
ghost use Rattle.sasl_desk.specs.Saved.{AreLinesSaved, AreCountersSaved};
ghost use Rattle.sasl_desk.specs.Stops.{MayBeLeft};

use account_book::BookStore;

/// Whatever a hall was asked, its log is a front of version 2 for the book with which it began: a clean log may begin with it.
pub fn log_is_a_front<S: BookStore>()
    ensures { (start : BookFields) (calls : List (Numbered Call)) (hall : HallFields S) → IsHallAfter S.facts S.IsStored start calls hall
        → IsLogFront (accounts_in start) (hall_bytes calls) }
{}

/// A hall's log is clean if no session is open, if the store has failed, or if the log ends with `S HALT`.
pub fn log_is_clean<S: BookStore>()
    ensures closed { (start : BookFields) (calls : List (Numbered Call)) (hall : HallFields S)
        → IsHallAfter S.facts S.IsStored start calls hall
        → ((number : ℕ) → phase_of_number hall number ≡ None) → IsClean (accounts_in start) (hall_bytes calls) }
    ensures failed { (start : BookFields) (calls : List (Numbered Call)) (hall : HallFields S)
        → IsHallAfter S.facts S.IsStored start calls hall
        → (S.facts hall.keeper.store).failed ≡ true → IsClean (accounts_in start) (hall_bytes calls) }
    ensures halted { (start : BookFields) (calls : List (Numbered Call)) (hall : HallFields S)
        → IsHallAfter S.facts S.IsStored start calls hall
        → (lines : List (Numbered LogLine)) (number : ℕ) → hall_lines calls ≡ lines ++ numbered number (said halt) ∷ []
        → IsClean (accounts_in start) (hall_bytes calls) }
{}

/// Whatever a hall was asked, in the lines of each session a login is answered by `S OK` if and only if it is valid for an account of
/// the book with which the hall began.
pub fn log_accepts_exactly_valid<S: BookStore>()
    ensures { (start : BookFields) (calls : List (Numbered Call)) (hall : HallFields S) → IsHallAfter S.facts S.IsStored start calls hall
        → (number : ℕ) → LinesAcceptExactlyValid (accounts_in start) (of_number number (hall_lines calls)) }
{}

/// The phase of a session is that of the place to which its lines have led. There is none if and only if no session of the number
/// is open.
pub fn phases_are_those_of_places<S: BookStore>()
    ensures { (start : BookFields) (calls : List (Numbered Call)) (hall : HallFields S)
        (stands : IsHallAfter S.facts S.IsStored start calls hall) (number : ℕ)
        → IsPhaseOrNoneOf (stands.places number) (phase_of_number hall number) }
{}

/// Unless a session was turned away, its log offers mechanisms for its greeting and records all that its client did, in order, each
/// act as is due at its place: nothing is left out, and nothing is invented.
pub fn sessions_have_their_records<S: BookStore>()
    ensures { (start : BookFields) (calls : List (Numbered Call)) (hall : HallFields S) → IsHallAfter S.facts S.IsStored start calls hall
        → (number : ℕ) → HasSessionRecords (accounts_in start) (of_number number calls) }
{}

/// The bytes of a log are those of its calls, one after another, and the lines of a session are those of its own calls. So a client
/// is sent what the server says in the lines of its own session.
pub fn bytes_are_those_of_calls()
    ensures log { (call : Numbered Call) (before : List (Numbered Call))
        → hall_bytes (call ∷ before) ≡ hall_bytes before ++ numbered_bytes (map (numbered call.number) call.value.lines) }
    ensures lines { (number : ℕ) (calls : List (Numbered Call))
        → of_number number (hall_lines calls) ≡ call_lines (of_number number calls) }
    ensures wire { (call : Call) (before : List Call)
        → wire_bytes (call_lines (call ∷ before)) ≡ wire_bytes (call_lines before) ++ wire_bytes call.lines }
{}

/// After each call, `IsStored` is true of some text of the book to which the replies in the log lead, and each text that the store may
/// hold is of that book, or of it with one more attempt. That the save comes before the reply is in the contract of `Keeper::judge`.
pub fn log_is_saved<S: BookStore>()
    ensures { (start : BookFields) (calls : List (Numbered Call)) (hall : HallFields S) → IsHallAfter S.facts S.IsStored start calls hall
        → AreLinesSaved S.IsStored start (hall_lines calls) (S.facts hall.keeper.store) }
{}

/// Wherever a run stops, the text that its store then holds is that of a book, with which the next run can begin, as at a desk.
pub fn stops_leave_books<S: BookStore>()
    ensures { (start : BookFields) (calls : List (Numbered Call)) (hall : HallFields S) (text : List ℕ)
        → IsHallAfter S.facts S.IsStored start calls hall → MayBeLeft hall.keeper.book (S.facts hall.keeper.store) text
        → (left : BookFields) × IsBookText text left × IsHallRunOf S.facts S.IsStored (run_of start calls left) }
{}

/// As at a desk: wherever a run stops, the text that its store then holds is that of a book in which each counter is spent that a PASS
/// line in the run's log uses, in any of its sessions, and each that was spent before the run.
pub fn passed_counters_are_saved<S: BookStore>()
    ensures { (start : BookFields) (calls : List (Numbered Call)) (hall : HallFields S) → IsHallAfter S.facts S.IsStored start calls hall
        → (used : List (List ℕ × ℕ)) × AreNumberedPassed (accounts_in start) (hall_lines calls) used
        × AreCountersSaved start used hall.keeper.book (S.facts hall.keeper.store) }
{}

/// Up to its outcome, what a session sends its client follows from what it was asked up to there, the server's part of its nonce and
/// the entries of the book's accounts. Take two sessions, of one hall or of two, that were not turned away. If their first calls,
/// however many, agree in these, then the lines of these calls are the same up to the outcome. So the lines do not depend on what
/// the sessions are asked later, the lines of other sessions, their order, the moments or a token.
pub fn logins_depend_on_no_other_session<S: BookStore>()
    ensures { (start other_start : BookFields) (calls others : List (Numbered Call)) (hall other : HallFields S)
        (number other_number : ℕ) (later first other_later other_first : List Call)
        → IsHallAfter S.facts S.IsStored start calls hall → IsHallAfter S.facts S.IsStored other_start others other
        → HaveSameEntries (accounts_in start) (accounts_in other_start)
        → of_number number calls ≡ later ++ first → of_number other_number others ≡ other_later ++ other_first
        → (IsTurnedAway (of_number number calls) → ⊥) → (IsTurnedAway (of_number other_number others) → ⊥)
        → HaveSameRequests first other_first
        → up_to_acceptance (call_lines first) ≡ up_to_acceptance (call_lines other_first) }
{}
