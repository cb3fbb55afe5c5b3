//! Laws of spent counters, of sessions and of desks. Each is the contract of a function that does nothing.
ghost use Rattle.std.specs.Prelude.{◌≡◌, ◌⊎◌, true, false, ℕ, List, [], ◌∷◌, ◌++◌};
ghost use Rattle.account_book.specs.{BookFields, IsBookText};
ghost use Rattle.account_book.specs.AccountAttempt.{AccountAttempt};
ghost use Rattle.account_book.specs.Tokens.{IsBookAfterAttempts};
ghost use Rattle.account_book.specs.Store.{StoreFacts};
ghost use Rattle.account_book.specs.Spent.{spent_by_all, SpentStaysSpent, AreSpent};
ghost use Rattle.log_grammar.specs.Books.{accounts_in};
ghost use Rattle.log_grammar.specs.Versions.{IsLogFront, IsClean};
ghost use Rattle.log_grammar.specs.Lines.{LogLine, said, halt, log_bytes};
ghost use Rattle.log_grammar.specs.Places.{Place};
ghost use Rattle.log_grammar.specs.Demands.{Accounts};
ghost use Rattle.sasl_desk.specs.AcceptedLogins.{LinesAcceptExactlyValid};
ghost use Rattle.sasl_desk.specs.Desks.{IsDeskAfter, desk_phase};
ghost use Rattle.sasl_desk.specs.Records.{HasItsRecords};
ghost use Rattle.sasl_desk.specs.Changes.{run_of, IsDeskRunOf, Change, AreChanges, AreUsedByChanges};
ghost use Rattle.sasl_desk.specs.Halls.{IsSessionRun, IsPhaseOf};
ghost use Rattle.sasl_desk.specs.Runs.{Call, run_lines, wire_bytes, IsRun, call_lines};
ghost use Rattle.sasl_desk.specs.Passes.{ArePassed};
ghost use Rattle.sasl_desk.specs.Saved.{IsLogSaved, AreCountersSaved};
ghost use Rattle.sasl_desk.specs.Sessions.{LongTextsAreBad};
ghost use Rattle.sasl_desk.specs.Stops.{MayBeLeft, MayBeLeftUnbegun};
ghost use Rattle.sasl_desk.specs.declared.desk.Desk.{Desk};
ghost use Rattle.sasl_desk.specs.declared.session.phase.Phase.TheVariants as phase;
ghost use Rattle.sasl_desk.specs.DueLines.{DueLinesStand, BadLinesStand, GoneClientsStand};

pub mod hall;

use account_book::BookStore;
use book_format::laws::has_one_book;

/// A spent counter is one at which no code passes again. It stays spent, whatever the reply. The counters that a reply uses were
/// not spent before it, and are spent after it.
pub fn spent_stays_spent()
    ensures { SpentStaysSpent }
{}

/// Over any number of replies, the counters that they use differ from each other and from those that were spent before. All of them
/// are spent in the book after the replies.
pub fn replies_spend_counters()
    ensures { (start : BookFields) (latest_first : List AccountAttempt) (last : BookFields) (spent : List (List ℕ × ℕ))
        → IsBookAfterAttempts start latest_first last → AreSpent spent start → AreSpent (spent_by_all latest_first ++ spent) last }
{}

/// What a session records of its client may stand in a log: a line of the client if and only if it is due, `C BAD` and `C GONE` if
/// and only if it is the client's turn.
pub fn records_may_stand()
    ensures due { DueLinesStand }
    ensures bad { BadLinesStand }
    ensures gone { GoneClientsStand }
{}

/// Whatever a desk was asked, its log is a front for the book with which it began: a clean log may begin with it.
pub fn log_is_a_front<S: BookStore>()
    ensures { (start : BookFields) (calls : List Call) (desk : Desk S) → IsDeskAfter S.facts S.IsStored start calls desk
        → IsLogFront (accounts_in start) (log_bytes (run_lines calls)) }
{}

/// A desk's log is clean if no session is open, if the store has failed, or if the log ends with `S HALT`.
pub fn log_is_clean<S: BookStore>()
    ensures closed { (start : BookFields) (calls : List Call) (desk : Desk S) → IsDeskAfter S.facts S.IsStored start calls desk
        → desk_phase desk ≡ phase.Closed → IsClean (accounts_in start) (log_bytes (run_lines calls)) }
    ensures failed { (start : BookFields) (calls : List Call) (desk : Desk S) → IsDeskAfter S.facts S.IsStored start calls desk
        → (S.facts desk.keeper.store).failed ≡ true → IsClean (accounts_in start) (log_bytes (run_lines calls)) }
    ensures halted { (start : BookFields) (calls : List Call) (desk : Desk S) → IsDeskAfter S.facts S.IsStored start calls desk
        → (lines : List LogLine) → run_lines calls ≡ lines ++ said halt ∷ [] → IsClean (accounts_in start) (log_bytes (run_lines calls)) }
{}

/// The phase of a desk is that of the place to which its log has led, unless it has halted. It halts in the call whose last line is
/// `S HALT` (`says_halt` of `Answers`), by `Desk::halt`, and in no other way.
pub fn phases_are_those_of_places<S: BookStore>()
    ensures { (start : BookFields) (calls : List Call) (desk : Desk S) (stands : IsDeskAfter S.facts S.IsStored start calls desk)
        → IsPhaseOf stands.place (desk_phase desk) }
{}

/// A login is answered by `S OK` if it is valid (RFC 5802, sections 3 and 5), and else by `S NO`: in the log of a run, and in the lines of
/// each session of a hall, each `S OK` directly follows the other messages of a valid login, and the first three of a login are
/// directly followed by its outcome. This is so after each call, so the call that hears a client-final message gives the outcome.
pub fn runs_accept_exactly_valid()
    ensures desk { (accounts : Accounts) (calls : List Call) (place : Place) → IsRun accounts calls place
        → LinesAcceptExactlyValid accounts (run_lines calls) }
    ensures session { (accounts : Accounts) (calls : List Call) (place : Place) → IsSessionRun accounts calls place
        → LinesAcceptExactlyValid accounts (call_lines calls) }
{}

/// Whatever a desk was asked, in its log a login is answered by `S OK` if and only if it is valid for an account of the book with which
/// the desk began.
pub fn log_accepts_exactly_valid<S: BookStore>()
    ensures { (start : BookFields) (calls : List Call) (desk : Desk S) → IsDeskAfter S.facts S.IsStored start calls desk
        → LinesAcceptExactlyValid (accounts_in start) (run_lines calls) }
{}

/// A desk's log offers mechanisms once for each client that was greeted. It records all that its clients did, in order, each act as
/// is due at the place that the log had then reached: nothing is left out, and nothing is invented.
pub fn log_has_its_records<S: BookStore>()
    ensures { (start : BookFields) (calls : List Call) (desk : Desk S) → IsDeskAfter S.facts S.IsStored start calls desk
        → HasItsRecords (accounts_in start) calls }
{}

/// The bytes of a run are those of its calls, one after another: in its log after the first line, and in what its clients are sent.
pub fn bytes_are_those_of_calls()
    ensures log { (call : Call) (before : List Call)
        → log_bytes (run_lines (call ∷ before)) ≡ log_bytes (run_lines before) ++ log_bytes call.lines }
    ensures wire { (call : Call) (before : List Call)
        → wire_bytes (run_lines (call ∷ before)) ≡ wire_bytes (run_lines before) ++ wire_bytes call.lines }
    ensures begun { wire_bytes (run_lines []) ≡ [] }
{}

/// After each call, `IsStored` is true of some text of the book to which the replies in the log lead, and each text that the store may
/// hold is of that book, or of it with one more attempt. That the save comes before the reply is in the contract of `Keeper::judge`.
pub fn log_is_saved<S: BookStore>()
    ensures { (start : BookFields) (calls : List Call) (desk : Desk S) → IsDeskAfter S.facts S.IsStored start calls desk
        → IsLogSaved S.IsStored start (log_bytes (run_lines calls)) (S.facts desk.keeper.store) }
{}

/// Wherever a run stops, the text that its store then holds is that of a book, with which the next run can begin: between two calls,
/// also after a failed save, or within a call, while the store replaces the old text with the new one (`begun`); and in `begin` or after
/// it has failed, where the book is the one that was handed in (`unbegun`).
pub fn stops_leave_books<S: BookStore>()
    ensures begun { (start : BookFields) (calls : List Call) (desk : Desk S) (text : List ℕ)
        → IsDeskAfter S.facts S.IsStored start calls desk → MayBeLeft desk.keeper.book (S.facts desk.keeper.store) text
        → (left : BookFields) × IsBookText text left × IsDeskRunOf S.facts S.IsStored (run_of start calls left) }
    ensures unbegun { (book : BookFields) (store : StoreFacts) (text : List ℕ) → store.failed ≡ false → IsBookText store.saved book
        → MayBeLeftUnbegun store book text → IsBookText text book }
{}

/// Wherever a run stops, the text that its store then holds is that of a book in which each counter is spent that a PASS line in the
/// run's log uses, and each that was spent before the run. If it stops within a call that saves the book with the attempt that it
/// judges, the counters that this attempt uses are spent in that book as well.
pub fn passed_counters_are_saved<S: BookStore>()
    ensures { (start : BookFields) (calls : List Call) (desk : Desk S) → IsDeskAfter S.facts S.IsStored start calls desk
        → (used : List (List ℕ × ℕ)) × ArePassed (accounts_in start) (run_lines calls) used
        × AreCountersSaved start used desk.keeper.book (S.facts desk.keeper.store) }
{}

/// No counter of an account passes twice over all that happens to a book: runs of desks and halls, each begun with the book that is
/// read from the text left by the one before, wherever that one stopped; and between them attempts that are judged without a desk,
/// unlocked tokens and added accounts. The counters that the PASS lines of all logs use, and these attempts, differ from each other and
/// from those that were spent before, and all are spent in the book that is left.
pub fn no_counter_passes_twice<S: BookStore>()
    ensures { (first : BookFields) (changes : List Change) (last : BookFields) (spent : List (List ℕ × ℕ))
        → AreChanges S.facts S.IsStored first changes last → AreSpent spent first
        → (used : List (List ℕ × ℕ)) × AreUsedByChanges changes used × AreSpent (used ++ spent) last }
{
    has_one_book();
}

/// A text of more than 6200 bytes is recorded as `C BAD`. So is a line of a client that is too long, which `serve_turn` cuts after
/// 6201 bytes.
pub fn long_texts_are_bad()
    ensures { LongTextsAreBad }
{}
