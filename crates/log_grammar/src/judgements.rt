//! Consequences of several laws together, in the form that users of the crate need.
ghost use Rattle.std.specs.Prelude.{ℕ, ◌≡◌, ◌⊎◌, ◌↔◌, List, [], ◌∷◌, ◌++◌, reverse, take};
ghost use Rattle.scram_text.specs.SplitLines.{ended_by_lf, IsSplit};
ghost use Rattle.account_book.specs.AccountAttempt.{AccountAttempt};
ghost use Rattle.log_grammar.specs.Payload.{IsMessage};
ghost use Rattle.log_grammar.specs.Lines.{Line, LogLine, client_text, resp, IsLine, IsLogLine, IsNoLogLine};
ghost use Rattle.log_grammar.specs.Places.{Place};
ghost use Rattle.log_grammar.specs.Demands.{Accounts, demands, HaveDueReplies};
ghost use Rattle.log_grammar.specs.Histories.{IsHistory};
ghost use Rattle.log_grammar.specs.state_machine.Steps.{IsTransition, told_at};
ghost use Rattle.log_grammar.specs.Begins.{IsLogUpTo, Begins, AreLines};
ghost use Rattle.log_grammar.specs.Versions.{IsLogFront, IsClean, IsFaultLine, IsWhy};
ghost use Rattle.log_grammar.specs.Why.{Why};

/// Each text is one line of the protocol or none, and one line of a log or none.
pub fn each_text_is_one_line_or_none()
    ensures protocol { (text : List ℕ) → ((line : Line) × IsLine text line × ((other : Line) → IsLine text other → other ≡ line))
        ⊎ ((line : Line) → IsLine text line → ⊥) }
    ensures log { (text : List ℕ)
        → ((line : LogLine) × IsLogLine text line × ((other : LogLine) → IsLogLine text other → other ≡ line)) ⊎ IsNoLogLine text }
{}

/// All bytes are split into lines in exactly one way.
pub fn bytes_have_exactly_one_split()
    ensures { (bytes : List ℕ) → (texts : List (List ℕ)) × (rest : List ℕ) × IsSplit bytes texts rest
        × ((others : List (List ℕ)) (other : List ℕ) → IsSplit bytes others other → (others ≡ texts) × (other ≡ rest)) }
{}

/// A RESP line has one message: no two messages have the same spelling in one.
pub fn lines_bear_one_message()
    ensures { (one other : List ℕ) → IsMessage one → IsMessage other → client_text (resp one) ≡ client_text (resp other) → one ≡ other }
{}

/// What a log begins with can continue with a line if and only if the line may stand at its place and, if it is a reply, is the one
/// due. This is what a reader or a writer of a log has to decide at each line, its ranges aside.
pub fn logs_go_on_exactly_so()
    ensures { (accounts : Accounts) (log : List LogLine) (place : Place) (told : List AccountAttempt) (line : LogLine) (next : Place)
        (all : List AccountAttempt)
        → Begins (demands accounts) log place told
        → Begins (demands accounts) (log ++ line ∷ []) next all
        ↔ (IsTransition (demands accounts) place line next × HaveDueReplies (demands accounts) (reverse told) (told_at place line)
        × (all ≡ told ++ told_at place line)) }
{}

/// The first lines of a clean log are a front, however many they are.
pub fn first_lines_of_clean_logs_are_fronts()
    ensures { (accounts : Accounts) (bytes : List ℕ) (texts : List (List ℕ)) (k : ℕ)
        → IsClean accounts bytes → IsSplit bytes texts [] → IsLogFront accounts (ended_by_lf (take k texts)) }
{}

/// A clean log has no line at fault.
pub fn clean_logs_have_no_fault()
    ensures { (accounts : Accounts) (bytes : List ℕ) (k : ℕ) → IsClean accounts bytes → IsFaultLine accounts bytes k → ⊥ }
{}

/// A log is at fault in at most one line, for at most one reason.
pub fn logs_have_one_judgement()
    ensures { (accounts : Accounts) (bytes : List ℕ) (k j : ℕ) (why other : Why)
        → IsWhy accounts bytes k why → IsWhy accounts bytes j other → (k ≡ j) × (why ≡ other) }
{}

/// Each log has exactly one answer: it is clean, or it is not, and one line of it is at fault for one reason.
pub fn each_log_has_one_answer()
    ensures { (accounts : Accounts) (bytes : List ℕ)
        → (IsClean accounts bytes × ((k : ℕ) (why : Why) → IsWhy accounts bytes k why → ⊥))
        ⊎ ((IsClean accounts bytes → ⊥) × (k : ℕ) × (why : Why) × IsWhy accounts bytes k why
        × ((j : ℕ) (other : Why) → IsWhy accounts bytes j other → (j ≡ k) × (other ≡ why))) }
{}

/// In a log that is read from bytes, the replies recorded for each account are a legal history of its token; if it has no token,
/// none of its codes has a reply.
pub fn logs_have_legal_histories()
    ensures { (accounts : Accounts) (bytes : List ℕ) (lines : List LogLine) (rest : List ℕ) (place : Place) (told : List AccountAttempt)
        → AreLines bytes lines rest → IsLogUpTo (demands accounts) lines place told
        → (account : List ℕ) → IsHistory (accounts.token account) account told }
{}
