//! The laws of logs, for account books: for the fields of any book that are in their ranges, as those of every `Book` are
//! (`account_book::laws::books_are_in_range`).
ghost use Rattle.std.specs.Prelude.{ℕ, ◌↔◌, List, []};
ghost use Rattle.scram_text.specs.SplitLines.{IsSplit};
ghost use Rattle.account_book.specs.{BookFields, IsBook};
ghost use Rattle.log_grammar.specs.laws.FitAccounts.{AllCanBeChallenged};
ghost use Rattle.log_grammar.specs.Books.{accounts_in};
ghost use Rattle.log_grammar.specs.Versions.{IsLogFront, IsFaultLine};
ghost use Rattle.log_grammar.specs.laws.LogLaws.{BeginsClean, IsFirstOutsideCleanLogs};
ghost use Rattle.log_grammar.specs.laws.Completions.{FrontsAreCompleted};

/// A challenge can be written for each account of a book, and for each decoy.
pub fn books_can_be_challenged()
    ensures { (book : BookFields) → IsBook book → AllCanBeChallenged (accounts_in book) }
{}

/// Whole lines are a front if and only if they begin a clean log, for every account book: what a log may begin with can be completed
/// to a clean log.
pub fn fronts_of_books_are_what_begins_clean_logs()
    ensures { (book : BookFields) → IsBook book → (bytes : List ℕ) (texts : List (List ℕ)) → IsSplit bytes texts []
        → IsLogFront (accounts_in book) bytes ↔ BeginsClean (accounts_in book) bytes }
{}

/// How a front is completed, for every account book: an empty one by `SCRAMLOG 1`. Else, if its last line is BUSY, by the `E` of that
/// number. Then, for each open session, by the server's line that is demanded, if one is due; by `C GONE`, if the client is due
/// then; and by `E`. Or so up to an `S HALT`.
pub fn fronts_of_books_are_completed()
    ensures { FrontsAreCompleted }
{}

/// The fault line is the first with which the lines begin no clean log, for every account book.
pub fn fault_lines_of_books_begin_no_clean_log()
    ensures { (book : BookFields) → IsBook book → (bytes : List ℕ) (texts : List (List ℕ)) (rest : List ℕ) (k : ℕ)
        → IsSplit bytes texts rest
        → IsFaultLine (accounts_in book) bytes k ↔ IsFirstOutsideCleanLogs (accounts_in book) bytes texts k }
{}
