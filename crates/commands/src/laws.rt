//! Laws: what a command that changes a book does to it is a list of changes (`AreChanges`), of which the laws of `sasl_desk` speak.
//! Each is the contract of a function that does nothing.
ghost use Rattle.std.specs.Prelude.{◌⊎◌, Bool, ℕ, List, [], ◌∷◌, ◌++◌, reverse};
ghost use Rattle.std.specs.Io.KnownBytes.{Appends};
ghost use Rattle.std.specs.declared.option.Option.{Option};
ghost use Rattle.clap.specs.declared.parser.matches.ArgMatches.{ArgMatches};
ghost use Rattle.account_book.specs.{BookFields, IsBookText};
ghost use Rattle.account_book.specs.AccountAttempt.{AccountAttempt};
ghost use Rattle.account_book.specs.SavedBooks.{SavesBook, HoldsAfterAttempts, LeavesOldTextOrBook};
ghost use Rattle.account_book.specs.Store.{StoreFacts, MayHold, MayHoldWithinSave};
ghost use Rattle.account_book.specs.Spent.{spent_by_all, AreSpent};
ghost use Rattle.account_book.specs.Tokens.{IsBookAfterAttempts};
ghost use Rattle.book_file.specs.Saved.{IsSavedText};
ghost use Rattle.command_line.specs.declared.fault.Fault.{Fault};
ghost use Rattle.command_line.specs.declared.option_name.OptionName.TheVariants as option;
ghost use Rattle.command_words.specs.Values.{given_value};
ghost use Rattle.sasl_desk.specs.Changes.{Change, unlocked, AreChanges};
ghost use Rattle.sasl_desk.specs.Saved.{IsToldSaved};
ghost use Rattle.command_io.specs.{FailsToSave};
ghost use Rattle.command_io.specs.HeldBook.{HeldFacts, FailsToChange, IsEnrolled, IsTokenUnlocked, HoldsItsBook};
ghost use Rattle.command_io.specs.Input.{LinesInTurn};
ghost use Rattle.command_io.specs.declared.new_account.NewAccount.{NewAccount};
ghost use Rattle.command_io.specs.declared.new_account.Salts.{Salts};
ghost use Rattle.account_commands.specs.Enrol.{EnrolsAsked};
ghost use Rattle.account_commands.specs.Unlock.{UnlocksAsked};
ghost use Rattle.commands.specs.Attempts.{judged_changes, printed_replies, MakesAttempts, PrintsUntil, SavesNextLine};
ghost use Rattle.commands.specs.LeftBooks.{addition_of, IsTextAfter};
ghost use Rattle.commands.specs.Verify.{VerifyRun, AnswersLine, AnswersFirstLines, BeginsToVerify, VerifiesAllLines, VerifiesFirstLines};

use account_book::BookStore;
use std::fs::Files;

/// Changes that follow others are, together with these, changes from the first book to the last.
pub fn changes_follow_changes<S: BookStore>()
    ensures { (first : BookFields) (before : List Change) (middle : BookFields) (after : List Change) (last : BookFields)
        → AreChanges S.facts S.IsStored first before middle → AreChanges S.facts S.IsStored middle after last
        → AreChanges S.facts S.IsStored first (after ++ before) last }
{}

/// What a run of `verify` did to its book, after any number of its lines, is a list of attempts, one for each line that it answered, with
/// what the line says, judged by the token. Such attempts are changes of the book (`changes`). The replies to them are what it printed
/// (`all`). Each text that the store may hold then is of the book that the attempts lead to (`saved`). So all three also hold of a run
/// that is stopped between two lines.
///
/// While the run saves the attempt of its next line, and until it prints the reply, each text that the store may hold is of the book
/// before that attempt or of the book after it (`within`). If a fault ended the run, each such text is of the book to which the attempts
/// of the lines before the fault lead, perhaps with that of the line at fault (`first`).
///
/// All this holds if the store had not failed as the run began, and held a text of the run's book.
///
/// So `no_counter_passes_twice` of `sasl_desk` holds of a run of `verify`, and by `changes_follow_changes` of any number of them, one
/// after another and between runs of desks and halls, if each begins with the book that the one before left.
pub fn answered_lines_are_changes<S: BookStore>()
    ensures all { (name : List ℕ) (moment : ℕ) (input : Option (List ℕ)) (last : List (List ℕ)) (old : VerifyRun) (all_passed : Bool)
        (new : VerifyRun) → LinesInTurn (AnswersLine S.IsStored name moment) input last old all_passed new
        → (attempts : List AccountAttempt)
        × MakesAttempts name moment input last attempts old.held.book new.held.book
        × Appends old.printed new.printed (printed_replies attempts) }
    ensures changes { (attempts : List AccountAttempt) (old new : BookFields) → IsBookAfterAttempts old (reverse attempts) new
        → AreChanges S.facts S.IsStored old (judged_changes attempts) new }
    ensures saved { (name : List ℕ) (moment : ℕ) (input : Option (List ℕ)) (last : List (List ℕ)) (old : VerifyRun) (all_passed : Bool)
        (new : VerifyRun) (text : List ℕ) → LinesInTurn (AnswersLine S.IsStored name moment) input last old all_passed new
        → HoldsItsBook old.held → MayHold new.held.store text → IsBookText text new.held.book }
    ensures within { (name : List ℕ) (moment : ℕ) (input : Option (List ℕ)) (old middle : VerifyRun) (asked text : List ℕ)
        (saves : SavesNextLine S.IsStored name moment input old middle asked)
        → HoldsItsBook old.held → MayHoldWithinSave middle.held.store asked text
        → (attempts : List AccountAttempt) × Appends old.printed middle.printed (printed_replies attempts)
        × ((IsBookText text middle.held.book
        × MakesAttempts name moment input (saves.line ∷ saves.last) attempts old.held.book middle.held.book)
        ⊎ (IsBookText text saves.next
        × MakesAttempts name moment input saves.last (attempts ++ saves.attempt ∷ []) old.held.book saves.next)) }
    ensures first { (path name : List ℕ) (moment : ℕ) (input : Option (List ℕ)) (old : VerifyRun) (fault : Fault) (new : VerifyRun)
        (text : List ℕ) → AnswersFirstLines S.IsStored path name moment input old fault new
        → HoldsItsBook old.held → MayHold new.held.store text
        → (left : BookFields) × (last : List (List ℕ)) × (attempts : List AccountAttempt) × IsBookText text left
        × MakesAttempts name moment input last attempts old.held.book left
        × PrintsUntil fault attempts old.printed new.printed }
{}

/// Each counter that a printed reply of `verify` used is spent in the book of each text that the store may hold after the run. So is each
/// counter that was spent before, and all are different. This holds of a run that answered all lines (`all`), and of one that a
/// fault ended (`first`). If the output can't be written, it is not known what is printed. It also holds of a run wherever it is stopped:
/// between two lines (`between`), or while it saves the attempt of its next line and until it prints the reply (`within`).
pub fn verified_counters_are_spent<R: Files>()
    ensures all { (words : ArgMatches) (input old : Option (List ℕ)) (all_passed : Bool) (new : Option (List ℕ))
        (run : VerifiesAllLines R.File.remaining R.File.contents words input old all_passed new)
        (text : List ℕ) (spent : List (List ℕ × ℕ)) → MayHold run.last.held.store text
        → AreSpent spent run.first.held.book
        → (left : BookFields) × (attempts : List AccountAttempt) × IsBookText text left
        × MakesAttempts (given_value words option.Name) run.moment input [] attempts run.first.held.book left
        × Appends old new (printed_replies attempts) × AreSpent (spent_by_all (reverse attempts) ++ spent) left }
    ensures first { (words : ArgMatches) (input old : Option (List ℕ)) (fault : Fault) (new : Option (List ℕ))
        (run : VerifiesFirstLines R.File.remaining R.File.contents words input old fault new)
        (text : List ℕ) (spent : List (List ℕ × ℕ)) → MayHold run.last.held.store text
        → AreSpent spent run.first.held.book
        → (left : BookFields) × (last : List (List ℕ)) × (attempts : List AccountAttempt) × IsBookText text left
        × MakesAttempts (given_value words option.Name) run.moment input last attempts run.first.held.book left
        × PrintsUntil fault attempts old new × AreSpent (spent_by_all (reverse attempts) ++ spent) left }
    ensures between { (words : ArgMatches) (input old : Option (List ℕ)) (moment : ℕ) (first : VerifyRun) (last : List (List ℕ))
        (all_passed : Bool) (middle : VerifyRun) (text : List ℕ) (spent : List (List ℕ × ℕ))
        → BeginsToVerify R.File.remaining words old moment first
        → LinesInTurn (AnswersLine (IsSavedText R.File.contents) (given_value words option.Name) moment) input last first all_passed middle
        → MayHold middle.held.store text → AreSpent spent first.held.book
        → (attempts : List AccountAttempt) × IsBookText text middle.held.book × Appends old middle.printed (printed_replies attempts)
        × AreSpent (spent_by_all (reverse attempts) ++ spent) middle.held.book }
    ensures within { (words : ArgMatches) (input old : Option (List ℕ)) (moment : ℕ) (first middle : VerifyRun) (asked text : List ℕ)
        (spent : List (List ℕ × ℕ)) → BeginsToVerify R.File.remaining words old moment first
        → SavesNextLine (IsSavedText R.File.contents) (given_value words option.Name) moment input first middle asked
        → MayHoldWithinSave middle.held.store asked text → AreSpent spent first.held.book
        → (left : BookFields) × (attempts : List AccountAttempt) × IsBookText text left
        × Appends old middle.printed (printed_replies attempts) × AreSpent (spent_by_all (reverse attempts) ++ spent) left }
{}

/// What `unlock` and `enrol` do to a book is one change. What a log of `login` or of `hall` tells of codes is a list of changes, from the
/// book that the log began with to the one whose text was saved: the attempts, each with its reply. Which book a run leaves is in
/// `runs_leave_changed_books`. By both, `no_counter_passes_twice` of `sasl_desk` holds of runs of all these commands, one after another.
pub fn other_commands_make_changes<R: Files, S: BookStore>()
    ensures unlock { (words : ArgMatches) (old new : Option (List ℕ)) (run : UnlocksAsked R.File.remaining R.File.contents words old new)
        → AreChanges S.facts S.IsStored run.first (unlocked (given_value words option.Name) ∷ []) run.last }
    ensures enrol { (words : ArgMatches) (input old new : Option (List ℕ))
        (run : EnrolsAsked R.File.remaining R.File.contents words input old new)
        → AreChanges S.facts S.IsStored run.is_added.saved.first (addition_of run.account run.is_added.salts ∷ [])
        run.is_added.saved.last }
    ensures told { (start : BookFields) (told : List AccountAttempt) (store : StoreFacts)
        (saved : IsToldSaved (IsSavedText R.File.contents) start told store)
        → AreChanges S.facts S.IsStored start (judged_changes told) saved.last }
{}

/// Of `unlock`, `enrol`, `login` and `hall`: the book of each text that the store may hold when the run ends, wherever it ends (of
/// `verify`: `answered_lines_are_changes`). By `unlock`, `enrol`, `added` and `attempts` changes lead to it, so `no_counter_passes_twice`
/// of `sasl_desk` also holds if the next run begins with such a text:
/// - A change that fails leaves the book that was held, or this book with the change (`unlock`, `enrol`: `held_book::unlock` and
///   `held_book::enrol` ensure `FailsToChange`). So does a failed save of a book to which an account was added, in a store that holds the
///   book from before (`added`: `held_book::begin` ensures `FailsToSave`).
/// - The runs of `login` and `hall` leave a book to which attempts lead (`attempts`: `talk_over` and `hear_input` ensure
///   `HoldsAfterAttempts`).
///
/// Of any save: if it fails or is stopped, it leaves a text from before, or one of the book that it was given (`failed`, `stopped`). If
/// it succeeds, it leaves a text of the book (`done`).
pub fn runs_leave_changed_books<S: BookStore>()
    ensures unlock { (name : List ℕ) (old : HeldFacts) (fault : Fault) (new : HeldFacts) (text : List ℕ)
        → FailsToChange old (IsTokenUnlocked name) fault new → HoldsItsBook old → MayHold new.store text
        → IsTextAfter S.facts S.IsStored old.book [] text ⊎ IsTextAfter S.facts S.IsStored old.book (unlocked name ∷ []) text }
    ensures enrol { (account : NewAccount) (salts : Salts) (old : HeldFacts) (fault : Fault) (new : HeldFacts) (text : List ℕ)
        → FailsToChange old (IsEnrolled account salts) fault new → HoldsItsBook old → MayHold new.store text
        → IsTextAfter S.facts S.IsStored old.book [] text
        ⊎ IsTextAfter S.facts S.IsStored old.book (addition_of account salts ∷ []) text }
    ensures added { (account : NewAccount) (salts : Salts) (old : HeldFacts) (book : BookFields) (new : StoreFacts) (text : List ℕ)
        → FailsToSave old.store book new → HoldsItsBook old → IsEnrolled account salts old.book book → MayHold new text
        → IsTextAfter S.facts S.IsStored old.book [] text
        ⊎ IsTextAfter S.facts S.IsStored old.book (addition_of account salts ∷ []) text }
    ensures attempts { (start : BookFields) (store : StoreFacts) (text : List ℕ) → HoldsAfterAttempts start store → MayHold store text
        → (attempts : List AccountAttempt) × IsTextAfter S.facts S.IsStored start (judged_changes attempts) text }
    ensures failed { (old : StoreFacts) (book : BookFields) (new : StoreFacts) → FailsToSave old book new
        → LeavesOldTextOrBook old book new }
    ensures stopped { (old : StoreFacts) (book : BookFields) (asked text : List ℕ) → IsBookText asked book
        → MayHoldWithinSave old asked text → MayHold old text ⊎ IsBookText text book }
    ensures done { (old : StoreFacts) (book : BookFields) (new : StoreFacts) (text : List ℕ) → SavesBook S.IsStored old book new
        → MayHold new text → IsBookText text book }
{}
