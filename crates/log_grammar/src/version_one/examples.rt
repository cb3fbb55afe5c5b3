//! How logs end, what is counted in them, and two codes in a row: each is a theorem of many logs.
ghost use Rattle.std.specs.Prelude.{ℕ, ◌≡◌, ◌<◌, ◌≤◌, ◌+◌, List, [], ◌∷◌, ◌++◌, length, codes, flat_map, Some};
ghost use Rattle.otp_core.specs.Ranges.{IsDigitCount, IsMoment, IsCounter};
ghost use Rattle.otp_core.specs.declared.token.reply.Reply.TheVariants.{Pass, Fail};
ghost use Rattle.otp_core.specs.declared.token.kinds.TokenFields.TheVariants.{Hotp, Totp};
ghost use Rattle.otp_core.specs.declared.token.kinds.HotpFields.{HotpFields};
ghost use Rattle.otp_core.specs.declared.token.kinds.TotpFields.{TotpFields};
ghost use Rattle.scram_text.specs.SplitLines.{LacksLf, ended_by_lf};
ghost use Rattle.account_book.specs.AccountAttempt.{AccountAttempt};
ghost use Rattle.log_grammar.specs.Words.{IsCodeWord};
ghost use Rattle.log_grammar.specs.Lines.{LogLine, header_one, said, heard, gone, ended, mechs, cont, accepts, replies, auth_with, resp, code};
ghost use Rattle.log_grammar.specs.Lines.{sync, max_log_line_len};
ghost use Rattle.log_grammar.specs.Counts.{counts_of};
ghost use Rattle.log_grammar.specs.Places.{Place, halted};
ghost use Rattle.log_grammar.specs.Demands.{Accounts, demands};
ghost use Rattle.log_grammar.specs.Sessions.{RecordedSession, session_lines};
ghost use Rattle.log_grammar.specs.Begins.{Begins};
ghost use Rattle.log_grammar.specs.Versions.{IsClean, IsWhy};
ghost use Rattle.log_grammar.specs.Why.{LineClass, IsClassDue, is_cut, no_line, out_of_order};
ghost use Rattle.log_grammar.specs.Why.{other_reply};
ghost use Rattle.log_grammar.specs.laws.Logins.{Exchange, IsLoginTo, login_session, original_bytes};
ghost use Rattle.log_grammar.specs.laws.Replies.{pass_line, next_two};
ghost use Rattle.log_grammar.specs.laws.Examples.{header_one_text, first_alone, AreWhole};

/// A log that ends with a halt is clean, and any line that follows a halt is at fault: nothing is due after it.
pub fn halt_is_last()
    ensures clean { (accounts : Accounts) (texts : List (List ℕ)) (log : List LogLine) (told : List AccountAttempt)
        → AreWhole texts log → Begins (demands accounts) log halted told → IsClean accounts (ended_by_lf texts) }
    ensures none { (accounts : Accounts) (log : List LogLine) (told : List AccountAttempt) (class : LineClass)
        → Begins (demands accounts) log halted told → IsClassDue log class → ⊥ }
    ensures more { (accounts : Accounts) (texts : List (List ℕ)) (log : List LogLine) (told : List AccountAttempt)
        (text : List ℕ) (line : LogLine) → AreWhole (texts ++ text ∷ []) (log ++ line ∷ [])
        → Begins (demands accounts) log halted told
        → IsWhy accounts (ended_by_lf (texts ++ text ∷ [])) (length texts + 1) out_of_order }
{}

/// Bytes without an LF are a log that is cut if there are at most 6202, as many as a line may have; else they are no line.
pub fn lines_end_with_lf()
    ensures short { (accounts : Accounts) (rest : List ℕ) → LacksLf rest → length rest ≤ max_log_line_len → IsWhy accounts rest 1 is_cut }
    ensures long { (accounts : Accounts) (rest : List ℕ) → LacksLf rest → 6203 ≤ length rest → IsWhy accounts rest 1 no_line }
{}

/// After whole lines that a log of version 1 may begin with, bytes without an LF are a log that is cut if there are at most 6202,
/// else they are no line; nor is a whole line with more bytes. This also holds for a part of a line after a halt.
pub fn lines_have_6202_bytes_at_most()
    ensures part { (accounts : Accounts) (texts : List (List ℕ)) (log : List LogLine) (place : Place) (told : List AccountAttempt)
        (rest : List ℕ)
        → AreWhole texts log → Begins (demands accounts) log place told → LacksLf rest → 1 ≤ length rest → length rest ≤ max_log_line_len
        → IsWhy accounts (ended_by_lf texts ++ rest) (length texts + 1) is_cut }
    ensures long_part { (accounts : Accounts) (texts : List (List ℕ)) (log : List LogLine) (place : Place) (told : List AccountAttempt)
        (rest : List ℕ)
        → AreWhole texts log → Begins (demands accounts) log place told → LacksLf rest → 6203 ≤ length rest
        → IsWhy accounts (ended_by_lf texts ++ rest) (length texts + 1) no_line }
    ensures long_line { (accounts : Accounts) (texts : List (List ℕ)) (log : List LogLine) (place : Place) (told : List AccountAttempt)
        (text : List ℕ)
        → AreWhole texts log → Begins (demands accounts) log place told → LacksLf text → 6203 ≤ length text
        → IsWhy accounts (ended_by_lf (texts ++ text ∷ [])) (length texts + 1) no_line }
    ensures second { (accounts : Accounts) (text : List ℕ) → LacksLf text → 6203 ≤ length text
        → IsWhy accounts (ended_by_lf (header_one_text ∷ text ∷ [])) 2 no_line }
    ensures second_part { (accounts : Accounts) (rest : List ℕ) → LacksLf rest → 6203 ≤ length rest
        → IsWhy accounts (first_alone ++ rest) 2 no_line }
    ensures second_cut { (accounts : Accounts) (rest : List ℕ) → LacksLf rest → 1 ≤ length rest → length rest ≤ max_log_line_len
        → IsWhy accounts (first_alone ++ rest) 2 is_cut }
{}

/// Each session is counted once, at its first line. In a log of one login, its acceptance is counted, and the code that passed, but
/// not the one that failed. Two codes in a row that passed are counted once.
pub fn counted_logs()
    ensures sessions { (sessions : List RecordedSession)
        → (counts_of (header_one ∷ flat_map session_lines sessions)).sessions ≡ length sessions }
    ensures each { (names client_first server_first client_final server_final text : List ℕ) (moment counter : ℕ)
        → counts_of (header_one ∷ said (mechs names) ∷ heard (auth_with names client_first) ∷ said (cont server_first)
        ∷ heard (resp client_final) ∷ said (accepts server_final) ∷ heard (code text) ∷ said (replies moment (Some (Pass counter)))
        ∷ heard (code text) ∷ said (replies moment (Some Fail)) ∷ gone ∷ ended ∷ [])
        ≡ record { sessions = 1; accepted = 1; passed = 1 } }
    ensures two_codes { (names client_first server_first client_final server_final one other : List ℕ) (moment counter : ℕ)
        → counts_of (header_one ∷ said (mechs names) ∷ heard (auth_with names client_first) ∷ said (cont server_first)
        ∷ heard (resp client_final) ∷ said (accepts server_final) ∷ heard (sync one other) ∷ said (replies moment (Some (Pass counter)))
        ∷ gone ∷ ended ∷ [])
        ≡ record { sessions = 1; accepted = 1; passed = 1 } }
{}

/// After a valid login, the next two codes in a row of a HOTP token pass with the counter of the second. With that reply the log is
/// clean; with the counter of the first it is at fault there, and the reason names the pass that is due. Two codes in a row never
/// pass with a TOTP token: a pass of two is at fault, and FAIL is due.
pub fn logs_of_two_codes()
    ensures passes { (accounts : Accounts) (mechanism name : List ℕ) (exchange : Exchange) (moment : ℕ) (t : HotpFields)
        → IsLoginTo accounts mechanism name exchange → IsMoment moment → accounts.token name ≡ Some (Hotp t)
        → t.failures < t.limit → IsDigitCount t.digits → IsCounter (t.next + 1) → IsClean accounts
        (original_bytes (login_session mechanism exchange ++ next_two t ∷ pass_line moment (t.next + 1) ∷ gone ∷ ended ∷ [])) }
    ensures first_counter { (accounts : Accounts) (mechanism name : List ℕ) (exchange : Exchange) (moment : ℕ) (t : HotpFields)
        → IsLoginTo accounts mechanism name exchange → IsMoment moment → accounts.token name ≡ Some (Hotp t)
        → t.failures < t.limit → IsDigitCount t.digits → IsCounter (t.next + 1) → IsWhy accounts
        (original_bytes (login_session mechanism exchange ++ next_two t ∷ pass_line moment t.next ∷ [])) 8
        (other_reply moment (Some (Pass (t.next + 1)))) }
    ensures of_totp { (accounts : Accounts) (mechanism name : List ℕ) (exchange : Exchange) (first second : List ℕ) (moment counter : ℕ)
        (t : TotpFields)
        → IsLoginTo accounts mechanism name exchange → IsMoment moment → accounts.token name ≡ Some (Totp t)
        → t.failures < t.limit → IsCodeWord first → IsCodeWord second → IsCounter counter → IsWhy accounts
        (original_bytes (login_session mechanism exchange ++ heard (sync first second) ∷ pass_line moment counter ∷ [])) 8
        (other_reply moment (Some Fail)) }
{}
