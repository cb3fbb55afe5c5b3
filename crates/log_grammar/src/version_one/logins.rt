//! Logins in a log: an `S OK` is the last message of a valid login, and each valid login can be recorded.
ghost use Rattle.std.specs.Prelude.{ℕ, List, [], ◌∷◌, ◌++◌};
ghost use Rattle.mac_core.specs.declared.mechanism.Mechanism.{Mechanism};
ghost use Rattle.scram_text.specs.Class.{IsPlainName};
ghost use Rattle.log_grammar.specs.Lines.{LogLine, said, halt, log_bytes};
ghost use Rattle.log_grammar.specs.Demands.{Accounts};
ghost use Rattle.log_grammar.specs.laws.FitAccounts.{CanBeChallenged};
ghost use Rattle.log_grammar.specs.Versions.{IsClean};
ghost use Rattle.log_grammar.specs.laws.Logins.{EachOkEndsALogin, LoginsAreClean, LoginsMayHalt, LoginsAreAnswered, HasPassword, original_bytes};
ghost use Rattle.log_grammar.specs.laws.Logins.{PasswordsLogIn, RefusedLoginsAreAtFault, OtherRepliesAreAtFault};

/// An `S OK` may stand in a log if and only if the lines before it end with the first three messages of a login, and its message
/// makes that login valid (RFC 5802, sections 3 and 5), to the account that the first of them names, with the session's mechanism.
pub fn each_ok_ends_a_login()
    ensures { EachOkEndsALogin }
{}

/// A log of a valid login is clean if the client then goes away, if a code, or two in a row, is followed by a halt, and if it is
/// followed by the reply that is due, which is NOCODE if the account has no token.
pub fn logins_are_clean()
    ensures gone { LoginsAreClean original_bytes }
    ensures halted { LoginsMayHalt original_bytes }
    ensures answered { LoginsAreAnswered original_bytes }
{}

/// A log that records a valid login as refused is at fault there, and so is one in which a code, or two in a row, after the login
/// has a reply other than the one due. The reason names what is due: the acceptance, with its signature, or the reply.
pub fn other_answers_to_logins_are_at_fault()
    ensures refused { RefusedLoginsAreAtFault original_bytes }
    ensures answered { OtherRepliesAreAtFault original_bytes }
{}

/// There is a valid login to each account with a plain name whose keys are those of a password, with a salt and a count that fit
/// into a challenge, as those of every account book do.
pub fn passwords_log_in()
    ensures { PasswordsLogIn }
{}

/// If an account with a plain name can be challenged and has a password, some clean log ends with a halt.
pub fn some_log_halts()
    ensures { (accounts : Accounts) (m : Mechanism) (name password : List ℕ) → CanBeChallenged (accounts.entry m name) → IsPlainName name
        → HasPassword (accounts.entry m name) m password → (lines : List LogLine) × IsClean accounts (log_bytes (lines ++ said halt ∷ [])) }
{}
