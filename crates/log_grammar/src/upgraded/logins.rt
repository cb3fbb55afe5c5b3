//! Logs of one login, upgraded: each is judged like the log of version 1.
ghost use Rattle.log_grammar.specs.Upgrades.{upgraded_bytes};
ghost use Rattle.log_grammar.specs.laws.Logins.{LoginsAreClean, LoginsMayHalt, LoginsAreAnswered, RefusedLoginsAreAtFault};
ghost use Rattle.log_grammar.specs.laws.Logins.{OtherRepliesAreAtFault};

/// A log of version 2 of one valid login is clean if the client then goes away, if a code, or two in a row, is followed by a halt,
/// and if it is followed by the reply that is due, which is NOCODE if the account has no token.
pub fn upgraded_logins_are_clean()
    ensures gone { LoginsAreClean upgraded_bytes }
    ensures halted { LoginsMayHalt upgraded_bytes }
    ensures answered { LoginsAreAnswered upgraded_bytes }
{}

/// A log of version 2 that records a valid login as refused is at fault there, and so is one in which a code, or two in a row,
/// after the login has a reply other than the one due. The reason names what is due: the acceptance, with its signature, or the
/// reply.
pub fn other_answers_to_upgraded_logins_are_at_fault()
    ensures refused { RefusedLoginsAreAtFault upgraded_bytes }
    ensures answered { OtherRepliesAreAtFault upgraded_bytes }
{}
