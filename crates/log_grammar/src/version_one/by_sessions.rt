//! What an audit's answer means: a clean log is that of sessions, and the line at fault is the first with which the lines begin no
//! clean log.
ghost use Rattle.log_grammar.specs.laws.BySessions.{CleanLogsAreThoseOfSessions, FaultLinesBeginNoCleanLog};
ghost use Rattle.log_grammar.specs.laws.BySessions.{EachCodeIsOfItsLogin, EachReplyDueFollowsItsLogin};

/// A log of version 1 is clean if and only if all of these hold:
///
/// - It is the first line and the lines of some sessions, each ended by an LF.
/// - Each session except the last is closed; the last is closed or halted.
/// - Each session meets its demands.
/// - For each account that has a token, the replies recorded in all sessions, in their order, are a legal history of it.
/// - No code of an account without a token has a reply.
pub fn clean_logs_are_those_of_sessions()
    ensures { CleanLogsAreThoseOfSessions }
{}

/// The account of each code of a session is the one that the `n=` of its client-first message names.
pub fn each_code_is_of_its_login()
    ensures { EachCodeIsOfItsLogin }
{}

/// If the reply to a code is due, the lines end with those of a session, and the account of the code is the one that the `n=` of
/// the session's client-first message names.
pub fn each_reply_due_follows_its_login()
    ensures { EachReplyDueFollowsItsLogin }
{}

/// If a challenge can be written for each account and decoy, line k is the fault line if and only if k is the least number such
/// that the first k lines begin no clean log. If all lines begin one but the bytes are not clean, k is the number after that of the
/// last line.
pub fn fault_lines_begin_no_clean_log()
    ensures { FaultLinesBeginNoCleanLog }
{}
