//! What it means that a log of version 2 is clean: it is a log of sessions.
ghost use Rattle.log_grammar.specs.laws.NumberedBySessions.{CleanNumberedLogsAreThoseOfSessions};

/// A log of version 2 is clean if and only if all of these hold:
///
/// - It is `SCRAMLOG 2` and numbered lines, each ended by an LF.
/// - The lines of each number are a session that meets its demands, or one that BUSY turned away.
/// - Numbers are given in turn: to MECHS if there is room, and to BUSY if there is none.
/// - Each number is closed; or one is halted, by the last line.
/// - For each account that has a token, the recorded replies, in the order of the log, are a legal history of it.
/// - No code of an account without a token has a reply.
pub fn clean_numbered_logs_are_those_of_sessions()
    ensures { CleanNumberedLogsAreThoseOfSessions }
{}
