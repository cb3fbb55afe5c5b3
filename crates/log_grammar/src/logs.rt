//! Laws of whole logs of either version, as bytes. Each is the contract of a function that does nothing.
ghost use Rattle.log_grammar.specs.laws.LogLaws.{EachLogIsJudged, HasOneFaultLine, EachFaultHasOneReason, FrontsBeginWithFronts};
ghost use Rattle.log_grammar.specs.laws.LogLaws.{CleanLogsAreFronts, FrontsAreWhatBeginsCleanLogs};
ghost use Rattle.log_grammar.specs.laws.WholeLogs.{CleanLogsAreOfWholeSessions, FrontsAreWhatBeginsWholeLogs, FaultLinesAreOfWholeLogs};
ghost use Rattle.log_grammar.specs.laws.WholeLogs.{ReasonsAreWhatMayStand};

/// Each list of bytes is a clean log, or has a line at fault and a reason for it: an audit always has an answer.
pub fn each_log_is_judged()
    ensures { EachLogIsJudged }
{}

/// Bytes have at most one fault line.
pub fn has_one_fault_line()
    ensures { HasOneFaultLine }
{}

/// There is at most one reason why a line is at fault.
pub fn each_fault_has_one_reason()
    ensures { EachFaultHasOneReason }
{}

/// The first lines of a front, which is whole lines that a log may begin with, are a front too.
pub fn fronts_begin_with_fronts()
    ensures { FrontsBeginWithFronts }
{}

/// A clean log is a front, so its first lines, however many, are one too.
pub fn clean_logs_are_fronts()
    ensures { CleanLogsAreFronts }
{}

/// If a challenge can be written for each account and decoy, whole lines are a front if and only if they begin a clean log: whatever
/// a log may begin with can be completed to a clean log.
pub fn fronts_are_what_begins_clean_logs()
    ensures { FrontsAreWhatBeginsCleanLogs }
{}

/// If a challenge can be written for each account and decoy, a log is clean if and only if it is made of whole sessions, as
/// `CleanLogs` says.
pub fn clean_logs_are_of_whole_sessions()
    ensures { CleanLogsAreOfWholeSessions }
{}

/// If a challenge can be written for each account and decoy, whole lines are a front if and only if they begin a log that is made of
/// whole sessions.
pub fn fronts_are_what_begins_whole_logs()
    ensures { FrontsAreWhatBeginsWholeLogs }
{}

/// If a challenge can be written for each account and decoy, the fault line is the first with which the lines begin no log of whole
/// sessions, as `Faults` says.
pub fn fault_lines_are_of_whole_logs()
    ensures { FaultLinesAreOfWholeLogs }
{}

/// If a challenge can be written for each account and decoy, the reason for a fault follows from what may stand in the place of the line,
/// as `Faults` says. A reply that is due has to be one that can be written.
pub fn reasons_are_what_may_stand()
    ensures { ReasonsAreWhatMayStand }
{}
