//! Laws of whole logs of version 2, as bytes, for every limit of open sessions. Each is the contract of a function that does
//! nothing.
ghost use Rattle.log_grammar.specs.laws.NumberedLogLaws.{EachNumberedLogIsJudged, HasOneNumberedFaultLine, EachNumberedFaultHasOneReason};
ghost use Rattle.log_grammar.specs.laws.NumberedLogLaws.{NumberedFrontsBeginWithFronts, NumberedFrontsBeginClean};

/// Each list of bytes is a clean log of version 2, or has a line at fault and a reason for it.
pub fn each_numbered_log_is_judged()
    ensures { EachNumberedLogIsJudged }
{}

/// Bytes have at most one fault line.
pub fn has_one_numbered_fault_line()
    ensures { HasOneNumberedFaultLine }
{}

/// There is at most one reason why a line is at fault.
pub fn each_numbered_fault_has_one_reason()
    ensures { EachNumberedFaultHasOneReason }
{}

/// The first lines of a front, which is whole lines that a log may begin with, are a front too.
pub fn numbered_fronts_begin_with_fronts()
    ensures { NumberedFrontsBeginWithFronts }
{}

/// Each front begins a clean log, if a challenge can be written for each account and decoy: the sessions that are open are closed
/// one by one, or a halt ends them all.
pub fn numbered_fronts_begin_clean()
    ensures { NumberedFrontsBeginClean }
{}
