//! Laws of upgraded logs: whole logs of version 1 with the numbers of their sessions added, as bytes. Each is the contract of a
//! function that does nothing.
ghost use Rattle.log_grammar.specs.laws.UpgradedLogs.{LogsWithNumbersAreClean, UpgradedLogsAreClean, UpgradedLogsHaveTheSameFault};
ghost use Rattle.log_grammar.specs.laws.UpgradedLogs.{UpgradedLogsHaveTheSameCounts};

/// Let each line after the first get the number that is one more than the number of `E` lines before it. If at least one session
/// may be open, the lines are those of a clean log of version 1 if and only if the numbered lines are those of a clean log of
/// version 2.
pub fn logs_with_numbers_are_clean()
    ensures { LogsWithNumbersAreClean }
{}

/// If its lines can be written and are fewer than 2^63 - 2 (`CanBeUpgraded`), the bytes of a log of version 1 are clean if and only
/// if those of the upgraded log are.
pub fn upgraded_logs_are_clean()
    ensures { UpgradedLogsAreClean }
{}

/// If its lines can be upgraded, line k of a log of version 1 is at fault for a reason if and only if line k of the upgraded log is
/// at fault, for the same reason. The only reason that changes is that of a first line again, which is out of order in the old log:
/// with a number it is not a line.
pub fn upgraded_logs_have_the_same_fault()
    ensures { UpgradedLogsHaveTheSameFault }
{}

/// An upgraded log has as many sessions, accepted logins and PASS lines as the old one.
pub fn upgraded_logs_have_the_same_counts()
    ensures { UpgradedLogsHaveTheSameCounts }
{}
