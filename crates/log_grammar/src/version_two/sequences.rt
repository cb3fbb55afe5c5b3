//! Laws of logs of version 2, whose lines have the numbers of their sessions. Each is the contract of a function that does nothing.
//! They hold for every limit of open sessions.
ghost use Rattle.log_grammar.specs.laws.NumberedLaws.{GoesOnByANumberedLine, GoesOnByNoOtherNumberedLine, HasOneNumberedReading};
ghost use Rattle.log_grammar.specs.laws.NumberedLaws.{NumberedLogsGoOnExactlySo, FirstNumberedLinesAreLogs, SessionsStandAlone};
ghost use Rattle.log_grammar.specs.laws.NumberedLaws.{OpenSessionsAreCounted, FewSessionsAreOpen, NumberClassesFollowThePlace};

/// A log can continue with each line that its number may have; a reply also has to be the one due. No other number's place changes.
pub fn goes_on_by_a_numbered_line()
    ensures { GoesOnByANumberedLine }
{}

/// A log can continue in no other way: the lines before its last one are a log, after which the number of the last line may have
/// that line.
pub fn goes_on_by_no_other_numbered_line()
    ensures { GoesOnByNoOtherNumberedLine }
{}

/// The place of each number after a log's lines, and the replies in them, follow from the lines.
pub fn has_one_numbered_reading()
    ensures { HasOneNumberedReading }
{}

/// A log can continue with a line of a number if and only if this number may have it. This is what a reader or a writer of a log
/// has to decide at each line, its ranges aside.
pub fn numbered_logs_go_on_exactly_so()
    ensures { NumberedLogsGoOnExactlySo }
{}

/// The first lines of a log, however many, are a log.
pub fn first_numbered_lines_are_logs()
    ensures { FirstNumberedLinesAreLogs }
{}

/// The place of a session, and so what may follow its lines, depends only on its own lines, not on those of other sessions.
pub fn sessions_stand_alone()
    ensures { SessionsStandAlone }
{}

/// The open sessions and the closed ones are all that have begun; they have the numbers from 1 on.
pub fn open_sessions_are_counted()
    ensures { OpenSessionsAreCounted }
{}

/// At most as many sessions are open as the limit says, or one more if BUSY is the last line: the one that it turns away.
pub fn few_sessions_are_open()
    ensures { FewSessionsAreOpen }
{}

/// The classes of lines that are due at a number after a log's lines, demands aside, are those of its place: MECHS or BUSY,
/// depending on how many sessions are open; nothing after a halt; and after BUSY its `E`.
pub fn number_classes_follow_the_place()
    ensures { NumberClassesFollowThePlace }
{}
