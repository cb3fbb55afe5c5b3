//! Laws of logs of version 1, as sequences of lines. Each is the contract of a function that does nothing.
ghost use Rattle.log_grammar.specs.laws.LogLaws.{GoesOnByALine, GoesOnByNoOther, LogsHaveOneReading, EachAccountHasItsHistory};
ghost use Rattle.log_grammar.specs.laws.LogLaws.{MomentsAreInRange, ClassesFollowThePlace};

/// A log can continue with each line that may stand at its place; a reply also has to be the one due.
pub fn goes_on_by_a_line()
    ensures { GoesOnByALine }
{}

/// A log can continue in no other way: the lines before its last one lead to a place where that line may stand.
pub fn goes_on_by_no_other()
    ensures { GoesOnByNoOther }
{}

/// The place after a log's lines, and the replies in them, follow from the lines.
pub fn logs_have_one_reading()
    ensures { LogsHaveOneReading }
{}

/// If their moments are in range, as in every log that was read, a log's replies are due if and only if, for each account, its own
/// replies, taken by themselves, are due.
pub fn each_account_has_its_history()
    ensures { EachAccountHasItsHistory }
{}

/// The replies in a log that is read from bytes have moments in their range.
pub fn moments_are_in_range()
    ensures { MomentsAreInRange }
{}

/// The classes of lines that are due after a log's lines, demands aside, are those of its place.
pub fn classes_follow_the_place()
    ensures { ClassesFollowThePlace }
{}
