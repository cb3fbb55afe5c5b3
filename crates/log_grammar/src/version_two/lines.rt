//! Laws of the lines of a log of version 2. Each is the contract of a function that does nothing.
ghost use Rattle.log_grammar.specs.laws.NumberedLineLaws.{IsOneNumberedLineOrNone, UnnumberedLinesAreNone, NumberedLinesLackLf};
ghost use Rattle.log_grammar.specs.laws.NumberedLineLaws.{NumbersGoBeforeLines};

/// Each text is one numbered line or none.
pub fn is_one_numbered_line_or_none()
    ensures { IsOneNumberedLineOrNone }
{}

/// A line of a log without a number, such as the first line of a log, is not a numbered line.
pub fn unnumbered_lines_are_none()
    ensures { UnnumberedLinesAreNone }
{}

/// The text of a numbered line contains no LF, and has at most 6222 bytes.
pub fn numbered_lines_lack_lf()
    ensures { NumberedLinesLackLf }
{}

/// A number in its range, a space and a text are a numbered line if and only if the text is a line that may have a number; the
/// numbered line then has this number.
pub fn numbers_go_before_lines()
    ensures { NumbersGoBeforeLines }
{}
