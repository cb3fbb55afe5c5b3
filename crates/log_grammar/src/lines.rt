//! Laws of the lines of a log. Each is the contract of a function that does nothing.
ghost use Rattle.log_grammar.specs.laws.LineLaws.{EscapesOneMessage, EachTextIsAtMostOneLine, EachTextIsAtMostOneLogLine, LineIsDecided};
ghost use Rattle.log_grammar.specs.laws.LineLaws.{LogLineIsDecided, LinesLackLf, BytesHaveASplit, BytesHaveOneSplitAtMost};

/// A text is the spelling of at most one message, so a reader of a line knows which bytes were sent.
pub fn escapes_one_message()
    ensures { EscapesOneMessage }
{}

/// A text is at most one line of the protocol.
pub fn each_text_is_at_most_one_line()
    ensures { EachTextIsAtMostOneLine }
{}

/// A text is at most one line of a log, so a line has nothing that its text does not say.
pub fn each_text_is_at_most_one_log_line()
    ensures { EachTextIsAtMostOneLogLine }
{}

/// It is decidable whether a text is a line of the protocol.
pub fn line_is_decided()
    ensures { LineIsDecided }
{}

/// It is decidable whether a text is a line of a log.
pub fn log_line_is_decided()
    ensures { LogLineIsDecided }
{}

/// The text of a line contains no LF.
pub fn lines_lack_lf()
    ensures { LinesLackLf }
{}

/// Any bytes are lines, each with its LF, and what follows the last LF.
pub fn bytes_have_a_split()
    ensures { BytesHaveASplit }
{}

/// Bytes are split into lines in at most one way.
pub fn bytes_have_one_split_at_most()
    ensures { BytesHaveOneSplitAtMost }
{}
