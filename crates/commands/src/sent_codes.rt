//! Reads an input line of `verify` or `login`: one code, or two in a row.
ghost use Rattle.sasl_desk.specs.{texts_of};
ghost use Rattle.commands.specs.SentCodes.{SaysCodes};

use sasl_desk::SentCodes;
use sasl_log::{ClientLine, Line, read_line};

/// The codes in a line without its LF: two texts if it is a SYNC line of the protocol; otherwise the line itself, as one text.
pub(crate) fn codes_in(line: &[u8]) -> SentCodes<'_>
    ensures { SaysCodes line.now (texts_of result) }
{
    match read_line(line) {
        Ok(Line::FromClient(ClientLine::Sync(first, second))) => SentCodes::Two(first, second),
        Ok(_) => SentCodes::One(line),
        Err(_) => SentCodes::One(line),
    }
}
