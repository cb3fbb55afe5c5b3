//! Shows texts from outside on standard error.
use std::fmt;
use std::fmt::{Display, Formatter, Write};

/// A text whose control characters (00 to 1F, 7F to 9F hex) are shown as `\x` and two digits, so that a path or a word can't move
/// the cursor of a terminal or begin a line.
#[derive(Clone, Copy)]
pub struct TerminalText<'a>(pub &'a str);

impl Display for TerminalText<'_> {
    fn fmt<W: Write>(&self, f: &mut Formatter<W>) -> fmt::Result {
        for character in self.0.chars() {
            if character.is_control() {
                write!(f, "\\x{:02x}", character as u32)?;
            } else {
                f.write_char(character)?;
            }
        }
        Ok(())
    }
}
