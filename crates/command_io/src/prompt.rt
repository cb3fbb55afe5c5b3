//! The prompts that someone at a terminal sees before a command waits for input.
ghost use Rattle.std.specs.Prelude.{◌≡◌, ◌&&◌, true, false, OnOk};
ghost use Rattle.std.specs.Io.KnownBytes.{Appends};

use crate::terminal::{TerminalInput, TerminalOutput};
use std::io;
use std::io::Write;

/// The prompt of `keys` and `enrol`.
pub const PASSWORD: &str = "Type the password and press Enter; it is shown as you type.\n";

/// The prompt of `verify`.
pub const CODES: &str = "Type one code per line; it is shown as you type. End with Ctrl-D.\n";

/// The prompt of `login`.
pub const LOGIN: &str =
    "Type the password, press Enter, then one code per line; all is shown as you type. End with Ctrl-D.\n";

/// The prompt of `hall`.
pub const EVENTS: &str = "Type one event per line: open, line or gone. End with Ctrl-D.\n";

/// Writes the prompt `line` to `faults` if `input` and `faults` are both terminals; otherwise writes nothing. A write that fails is
/// ignored.
pub fn ask<I: TerminalInput, E: TerminalOutput>(input: &I, faults: &mut E, line: &str) {
    let _ = say(input.is_terminal(), faults.is_terminal(), faults, line);
}

// Writes the line if someone types and watches; otherwise writes nothing.
fn say<E: Write>(is_typed: bool, is_watched: bool, faults: &mut E, line: &str) -> io::Result<()>
    ensures said { (is_typed && is_watched) ≡ true
        → OnOk result (Appends (E.contents faults.old) (E.contents faults.new) line.now) }
    ensures silent { (is_typed && is_watched) ≡ false → E.contents faults.new ≡ E.contents faults.old }
{
    if is_typed && is_watched {
        faults.write_all(line.as_bytes())?;
        faults.flush()?;
    }
    Ok(())
}
