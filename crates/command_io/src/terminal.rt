//! Streams that may be a terminal.
use std::io::{BufRead, BufReader, BufWriter, IsTerminal, Read, Write};

/// An input, which may be a terminal.
pub trait TerminalInput: BufRead {
    /// Whether the input is a terminal, at which someone types.
    fn is_terminal(&self) -> bool;
}

impl<R: Read + IsTerminal + Drop> TerminalInput for BufReader<R> {
    fn is_terminal(&self) -> bool {
        self.get_ref().is_terminal()
    }
}

/// The stream for faults, which may be a terminal.
pub trait TerminalOutput: Write {
    /// Whether the stream is a terminal, at which someone may be waiting.
    fn is_terminal(&self) -> bool;
}

impl<W: Write + IsTerminal + Drop> TerminalOutput for BufWriter<W> {
    fn is_terminal(&self) -> bool {
        self.get_ref().is_terminal()
    }
}
