//! Shows someone who waits at a terminal how much of a log has been read.
ghost use Rattle.std.specs.Prelude.{◌≡◌};

use command_io::terminal::TerminalOutput;
use std::io;
use std::io::{Read, Write};
use std::time::{Clock, Instant};

// For how many seconds nothing is shown at first.
const QUIET_SECONDS: u64 = 2;

/// Shows at a terminal how many lines and bytes have been read: on one line, after two seconds and then once a second.
#[derive(Drop)]
pub(crate) struct Progress<'a, R, E> {
    clock: &'a R,
    faults: &'a mut E,

    // When the count began, or None if nothing is ever to be shown.
    begun: Option<Instant>,

    // How many seconds after that the counts were last shown, or None if they have not been shown yet.
    shown_at: Option<u64>,

    // The lines and bytes so far. They are not counted if nothing is ever to be shown.
    lines: u64,
    bytes: u64,
}

impl<'a, R: Clock, E: TerminalOutput> Progress<'a, R, E> {
    /// Begins to count. Nothing is ever shown if `faults` is not a terminal or the clock can't be read.
    pub(crate) fn begin(clock: &'a R, faults: &'a mut E) -> Progress<'a, R, E>
        ensures { (result.lines ≡ 0) × (result.bytes ≡ 0) }
    {
        let begun = if faults.is_terminal() {
            Instant::now(clock).ok()
        } else {
            None
        };
        Progress {
            clock,
            faults,
            begun,
            shown_at: None,
            lines: 0,
            bytes: 0,
        }
    }

    /// Clears the counts from the terminal, if they were shown.
    pub(crate) fn end(self) {
        if self.shown_at.is_some() {
            let _ = self.faults.write_all(b"\r\x1b[K");
            let _ = self.faults.flush();
        }
    }

    // Counts these bytes if the counts are to be shown, and shows the counts when it is time.
    fn add(&mut self, bytes: &[u8]) {
        let Some(begun) = self.begun else {
            return;
        };
        self.lines = self.lines.saturating_add(lines_in(bytes));
        self.bytes = self.bytes.saturating_add(bytes.len() as u64);
        let Ok(elapsed) = begun.elapsed(self.clock) else {
            return;
        };
        let seconds = elapsed.as_secs();
        if seconds >= QUIET_SECONDS && self.shown_at != Some(seconds) {
            self.shown_at = Some(seconds);
            let _ = write!(self.faults, "\r{} lines, {} bytes", self.lines, self.bytes);
            let _ = self.faults.flush();
        }
    }
}

// The number of lines that end in these bytes.
fn lines_in(bytes: &[u8]) -> u64 {
    bytes.iter().filter(|byte| **byte == b'\n').count() as u64
}

/// A log's file that reports what is read from it to a `Progress`.
#[derive(Drop)]
pub(crate) struct ProgressFile<'a, 'b, F, R, E> {
    file: F,
    progress: &'a mut Progress<'b, R, E>,
}

impl<'a, 'b, F, R, E> ProgressFile<'a, 'b, F, R, E> {
    /// Wraps `file`, from which nothing has been read yet.
    pub(crate) fn new(
        file: F,
        progress: &'a mut Progress<'b, R, E>,
    ) -> ProgressFile<'a, 'b, F, R, E>
        ensures { result.file ≡ file }
    {
        ProgressFile { file, progress }
    }
}

impl<F: Read, R: Clock, E: TerminalOutput> Read for ProgressFile<'_, '_, F, R, E> {
    ghost remaining = { λ counted. F.remaining counted.file };

    fn read(&mut self, buf: &mut [u8]) -> io::Result<usize> {
        let count = self.file.read(buf)?;
        self.progress.add(&buf[..count]);
        Ok(count)
    }
}
