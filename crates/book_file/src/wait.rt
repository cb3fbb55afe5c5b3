//! How long a run waits for other runs.
use std::time::{Clock, Duration, Instant};
use std::{io, thread};

/// The longest wait, in seconds by the clock.
const MAX_WAIT_SECONDS: u64 = 30;

/// The pause between two tries, in milliseconds.
const PAUSE_MILLIS: u64 = 50;

/// A wait, from its beginning.
#[derive(Clone, Copy)]
pub(crate) struct Wait {
    begun: Instant,
}

impl Wait {
    /// A wait that begins now. Fails if the clock can't be read.
    pub(crate) fn begin(clock: &impl Clock) -> io::Result<Wait> {
        Ok(Wait {
            begun: Instant::now(clock)?,
        })
    }

    /// Pauses before the next try and returns true, or returns false at once if the wait has taken 30 seconds. Fails if the clock
    /// can't be read.
    pub(crate) fn pause(&self, clock: &impl Clock) -> io::Result<bool> {
        if self.begun.elapsed(clock)? >= Duration::from_secs(MAX_WAIT_SECONDS) {
            return Ok(false);
        }
        thread::sleep(clock, Duration::from_millis(PAUSE_MILLIS));
        Ok(true)
    }
}
