//! What a service needs, in memory: a store for its book, a clock that stands still, and sinks that count bytes or keep them.
ghost use Rattle.std.specs.Prelude.{◌≡◌, ◌<◌, ◌+◌, ◌^◌, false, string_bytes};
ghost use Rattle.std.specs.declared.option.Option.TheVariants.{None};

use account_book::{BookStore, StoreFault};
use arrayvec::ArrayVec;
use otp_core::Moment;
use sasl_desk::Clock;
use sasl_log::{Sink, SinkFault};
use std::alloc::Global;

/// A store that keeps the text in memory.
#[derive(Drop)]
pub(crate) struct MemoryStore {
    text: String,
    failed: bool,
    saves: u64,
    ghost room: { failed ≡ false → saves + 1 < 2 ^ 64 },
}

impl MemoryStore {
    /// A store that holds an empty text.
    pub(crate) fn new(alloc: Global) -> MemoryStore {
        MemoryStore {
            text: String::new(alloc),
            failed: false,
            saves: 0,
        }
    }

    /// The text that it holds.
    pub(crate) fn into_text(self) -> String {
        self.text
    }
}

impl BookStore for MemoryStore {
    ghost use Rattle.account_book.specs.Store.{StoreFacts};

    ghost facts = { λ s. record {
      saved = string_bytes s.text;
      asked = string_bytes s.text;
      failed = s.failed;
      saves = s.saves;
    } };

    fn save(&mut self, text: String) -> Result<(), StoreFault> {
        if self.failed {
            return Err(StoreFault);
        }
        self.text = text;
        self.saves += 1;
        if self.saves < u64::MAX {
            return Ok(());
        }
        self.failed = true;
        Err(StoreFault)
    }
}

/// A clock that stands still.
#[derive(Drop)]
pub(crate) struct StillClock {
    at: Moment,
}

impl StillClock {
    /// A clock that always returns the moment `at`.
    pub(crate) fn new(at: Moment) -> StillClock {
        StillClock { at }
    }
}

impl Clock for StillClock {
    ghost last = { λ c. c.at };

    fn now(&mut self) -> Moment {
        self.at
    }
}

/// A sink that counts bytes and keeps none.
#[derive(Drop)]
pub(crate) struct CountingSink {
    /// How many bytes it was given; the count stops at the greatest `u64`.
    pub bytes: u64,
}

impl CountingSink {
    /// A sink that has been given nothing yet.
    pub(crate) fn new() -> CountingSink {
        CountingSink { bytes: 0 }
    }
}

impl Sink for CountingSink {
    ghost facts = { λ s. record { given = None; failed = false } };

    fn put(&mut self, bytes: &[u8]) -> Result<(), SinkFault> {
        self.bytes = self.bytes.saturating_add(bytes.len() as u64);
        Ok(())
    }
}

/// A sink that keeps up to 8192 bytes, and asks for no memory.
#[derive(Drop)]
pub(crate) struct KeepingSink {
    bytes: ArrayVec<u8, 8192>,
    failed: bool,
}

impl KeepingSink {
    /// A sink that has been given nothing yet.
    pub(crate) fn new() -> KeepingSink {
        KeepingSink {
            bytes: ArrayVec::new(),
            failed: false,
        }
    }

    /// The bytes that it holds.
    pub(crate) fn bytes(&self) -> &[u8] {
        self.bytes.as_slice()
    }
}

impl Sink for KeepingSink {
    ghost facts = { λ s. record { given = None; failed = s.failed } };

    fn put(&mut self, bytes: &[u8]) -> Result<(), SinkFault> {
        if self.failed || self.bytes.try_extend_from_slice(bytes).is_err() {
            self.failed = true;
            return Err(SinkFault);
        }
        Ok(())
    }
}
