//! Logins by calls of a desk, one after another, and by calls of a hall, 64 at a time. What the calls write is only counted.
use crate::memory::MemoryStore;
use crate::service::{LOGIN, SERVER_NONCE, read_book, refusal};
use account_book::Book;
use arrayvec::ArrayVec;
use otp_core::Moment;
use sasl_desk::{Desk, Event, Hall, Phase};
use scram_text::NoncePart;
use std::alloc::Global;
use std::fs::Files;
use std::io;

// How many clients come into the hall at a time: as many as it takes.
const OPEN: u32 = 64;

// The buffers to which calls write, and how many bytes they have sent and logged.
#[derive(Drop)]
struct Written {
    wire: Vec<u8>,
    log: Vec<u8>,
    sent: u64,
    logged: u64,
}

impl Written {
    fn new(alloc: Global) -> Written {
        Written {
            wire: Vec::new(alloc),
            log: Vec::new(alloc),
            sent: 0,
            logged: 0,
        }
    }

    // Counts the bytes in the buffers, and empties them.
    fn forget(&mut self) {
        self.sent = self.sent.saturating_add(self.wire.len() as u64);
        self.logged = self.logged.saturating_add(self.log.len() as u64);
        self.wire.clear();
        self.log.clear();
    }
}

// Prints how many clients were served, and how many bytes were logged and sent.
fn print_served(rt: &impl Print, served: u32, written: &Written) -> io::Result<()> {
    let (logged, sent) = (written.logged, written.sent);
    println!(rt; "served {served} logged {logged} sent {sent}")
}

// Lets a desk hear what its client does. None if no session is open, or the call fails.
fn desk_hears(
    alloc: Global,
    desk: &mut Desk<MemoryStore>,
    event: Event<'_>,
    written: &mut Written,
) -> Option<Phase> {
    let Written { wire, log, .. } = written;
    if desk.phase() == Phase::Closed {
        return None;
    }
    let answer = desk.client(alloc, event, Moment::new(5)?, wire, log);
    written.forget();
    answer.ok()
}

// Lets a client log in at a desk and leave. None if a session is open before or after it, or a call fails.
fn log_in_alone(alloc: Global, desk: &mut Desk<MemoryStore>, written: &mut Written) -> Option<()> {
    let server_nonce = NoncePart::new(SERVER_NONCE)?;
    let Written { wire, log, .. } = written;
    if desk.phase() != Phase::Closed {
        return None;
    }
    desk.greet(server_nonce, wire, log).ok()?;
    for line in LOGIN.lines() {
        desk_hears(alloc, desk, Event::Line(line.as_bytes()), written)?;
    }
    match desk_hears(alloc, desk, Event::Gone, written)? {
        Phase::Closed => Some(()),
        _ => None,
    }
}

/// Lets `count` clients log in and leave at a desk over the book in the file at `path`, one after another. Prints how many
/// did, and how many bytes were logged and sent.
pub(crate) fn print_alone<R>(rt: &R, path: &str, count: u32) -> io::Result<()>
where
    R: Print + Files + AllocGlobal,
{
    let alloc = rt.alloc();
    let (mut written, mut first_line) = (Written::new(alloc), Vec::new(alloc));
    let Ok(mut desk) = Desk::begin(
        alloc,
        read_book(rt, path)?,
        MemoryStore::new(alloc),
        &mut first_line,
    ) else {
        return Err(refusal());
    };
    let mut served = 0u32;
    for _ in 0..count {
        if log_in_alone(alloc, &mut desk, &mut written).is_some() {
            served = served.saturating_add(1);
        }
    }
    print_served(rt, served, &written)
}

// Lets 64 clients come into a hall. Returns the numbers of their sessions, or None if a call fails.
fn all_come(hall: &mut Hall<MemoryStore>, written: &mut Written) -> Option<ArrayVec<u64, 64>> {
    let mut numbers = ArrayVec::new();
    for _ in 0..OPEN {
        let Written { wire, log, .. } = written;
        let (number, _) = hall.greet(NoncePart::new(SERVER_NONCE)?, wire, log).ok()?;
        numbers.try_push(number).ok()?;
        written.forget();
    }
    Some(numbers)
}

// Lets the client of each of these sessions do this, one after another. Returns how many sessions this ended, or None if
// a session is not open or a call fails.
fn all_do(
    alloc: Global,
    hall: &mut Hall<MemoryStore>,
    numbers: &[u64],
    event: Event<'_>,
    written: &mut Written,
) -> Option<u32> {
    let mut ended = 0u32;
    for number in numbers {
        let Written { wire, log, .. } = written;
        if hall.phase(*number).is_none() {
            return None;
        }
        let phase = hall
            .client(alloc, *number, event, Moment::new(5)?, wire, log)
            .ok()?;
        if phase == Phase::Closed {
            ended = ended.saturating_add(1);
        }
        written.forget();
    }
    Some(ended)
}

// Lets 64 clients log in and leave, one line of each in turn. Returns how many sessions ended, or None if a call fails.
fn log_in_together(
    alloc: Global,
    hall: &mut Hall<MemoryStore>,
    written: &mut Written,
) -> Option<u32> {
    let numbers = all_come(hall, written)?;
    let numbers = numbers.as_slice();
    for line in LOGIN.lines() {
        all_do(alloc, hall, numbers, Event::Line(line.as_bytes()), written)?;
    }
    all_do(alloc, hall, numbers, Event::Gone, written)
}

/// Lets `count` clients log in and leave in a hall over the book in the file at `path`, 64 at a time, and prints what `print_alone`
/// prints. If `count` is no multiple of 64, the clients after the last full 64 are left out.
pub(crate) fn print_together<R>(rt: &R, path: &str, count: u32) -> io::Result<()>
where
    R: Print + Files + AllocGlobal,
{
    let alloc = rt.alloc();
    let (mut written, mut first_line) = (Written::new(alloc), Vec::new(alloc));
    let Ok(mut hall) = Hall::begin(
        alloc,
        read_book(rt, path)?,
        MemoryStore::new(alloc),
        &mut first_line,
    ) else {
        return Err(refusal());
    };
    let mut served = 0u32;
    for _ in 0..count / OPEN {
        if let Some(many) = log_in_together(alloc, &mut hall, &mut written) {
            served = served.saturating_add(many);
        }
    }
    print_served(rt, served, &written)
}
