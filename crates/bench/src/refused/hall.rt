//! Serves two clients in a hall while one request for memory is refused, as `refused` does at a desk.
use crate::memory::MemoryStore;
use crate::refused::print_end;
use crate::service::{SERVER_NONCE, login_and_codes, read_book};
use account_book::Book;
use otp_core::Moment;
use sasl_desk::{DeskFault, Event, Hall};
use scram_text::NoncePart;
use std::alloc::{Allocator, Global};
use std::fs::Files;
use std::io;

// A hall over this book, and how often `Hall::begin` ran out of memory first: 0 or 1. None if it does not begin.
fn begun<A: Allocator>(
    alloc: Global,
    book: Book,
    log: &mut Vec<u8, A>,
) -> Option<(Hall<MemoryStore>, u32)> {
    match Hall::begin(alloc, book, MemoryStore::new(alloc), log) {
        Ok(hall) => Some((hall, 0)),
        Err((book, store, DeskFault::NoMemory)) => {
            Some((Hall::begin(alloc, book, store, log).ok()?, 1))
        }
        Err(_) => None,
    }
}

// Lets the hall greet a client, whose session should get the number `session`. Returns how often the call ran out of memory first,
// 0 or 1; None if the session gets another number or none.
fn greeted(
    hall: &mut Hall<MemoryStore>,
    session: u64,
    wire: &mut Vec<u8>,
    log: &mut Vec<u8>,
) -> Option<u32> {
    for refused in [0, 1] {
        match hall.greet(NoncePart::new(SERVER_NONCE)?, wire, log) {
            Ok((number, _)) if number == session => return Some(refused),
            Err(DeskFault::NoMemory) => {}
            _ => return None,
        }
    }
    None
}

// Lets the hall hear what the client of this session does, and returns a count as `greeted` does.
fn heard(
    alloc: Global,
    hall: &mut Hall<MemoryStore>,
    session: u64,
    event: Event<'_>,
    wire: &mut Vec<u8>,
    log: &mut Vec<u8>,
) -> Option<u32> {
    for refused in [0, 1] {
        let moment = Moment::new(5)?;
        if hall.phase(session).is_none() {
            return None;
        }
        match hall.client(alloc, session, event, moment, wire, log) {
            Ok(_) => return Some(refused),
            Err(DeskFault::NoMemory) => {}
            Err(_) => return None,
        }
    }
    None
}

// Lets the hall hear these lines of the first client, and then that it and the second have gone away. Returns how often memory ran
// out, or None.
fn all_heard(
    alloc: Global,
    hall: &mut Hall<MemoryStore>,
    lines: &str,
    wire: &mut Vec<u8>,
    log: &mut Vec<u8>,
) -> Option<u32> {
    let mut refused = 0u32;
    for line in lines.lines() {
        let event = Event::Line(line.as_bytes());
        refused = refused.saturating_add(heard(alloc, hall, 1, event, wire, log)?);
    }
    for session in [1, 2] {
        refused = refused.saturating_add(heard(alloc, hall, session, Event::Gone, wire, log)?);
    }
    Some(refused)
}

// Serves two clients in a hall over this book, call by call; the first sends these lines. A call that runs out of memory is made
// again. Returns how often memory ran out, or None.
fn called(alloc: Global, book: Book, lines: &str, log: &mut Vec<u8>) -> Option<u32> {
    let mut wire = Vec::new(alloc);
    let (mut hall, mut refused) = begun(alloc, book, log)?;
    for session in [1, 2] {
        refused = refused.saturating_add(greeted(&mut hall, session, &mut wire, log)?);
    }
    let rest = all_heard(alloc, &mut hall, lines, &mut wire, log)?;
    Some(refused.saturating_add(rest))
}

/// Serves two clients in a hall over the book in the file at `path`, call by call; the first logs in and sends `count` codes. A call
/// that runs out of memory is made again. Prints the hall's log, and how often memory ran out.
pub(crate) fn print_hall<R>(rt: &R, path: &str, count: u32) -> io::Result<()>
where
    R: Print + Files + AllocGlobal,
{
    let alloc = rt.alloc();
    let (book, text) = (read_book(rt, path)?, login_and_codes(alloc, count)?);
    let mut log = Vec::new(alloc);
    let refused = called(alloc, book, text.as_str(), &mut log);
    print_end(rt, log.as_slice(), refused)
}
