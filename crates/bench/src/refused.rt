//! One half of the test `tests/refused_calls.py`, and no measurement: what the script runs while it refuses one request for memory,
//! whichever it is. Here a client is served. The call of a desk then returns 99, nothing is lost, and the same call made again
//! succeeds. The modules below do the same for a hall, for books and for texts.
mod books;
mod hall;
mod texts;

use crate::memory::{KeepingSink, MemoryStore, StillClock};
use crate::service::{SERVER_NONCE, login_and_codes, read_book};
use account_book::Book;
pub(crate) use books::print_book;
pub(crate) use hall::print_hall;
use otp_core::Moment;
use sasl_desk::{Desk, DeskFault, Event, Phase, ServeFault, serve, serve_turn};
use sasl_log::{OverRead, Sink};
use scram_text::NoncePart;
use std::alloc::{Allocator, Global};
use std::fs::Files;
use std::{io, str};
pub(crate) use texts::print_texts;

// A desk over this book, and how often `Desk::begin` ran out of memory first: 0 or 1. None if it does not begin.
fn begun<A: Allocator>(
    alloc: Global,
    book: Book,
    log: &mut Vec<u8, A>,
) -> Option<(Desk<MemoryStore>, u32)> {
    match Desk::begin(alloc, book, MemoryStore::new(alloc), log) {
        Ok(desk) => Some((desk, 0)),
        Err((book, store, DeskFault::NoMemory)) => {
            Some((Desk::begin(alloc, book, store, log).ok()?, 1))
        }
        Err(_) => None,
    }
}

// Lets the desk greet a client. Returns how often the call ran out of memory first, 0 or 1; None if the desk does not greet.
fn greeted(desk: &mut Desk<MemoryStore>, wire: &mut Vec<u8>, log: &mut Vec<u8>) -> Option<u32> {
    for refused in [0, 1] {
        let server_nonce = NoncePart::new(SERVER_NONCE)?;
        if desk.phase() != Phase::Closed {
            return None;
        }
        match desk.greet(server_nonce, wire, log) {
            Ok(_) => return Some(refused),
            Err(DeskFault::NoMemory) => {}
            Err(_) => return None,
        }
    }
    None
}

// Lets the desk hear what its client does, and returns a count as `greeted` does.
fn heard(
    alloc: Global,
    desk: &mut Desk<MemoryStore>,
    event: Event<'_>,
    wire: &mut Vec<u8>,
    log: &mut Vec<u8>,
) -> Option<u32> {
    for refused in [0, 1] {
        let moment = Moment::new(5)?;
        if desk.phase() == Phase::Closed {
            return None;
        }
        match desk.client(alloc, event, moment, wire, log) {
            Ok(_) => return Some(refused),
            Err(DeskFault::NoMemory) => {}
            Err(_) => return None,
        }
    }
    None
}

// Lets the desk hear these lines, and then that their client has gone away. Returns how often memory ran out, or None.
fn all_heard(
    alloc: Global,
    desk: &mut Desk<MemoryStore>,
    lines: &str,
    wire: &mut Vec<u8>,
    log: &mut Vec<u8>,
) -> Option<u32> {
    let mut refused = 0u32;
    for line in lines.lines() {
        let event = Event::Line(line.as_bytes());
        refused = refused.saturating_add(heard(alloc, desk, event, wire, log)?);
    }
    Some(refused.saturating_add(heard(alloc, desk, Event::Gone, wire, log)?))
}

// Prints a log and how often memory ran out, or, for None, that a client was left without an answer.
fn print_end(rt: &impl Print, log: &[u8], refused: Option<u32>) -> io::Result<()> {
    match (str::from_utf8(log), refused) {
        (Ok(text), Some(count)) => println!(rt; "{text}out of memory {count}"),
        _ => println!(rt; "a client was left without an answer"),
    }
}

// What a client was sent, how often memory ran out while it was served, and the text that the store then holds.
#[derive(Drop)]
struct Outcome {
    wire: Vec<u8>,
    refused: u32,
    saved: String,
}

// Gives these lines to a desk over this book, call by call, and makes a call that runs out of memory again.
fn called(alloc: Global, book: Book, lines: &str, log: &mut Vec<u8>) -> Option<Outcome> {
    let mut wire = Vec::new(alloc);
    let (mut desk, before) = begun(alloc, book, log)?;
    let greeting = greeted(&mut desk, &mut wire, log)?;
    let rest = all_heard(alloc, &mut desk, lines, &mut wire, log)?;
    let (_, store) = desk.close();
    Some(Outcome {
        wire,
        refused: before.saturating_add(greeting).saturating_add(rest),
        saved: store.into_text(),
    })
}

/// Gives a login and `count` codes to a desk over the book in the file at `path`, call by call, and makes a call that runs out of
/// memory again. Prints what its client was sent, the text that its store holds, and then, as the others do, its log and how often
/// memory ran out.
pub(crate) fn print_calls<R>(rt: &R, path: &str, count: u32) -> io::Result<()>
where
    R: Print + Files + AllocGlobal,
{
    let alloc = rt.alloc();
    let (book, text) = (read_book(rt, path)?, login_and_codes(alloc, count)?);
    let mut log = Vec::new(alloc);
    let Some(outcome) = called(alloc, book, text.as_str(), &mut log) else {
        return print_end(rt, log.as_slice(), None);
    };
    if let Ok(wire) = str::from_utf8(outcome.wire.as_slice()) {
        let saved = outcome.saved.as_str();
        println!(rt; "{wire}---\n{saved}---")?;
    }
    print_end(rt, log.as_slice(), Some(outcome.refused))
}

// Takes a turn with a client that sends this line, and returns a count as `greeted` does.
fn turned(
    alloc: Global,
    desk: &mut Desk<MemoryStore>,
    line: &[u8],
    wire: &mut KeepingSink,
    log: &mut KeepingSink,
) -> Option<u32> {
    let mut clock = StillClock::new(Moment::new(5)?);
    for refused in [0, 1] {
        if desk.phase() == Phase::Closed {
            return None;
        }
        let mut client = OverRead::new(line);
        match serve_turn(alloc, &mut client, wire, log, desk, &mut clock) {
            Ok(_) => return Some(refused),
            Err(ServeFault::NoMemory) => {}
            Err(_) => return None,
        }
    }
    None
}

// Takes turns with a client that sends these lines and goes away. Returns how often memory ran out, or None.
fn all_turned(
    alloc: Global,
    desk: &mut Desk<MemoryStore>,
    lines: &str,
    wire: &mut KeepingSink,
    log: &mut KeepingSink,
) -> Option<u32> {
    let mut refused = 0u32;
    for line in lines.split_inclusive('\n') {
        refused = refused.saturating_add(turned(alloc, desk, line.as_bytes(), wire, log)?);
    }
    Some(refused.saturating_add(turned(alloc, desk, b"", wire, log)?))
}

// As `called`, with `serve_turn` after the greeting.
fn called_by_turns(alloc: Global, book: Book, lines: &str, log: &mut KeepingSink) -> Option<u32> {
    let (mut sent, mut logged) = (Vec::new(alloc), Vec::new(alloc));
    let (mut desk, before) = begun(alloc, book, &mut logged)?;
    let greeting = greeted(&mut desk, &mut sent, &mut logged)?;
    log.put(logged.as_slice()).ok()?;
    let rest = all_turned(alloc, &mut desk, lines, &mut KeepingSink::new(), log)?;
    Some(before.saturating_add(greeting).saturating_add(rest))
}

/// As `print_calls`, with `serve_turn`.
pub(crate) fn print_turns<R>(rt: &R, path: &str, count: u32) -> io::Result<()>
where
    R: Print + Files + AllocGlobal,
{
    let alloc = rt.alloc();
    let (book, text) = (read_book(rt, path)?, login_and_codes(alloc, count)?);
    let mut log = KeepingSink::new();
    let refused = called_by_turns(alloc, book, text.as_str(), &mut log);
    print_end(rt, log.bytes(), refused)
}

// Serves a client with `serve`. If memory runs out, ends an open session as if its client had gone away. Returns how often memory
// ran out, or None.
fn served(
    alloc: Global,
    desk: &mut Desk<MemoryStore>,
    text: &str,
    wire: &mut KeepingSink,
    log: &mut KeepingSink,
) -> Option<u32> {
    let mut client = OverRead::new(text.as_bytes());
    let mut clock = StillClock::new(Moment::new(5)?);
    if desk.phase() != Phase::Closed {
        return None;
    }
    match serve(
        alloc,
        &mut client,
        wire,
        log,
        desk,
        NoncePart::new(SERVER_NONCE)?,
        &mut clock,
    ) {
        Ok(_) => Some(0),
        Err(ServeFault::NoMemory) if desk.phase() == Phase::Closed => Some(1),
        Err(ServeFault::NoMemory) => Some(turned(alloc, desk, b"", wire, log)?.saturating_add(1)),
        Err(_) => None,
    }
}

// As `called`, with `serve`.
fn called_at_once(alloc: Global, book: Book, text: &str, log: &mut KeepingSink) -> Option<u32> {
    let mut first_line = Vec::new(alloc);
    let (mut desk, before) = begun(alloc, book, &mut first_line)?;
    log.put(first_line.as_slice()).ok()?;
    let rest = served(alloc, &mut desk, text, &mut KeepingSink::new(), log)?;
    Some(before.saturating_add(rest))
}

/// As `print_calls`, with `serve`. If memory runs out, the client is not served any further.
pub(crate) fn print_service<R>(rt: &R, path: &str, count: u32) -> io::Result<()>
where
    R: Print + Files + AllocGlobal,
{
    let alloc = rt.alloc();
    let (book, text) = (read_book(rt, path)?, login_and_codes(alloc, count)?);
    let mut log = KeepingSink::new();
    let refused = called_at_once(alloc, book, text.as_str(), &mut log);
    print_end(rt, log.bytes(), refused)
}
