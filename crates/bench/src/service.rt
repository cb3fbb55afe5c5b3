//! Serves clients in memory: logins of RFC 7677's example, section 3, and codes after one of them.
use crate::memory::{CountingSink, MemoryStore, StillClock};
use account_book::Book;
use mac_core::{HSha1, Prepared};
use otp_core::{Digits, Moment, Secret, hotp_with};
use sasl_desk::{Desk, Phase, ServeFault, serve};
use sasl_log::OverRead;
use scram_text::NoncePart;
use std::alloc::Global;
use std::fs::Files;
use std::io::ErrorKind;
use std::{fs, io};

/// The lines that the client sends to log in.
pub(crate) const LOGIN: &str = "AUTH SCRAM-SHA-256 :n,,n=user,r=rOprNGfwEbeRWgbNEkqO
RESP :c=biws,r=rOprNGfwEbeRWgbNEkqO%25hvYDpWUa2RaTCAfuxFIlj)hNlF$k0,p=dHzbZapWIk4jUhN+Ute9ytag9zjfMHgsqmmiz7AndVQ=
";

/// The server's part of the nonce.
pub(crate) const SERVER_NONCE: &[u8] = b"%hvYDpWUa2RaTCAfuxFIlj)hNlF$k0";

/// The error for a file that can't be used, and for codes that can't be made.
pub(crate) fn refusal() -> io::Error {
    io::Error::from(ErrorKind::InvalidInput)
}

/// The book in the file at `path`.
pub(crate) fn read_book<R: Files + AllocGlobal>(rt: &R, path: &str) -> io::Result<Book> {
    let bytes = fs::read(rt, path)?;
    match Book::read(rt.alloc(), bytes.as_slice()) {
        Ok(book) => Ok(book),
        Err(_) => Err(refusal()),
    }
}

/// The lines of a client that logs in and sends `count` HOTP codes of RFC 4226's example secret, from counter 0 on.
pub(crate) fn login_and_codes(alloc: Global, count: u32) -> io::Result<String> {
    let (Ok(secret), Ok(digits)) = (Secret::new(b"12345678901234567890"), Digits::new(6)) else {
        return Err(refusal());
    };
    let key = Prepared::<HSha1>::new(secret.bytes());
    let mut text = String::new(alloc);
    text.push_str(LOGIN)?;
    for counter in 0..count {
        let code = hotp_with(&key, u64::from(counter), digits);
        text.push_str("CODE ")?;
        text.push_str(code.text())?;
        text.push_str("\n")?;
    }
    Ok(text)
}

// A desk over a book, and how many bytes it has logged and sent.
#[derive(Drop)]
struct Service {
    desk: Desk<MemoryStore>,
    wire: CountingSink,
    log: CountingSink,
    clock: StillClock,
}

// A service over the book in the file at `path`.
fn begin_service<R: Files + AllocGlobal>(rt: &R, path: &str) -> io::Result<Service> {
    let (book, now) = (read_book(rt, path)?, Moment::new(5).ok_or(refusal())?);
    let (store, mut first_line) = (MemoryStore::new(rt.alloc()), Vec::new(rt.alloc()));
    let Ok(desk) = Desk::begin(rt.alloc(), book, store, &mut first_line) else {
        return Err(refusal());
    };
    Ok(Service {
        desk,
        wire: CountingSink::new(),
        log: CountingSink::new(),
        clock: StillClock::new(now),
    })
}

// Serves one client, which sends this text and goes away. Returns whether its session has ended without a halt of the desk.
fn is_served(alloc: Global, service: &mut Service, text: &str) -> bool {
    let Service {
        desk,
        wire,
        log,
        clock,
    } = service;
    let Some(server_nonce) = NoncePart::new(SERVER_NONCE) else {
        return false;
    };
    if desk.phase() != Phase::Closed {
        return false;
    }
    let mut client = OverRead::new(text.as_bytes());
    let end = serve(alloc, &mut client, wire, log, desk, server_nonce, clock);
    matches!(end, Ok(Phase::Closed))
}

/// Serves `count` clients, which log in and leave, over the book in the file at `path`. Prints how many sessions ended, and
/// how many bytes were logged and sent.
pub(crate) fn print_logins<R>(rt: &R, path: &str, count: u32) -> io::Result<()>
where
    R: Print + Files + AllocGlobal,
{
    let mut service = begin_service(rt, path)?;
    let mut served = 0u32;
    for _ in 0..count {
        if is_served(rt.alloc(), &mut service, LOGIN) {
            served = served.saturating_add(1);
        }
    }
    let (logged, sent) = (service.log.bytes, service.wire.bytes);
    println!(rt; "served {served} logged {logged} sent {sent}")
}

/// Serves one client, which logs in and sends `count` HOTP codes of RFC 4226's example secret, from counter 0 on, over the book in
/// the file at `path`. Prints what `print_logins` prints.
pub(crate) fn print_codes_served<R>(rt: &R, path: &str, count: u32) -> io::Result<()>
where
    R: Print + Files + AllocGlobal,
{
    let mut service = begin_service(rt, path)?;
    let text = login_and_codes(rt.alloc(), count)?;
    let served = is_served(rt.alloc(), &mut service, text.as_str());
    let (logged, sent) = (service.log.bytes, service.wire.bytes);
    println!(rt; "served {served} logged {logged} sent {sent}")
}
