//! Does one thing with the libraries many times, for a script to time.
//!
//! | After `bench` | Does | Prints |
//! |---|---|---|
//! | KIND COUNT TEXT | reads the message TEXT of that kind COUNT times | how often it was read |
//! | hotp COUNT SECRET | makes the codes for the counters below COUNT | the last code |
//! | sync COUNT SECRET | searches COUNT times for two codes in a row | how often it failed |
//! | verdict COUNT TEXT | judges TEXT COUNT times as the client-final message of RFC 7677's example | how often it was accepted |
//! | book COUNT FILE | reads FILE once, and its bytes as a book COUNT times | how often they were one: `book 20 of 20` |
//! | logins COUNT FILE | serves COUNT logins over the book of FILE | how many were served, and the bytes logged and sent |
//! | codes COUNT FILE | serves one login with COUNT codes | as `logins` |
//! | alone COUNT FILE | lets COUNT clients log in by calls of a desk | as `logins` |
//! | together COUNT FILE | lets COUNT clients log in by calls of a hall, 64 at a time | as `logins` |
//!
//! The others are not timed. They are the module `refused`, one half of a test: the script `tests/refused_calls.py` runs them while
//! it refuses memory. They also print how often memory ran out. `calls`, `turns`, `service` and `hall`, with COUNT FILE, serve a
//! login with COUNT codes and print the log. `texts 1 FILE` writes the texts of FILE, `changes 1 FILE` changes the book of FILE, and
//! both print what was written.
#![tactic(auto)]

mod book;
mod login;
mod memory;
mod open_sessions;
mod pair;
mod refused;
mod service;

use crate::book::print_readings;
use crate::login::print_verdicts;
use crate::open_sessions::{print_alone, print_together};
use crate::pair::print_failures;
use crate::refused::{
    print_book, print_calls, print_hall, print_service, print_texts, print_turns,
};
use crate::service::{print_codes_served, print_logins};
use mac_core::{HSha1, Prepared};
use otp_core::{Digits, Secret, hotp_with};
use scram_text::{read_client_final, read_client_first, read_server_final, read_server_first};
use std::io::ErrorKind;
use std::process::ExitCode;
use std::{env, io};

// Whether the text is a message of this kind (RFC 5802, section 7).
fn is_read(kind: &str, text: &[u8]) -> bool {
    match kind {
        "client-first" => read_client_first(text).is_ok(),
        "server-first" => read_server_first(text).is_ok(),
        "client-final" => read_client_final(text).is_ok(),
        "server-final" => read_server_final(text).is_ok(),
        _ => false,
    }
}

// Reads the text as a message of this kind `count` times, and returns how often it was one.
fn readings(kind: &str, text: &[u8], count: u32) -> u32 {
    let mut read = 0u32;
    for _ in 0..count {
        if is_read(kind, text) {
            read = read.saturating_add(1);
        }
    }
    read
}

// Makes the six-digit HOTP codes for the counters below `count`, and prints the last.
fn print_codes(rt: &(impl Print + Alloc), secret: &[u8], count: u32) -> io::Result<()> {
    let (Ok(secret), Ok(digits)) = (Secret::new(secret), Digits::new(6)) else {
        return Err(io::Error::from(ErrorKind::InvalidInput));
    };
    let key = Prepared::<HSha1>::new(secret.bytes());
    let mut last = hotp_with(&key, 0, digits);
    for counter in 1..count {
        last = hotp_with(&key, u64::from(counter), digits);
    }
    println!(rt; "{}", last.text())
}

fn main(rt: HostRuntime) -> io::Result<ExitCode> {
    let words: Vec<String> = env::args(&rt)?.collect(rt.alloc())?;
    let [_, kind, count, text] = words.as_slice() else {
        return Ok(ExitCode::from(2));
    };
    let Ok(count) = count.parse::<u32>() else {
        return Ok(ExitCode::from(2));
    };
    match kind.as_str() {
        "hotp" => print_codes(&rt, text.as_bytes(), count)?,
        "sync" => print_failures(&rt, text.as_bytes(), count)?,
        "verdict" => print_verdicts(&rt, text.as_bytes(), count)?,
        "logins" => print_logins(&rt, text.as_str(), count)?,
        "codes" => print_codes_served(&rt, text.as_str(), count)?,
        "calls" => print_calls(&rt, text.as_str(), count)?,
        "turns" => print_turns(&rt, text.as_str(), count)?,
        "service" => print_service(&rt, text.as_str(), count)?,
        "hall" => print_hall(&rt, text.as_str(), count)?,
        "texts" => print_texts(&rt, text.as_str())?,
        "changes" => print_book(&rt, text.as_str())?,
        "alone" => print_alone(&rt, text.as_str(), count)?,
        "together" => print_together(&rt, text.as_str(), count)?,
        "book" => print_readings(&rt, text.as_str(), count)?,
        kind => println!(rt; "{kind} {}", readings(kind, text.as_bytes(), count))?,
    }
    Ok(ExitCode::SUCCESS)
}
