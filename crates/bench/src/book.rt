//! Reads the text of a book many times.
use account_book::Book;
use std::alloc::Global;
use std::fs::Files;
use std::{fs, io};

// Reads the bytes as a book `count` times, and returns how often they were one.
fn readings(alloc: Global, bytes: &[u8], count: u32) -> u32 {
    let mut read = 0u32;
    for _ in 0..count {
        if Book::read(alloc, bytes).is_ok() {
            read = read.saturating_add(1);
        }
    }
    read
}

/// Reads the file at `path` once and its bytes as a book `count` times, and prints how often they were
/// one.
pub(crate) fn print_readings<R>(rt: &R, path: &str, count: u32) -> io::Result<()>
where
    R: Print + Files + AllocGlobal,
{
    let bytes = fs::read(rt, path)?;
    let read = readings(rt.alloc(), bytes.as_slice(), count);
    println!(rt; "book {read} of {count}")
}
