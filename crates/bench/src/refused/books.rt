//! Reads, changes and writes a book while one request for memory, whichever it is, is refused. The call then returns 99, the book is
//! unchanged, and the same call made again succeeds.
use account_book::{Book, BookFault, BookWhy, EnrolFault};
use scram_text::{Password, PlainName, Salt};
use std::alloc::Global;
use std::fs::Files;
use std::{fs, io};

// The salts of the new account's keys.
const SALT_1: &[u8; 16] = b"\x00\x01\x02\x03\x04\x05\x06\x07\x08\x09\x0a\x0b\x0c\x0d\x0e\x0f";

const SALT_256: &[u8; 16] = b"\x10\x11\x12\x13\x14\x15\x16\x17\x18\x19\x1a\x1b\x1c\x1d\x1e\x1f";

// The book in these bytes, and how often memory ran out first: 0 or 1.
fn read(alloc: Global, bytes: &[u8]) -> Option<(Book, u32)> {
    for refused in [0, 1] {
        match Book::read(alloc, bytes) {
            Ok(book) => return Some((book, refused)),
            Err(
                BookFault {
                    why: BookWhy::NoMemory,
                    ..
                },
            ) => {}
            Err(_) => return None,
        }
    }
    None
}

// The book's text, and how often memory ran out first: 0 or 1.
fn written(alloc: Global, book: &Book) -> Option<(String, u32)> {
    for refused in [0, 1] {
        if let Ok(text) = book.write(alloc) {
            return Some((text, refused));
        }
    }
    None
}

// Adds the account `new`, with the password `pencil`. Returns how often memory ran out first, 0 or 1; None after any other fault, or
// if the book did not keep the text `before`.
fn enrolled(alloc: Global, book: &mut Book, before: &str) -> Option<u32> {
    let (name, password) = (PlainName::new(b"new")?, Password::new(b"pencil")?);
    let (sha1_salt, sha256_salt) = (Salt::new(SALT_1)?, Salt::new(SALT_256)?);
    for refused in [0, 1] {
        match book.enrol(alloc, &name, &password, &sha1_salt, &sha256_salt, 1) {
            Ok(()) => return Some(refused),
            Err(EnrolFault::NoMemory) if book.write(alloc).ok()?.as_str() == before => {}
            Err(_) => return None,
        }
    }
    None
}

// Adds the account to the book in these bytes, and writes the book before and after. Returns both texts, and how often memory ran
// out in the calls of each kind.
fn changed(alloc: Global, bytes: &[u8]) -> Option<(String, String, [u32; 3])> {
    let (mut book, reading) = read(alloc, bytes)?;
    let (before, writing) = written(alloc, &book)?;
    let enrolling = enrolled(alloc, &mut book, before.as_str())?;
    let (after, again) = written(alloc, &book)?;
    Some((
        before,
        after,
        [reading, writing.saturating_add(again), enrolling],
    ))
}

/// Reads the book in the file at `path`, adds the account `new`, and writes the book before and after. Prints both texts, with a line
/// `---` between them, and how often memory ran out in reading, writing and adding. A call that runs out of memory is made again.
pub(crate) fn print_book<R>(rt: &R, path: &str) -> io::Result<()>
where
    R: Print + Files + AllocGlobal,
{
    let bytes = fs::read(rt, path)?;
    let Some(found) = changed(rt.alloc(), bytes.as_slice()) else {
        return println!(rt; "a call has another answer");
    };
    let (before, after, [reading, writing, enrolling]) = found;
    println!(rt; "{before}---\n{after}out of memory {reading} {writing} {enrolling}")
}
