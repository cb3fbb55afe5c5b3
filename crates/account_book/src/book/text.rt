//! The text of a book, a TOML document.
ghost use Rattle.std.specs.Prelude.{IfOk, string_bytes};
ghost use Rattle.book_format.specs.Readings.{IsReadAnswered};
ghost use Rattle.book_format.specs.Written.{IsWrittenText};

use crate::book::Book;
use book_format::{BookFault, Contents};
use std::alloc::{AllocError, Global};

impl Book {
    /// Reads the book whose text is `bytes`. Errors: the first fault, as in `Contents::read`: 60 to 67, or 99 NoMemory, which may
    /// come at any place; no clause says that it comes only if memory runs out.
    pub fn read(alloc: Global, bytes: &[u8]) -> Result<Book, BookFault>
        ensures { IsReadAnswered bytes.now result }
    {
        match Contents::read(alloc, bytes) {
            Ok(contents) => Ok(Book { contents }),
            Err(fault) => Err(fault),
        }
    }

    /// The book's text, as `Contents::write` writes it, which `Book::read` reads as the same book unless memory runs out. Errors:
    /// `AllocError`, only if memory runs out (no clause says so).
    pub fn write(&self, alloc: Global) -> Result<String, AllocError>
        ensures { IfOk result (λ text. IsWrittenText (string_bytes text) self.now) }
    {
        self.contents.write(alloc)
    }
}
