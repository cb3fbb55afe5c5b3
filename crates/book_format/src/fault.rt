//! Why a text is not an account book.
ghost use Rattle.std.specs.Prelude.{◌≡◌};
ghost use Rattle.book_format.specs.Faults.{book_why_number};

use std::fmt;
use thiserror::Error;

/// What is wrong with a book's text, with the fault's number.
#[derive(Clone, Copy, Debug, PartialEq, Eq, Error)]
pub enum BookWhy {
    /// It is not UTF-8, or not a TOML document.
    #[error("not a TOML document")]
    Toml = 60,

    /// `format` is missing, or is not the number 1.
    #[error("`format` is not 1")]
    Format = 61,

    /// A key of a table is missing or unknown, or its value has the wrong type.
    #[error("a key is missing, unknown, or of another type")]
    Key = 62,

    /// A name is not 1 to 255 bytes of 20 to 7E hex, or `act_as` has more than 16 names.
    #[error("a name is not 1 to 255 printable ASCII characters, or `act_as` has more than 16 names")]
    Name = 63,

    /// A salt is not the hexadecimal text of 1 to 64 bytes.
    #[error("a salt is not 1 to 64 bytes in hexadecimal")]
    Salt = 64,

    /// An iteration count is not 1 to 4294967295.
    #[error("a count is not 1 to 4294967295")]
    Count = 65,

    /// The text of `stored`, `server` or `decoy_key` is not hexadecimal, or spells the wrong number of bytes.
    #[error("a key is not in hexadecimal, or not of the right length")]
    KeyLength = 66,

    /// A token is of an unknown kind or hash function, its secret is not the hexadecimal text of 10 to 64 bytes, or another field
    /// of it is out of its range.
    #[error("a token is of an unknown kind, or a value in it is out of range")]
    Token = 67,

    /// There was no memory for the book.
    #[error("no memory for the book")]
    NoMemory = 99,
}

impl BookWhy {
    /// The fault's number: 60 to 67, or 99.
    pub fn number(&self) -> u16
        ensures { result ≡ book_why_number self.now }
    {
        *self as u16
    }
}

/// Why a text is not an account book: the first fault. The book's own keys are checked first, then account after account, in byte
/// order of their names.
#[derive(Clone, Copy, Debug, PartialEq, Eq)]
pub struct BookFault {
    /// What is wrong.
    pub why: BookWhy,

    /// The index of the account at fault, from 0 in byte order of names, or None if no account is at fault. It has no meaning if
    /// memory ran out.
    pub account: Option<usize>,
}

impl BookFault {
    /// The fault's number: 60 to 67, or 99.
    pub fn number(&self) -> u16
        ensures { result ≡ book_why_number self.now.why }
    {
        self.why.number()
    }
}

impl fmt::Display for BookFault {
    fn fmt<W: fmt::Write>(&self, f: &mut fmt::Formatter<W>) -> fmt::Result {
        if let Some(index) = self.account {
            write!(f, "account {index}: ")?;
        }
        write!(f, "{}", self.why)
    }
}

impl std::error::Error for BookFault {}
