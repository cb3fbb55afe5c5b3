//! Why a command fails: the text for standard error, and the exit status.
ghost use Rattle.std.specs.Prelude.{◌≡◌, ◌≢◌};
ghost use Rattle.std.specs.IoError.{error_kind};
ghost use Rattle.command_line.specs.Fault.{status_of};

use crate::option_name::OptionName;
use crate::status::{FAILED, REFUSED, USAGE};
use book_format::{BookFault, BookWhy};
use std::alloc::AllocError;
use std::io;
use std::io::ErrorKind;
use thiserror::Error;

/// Why a command fails.
#[derive(Debug, Drop, Error)]
pub enum Fault {
    /// The value of this option is not one that its help describes.
    #[error("bad value for --{0}")]
    BadValue(OptionName),

    /// The first input line is not a password: 1 to 1024 bytes from 0x20 to 0x7E.
    #[error("bad password")]
    BadPassword,

    /// `code` was given neither a counter nor a moment.
    #[error("needs --counter or --moment")]
    NoCounterOrMoment,

    /// The moment of a code is before its first step.
    #[error("before the first step")]
    BeforeFirstStep,

    /// The book already has an account of this name.
    #[error("name is taken")]
    NameTaken,

    /// The book has no account of this name.
    #[error("no such account")]
    NoSuchAccount,

    /// The account has no token.
    #[error("no token")]
    NoToken,

    /// The file is not an account book; the number says why.
    #[error("bad book: {0}")]
    BadBook(u16),

    /// The file at this path can't be read, has more bytes than a command reads, or is held by another run.
    #[error("cannot read {0}")]
    CannotRead(String),

    /// The file at this path can't be written.
    #[error("cannot write {0}")]
    CannotWrite(String),

    /// An input line of `hall` is not an event, or is one of a session that is not open.
    #[error("bad event")]
    BadEvent,

    /// The socket can't be made, or failed.
    #[error("socket fault")]
    Socket,

    /// Standard input failed, or has more bytes than a command reads.
    #[error("cannot read input")]
    CannotReadInput,

    /// Standard output failed.
    #[error("cannot write output")]
    CannotWriteOutput,

    /// Memory ran out.
    #[error("no memory")]
    NoMemory,
}

impl Fault {
    /// The fault for a failed read of the file at the path `file`: NoMemory if memory ran out, else CannotRead.
    pub fn from_read_error(file: String, error: &io::Error) -> Fault
        ensures no_memory { error_kind error.now ≡ ErrorKind.OutOfMemory → result ≡ Fault.NoMemory }
        ensures unread { error_kind error.now ≢ ErrorKind.OutOfMemory → result ≡ Fault.CannotRead file }
        ensures status { status_of result ≡ 3 }
    {
        if error.kind() == ErrorKind::OutOfMemory {
            Fault::NoMemory
        } else {
            Fault::CannotRead(file)
        }
    }

    /// The exit status: USAGE if a value or the password is not in its form or an option is missing, FAILED for files, sockets,
    /// streams and memory, else REFUSED.
    pub fn status(&self) -> u8
        ensures { result ≡ status_of self.now }
    {
        match self {
            Fault::BeforeFirstStep
            | Fault::NameTaken
            | Fault::NoSuchAccount
            | Fault::NoToken
            | Fault::BadBook(_)
            | Fault::BadEvent => REFUSED,
            Fault::BadValue(_) | Fault::BadPassword | Fault::NoCounterOrMoment => USAGE,
            Fault::CannotRead(_)
            | Fault::CannotWrite(_)
            | Fault::Socket
            | Fault::CannotReadInput
            | Fault::CannotWriteOutput
            | Fault::NoMemory => FAILED,
        }
    }
}

impl From<AllocError> for Fault {
    ghost use Rattle.std.specs.Prelude.{◌≡◌};
    ghost use Rattle.command_line.specs.declared.fault.Fault.TheVariants.{NoMemory};

    ghost from_gives = { λ _ fault. fault ≡ NoMemory };

    fn from(_error: AllocError) -> Fault {
        Fault::NoMemory
    }
}

impl From<BookFault> for Fault {
    ghost use Rattle.std.specs.Prelude.{◌≡◌};
    ghost use Rattle.command_line.specs.Fault.{fault_of_book};

    ghost from_gives = { λ book fault. fault ≡ fault_of_book book };

    fn from(fault: BookFault) -> Fault {
        match fault.why {
            BookWhy::NoMemory => Fault::NoMemory,
            _ => Fault::BadBook(fault.number()),
        }
    }
}
