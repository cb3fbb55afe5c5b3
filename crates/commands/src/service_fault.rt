//! The fault of a command whose desk or hall can't go on.
ghost use Rattle.std.specs.Prelude.{◌≡◌, ◌≢◌};
ghost use Rattle.command_io.specs.File.{IsFileUnwrittenOrNoMemory};
ghost use Rattle.commands.specs.inner.TurnFaults.{IsFaultOfServing};

use command_line::Fault;
use sasl_desk::{DeskFault, ServeFault};
use std::alloc::Global;

/// The fault of a command whose desk or hall refuses a call. Halted becomes CannotWrite of the book: a command calls no desk or
/// hall that has halted, so only `begin` returns Halted, when its save fails. NoNumber becomes CannotWrite too, but never comes: a
/// hall gives at most one number for each line of its input, which has at most 16777216 bytes.
pub(crate) fn desk_fault(alloc: Global, path: &str, fault: DeskFault) -> Fault
    requires { fault ≢ DeskFault.Unwritable }
    ensures unwritten { IsFileUnwrittenOrNoMemory path.now result }
    ensures no_memory { fault ≡ DeskFault.NoMemory → result ≡ Fault.NoMemory }
{
    match fault {
        DeskFault::NoMemory => Fault::NoMemory,
        DeskFault::Halted | DeskFault::NoNumber => unwritten_fault(alloc, path),
        DeskFault::Unwritable => unreachable!(),
    }
}

/// The fault of a command whose desk can't serve a turn. WriteFault becomes NoMemory: the desk writes to an `OverWrite<Vec<u8>>`,
/// which fails only if memory runs out.
pub(crate) fn serve_fault(alloc: Global, path: &str, fault: ServeFault) -> Fault
    requires { fault ≢ ServeFault.Unwritable }
    ensures { IsFaultOfServing path.now fault result }
{
    match fault {
        ServeFault::Halted => unwritten_fault(alloc, path),
        ServeFault::Unwritable => unreachable!(),
        ServeFault::NoMemory | ServeFault::WriteFault => Fault::NoMemory,
        ServeFault::LogFault => Fault::CannotWriteOutput,
    }
}

/// The fault of a book that can't be saved to the file at `path`: CannotWrite, or NoMemory if memory runs out for a copy of the
/// path.
pub(crate) fn unwritten_fault(alloc: Global, path: &str) -> Fault
    ensures { IsFileUnwrittenOrNoMemory path.now result }
{
    match String::from_str(alloc, path) {
        Ok(file) => Fault::CannotWrite(file),
        Err(_) => Fault::NoMemory,
    }
}
