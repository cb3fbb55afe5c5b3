//! The files that a run reads.
ghost use Rattle.std.specs.Prelude.{IfErr};
ghost use Rattle.command_io.specs.File.{IsFileUnreadOrNoMemory};

use command_line::Fault;
use std::alloc::Global;
use std::fs::Files;
use std::{fs, io};

/// Opens the file at `path` for reading. Faults: CannotRead if it can't be opened, and NoMemory.
pub fn open_file<R: Files + AllocGlobal>(rt: &R, path: &str) -> Result<R::File, Fault>
    ensures err { IfErr result (IsFileUnreadOrNoMemory path.now) }
{
    match fs::open(rt, path) {
        Ok(file) => Ok(file),
        Err(error) => Err(read_fault(rt.alloc(), path, &error)),
    }
}

/// The fault of a file at `path` that can't be read: NoMemory if memory ran out, in the read or for a copy of the path; otherwise
/// CannotRead.
#[tactic(auto, using(crate::proofs::lemmas::HeldFaults::failed_read_leaves_file_unread))]
pub fn read_fault(alloc: Global, path: &str, error: &io::Error) -> Fault
    ensures { IsFileUnreadOrNoMemory path.now result }
{
    match String::from_str(alloc, path) {
        Ok(file) => Fault::from_read_error(file, error),
        Err(_) => Fault::NoMemory,
    }
}
