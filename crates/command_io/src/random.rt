//! Random bytes from a file.
ghost use Rattle.std.specs.Prelude.{◌≡◌, IfErr, IfOk};
ghost use Rattle.std.specs.Io.KnownBytes.{Consumes};
ghost use Rattle.command_io.specs.File.{IsFileUnreadOrNoMemory};

use crate::file::read_fault;
use command_line::Fault;
use std::alloc::Global;
use std::io::Read;

/// The next `N` bytes of a file of random bytes, which was opened at `path`. Faults: CannotRead if it has fewer or a read fails, and
/// NoMemory.
pub fn random_bytes<F: Read, const N: usize>(
    alloc: Global,
    path: &str,
    file: &mut F,
) -> Result<[u8; N], Fault>
    ensures next { IfOk result (λ bytes. Consumes (F.remaining file.old) (F.remaining file.new) bytes) }
    ensures err { IfErr result (IsFileUnreadOrNoMemory path.now) }
{
    let mut bytes = [0u8; N];
    match file.read_exact(&mut bytes) {
        Ok(()) => Ok(bytes),
        Err(error) => Err(read_fault(alloc, path, &error)),
    }
}
