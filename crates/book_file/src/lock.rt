//! What a book's open file has to offer beyond the standard library's trait.
use std::fs::{File, TryLockError};
use std::io;
use std::os::unix::fs::fchown;

/// An open file that can be locked, by one run at a time, and given to an owner.
pub trait BookFileExt {
    /// Takes the exclusive advisory lock. Returns whether it did: false if another open handle of the file holds it. The system
    /// releases the lock when the file is closed, even if a run is killed. Fails if the system can't lock the file.
    fn try_lock_now(&self) -> io::Result<bool>;

    /// Gives the file to this owner and this group. Fails if the system refuses it.
    fn set_owner(&self, owner: u32, group: u32) -> io::Result<()>;
}

impl BookFileExt for File {
    fn try_lock_now(&self) -> io::Result<bool> {
        match self.try_lock() {
            Ok(()) => Ok(true),
            Err(TryLockError::WouldBlock) => Ok(false),
            Err(TryLockError::Error(error)) => Err(error),
        }
    }

    fn set_owner(&self, owner: u32, group: u32) -> io::Result<()> {
        fchown(self, Some(owner), Some(group))
    }
}
