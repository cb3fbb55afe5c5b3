//! A book's file, held by one run at a time.
ghost use Rattle.std.specs.Prelude.{◌≡◌, ◌≤◌, ◌<◌, true, false, length, IfOk, IfErr, IfSome, IsErrAnd, OnOk, vec_len};
ghost use Rattle.std.specs.IoError.{error_kind};
ghost use Rattle.book_file.specs.Faults.{IsNextError, IsHoldFault};
ghost use Rattle.book_file.specs.Text.{max_book_len, IsRead, IsWritten};

use crate::fault::HoldFault;
use crate::hold::{Held, LockedBook, hold, is_named, next_of};
use crate::lock::BookFileExt;
use crate::paths::BookPaths;
use crate::trust;
use std::fs::{Files, Metadata, OpenFile, Permissions};
use std::io::{ErrorKind, Read, Seek, SeekFrom, Write};
use std::os::unix::fs::{MetadataExt, PermissionsExt};
use std::time::Clock;
use std::{fs, io};

/// The greatest length of a book's text, in bytes.
pub const MAX_BOOK_LEN: usize = 16_777_216;

/// The permission bits of the owner in a file's mode.
const OWNER_BITS: u32 = 0o700;

/// A book's file, or the place for one that is still to be made. No other run holds the book while this value lives; a
/// run that takes no lock can still read it.
pub struct BookFile<'a, R: Files> {
    rt: &'a R,
    paths: BookPaths,

    // The folder, so that the system can be asked to write its entries to its device.
    folder: R::File,

    // Whether others may change the folder's entries.
    is_shared: bool,

    // The file at the book's path, or None if there is none.
    book: Option<LockedBook<R::File>>,

    // The file for a new book's first text, until a save takes it.
    next: Option<R::File>,
}

// Removes the file of a next text if it has not become the book.
impl<'a, R: Files> Drop for BookFile<'a, R> {
    fn drop(self) {
        if let Some(next) = &self.next {
            remove_own_next(self.rt, &self.paths, next);
        }
        let BookFile {
            rt: _,
            paths: _,
            folder: _,
            is_shared: _,
            book: _,
            next: _,
        } = self;
    }
}

// Gives a file the owner and the group of the book. The system refuses a group that the user of this run is not in. That refusal is
// ignored if the file already has the book's owner: its group may do nothing with it anyway, since only the owner's bits of the
// mode are kept.
fn give_owner<F: OpenFile + BookFileExt>(file: &F, book: &Metadata) -> io::Result<()> {
    match file.set_owner(book.uid(), book.gid()) {
        Err(error)
            if error.kind() == ErrorKind::PermissionDenied
                && file.metadata()?.uid() == book.uid() => { Ok(()) }
        given => given,
    }
}

// Why a save has no next file: the error of the call that failed, or ResourceBusy if the name of that file is not free.
fn next_error(fault: HoldFault) -> io::Error
    ensures { IsNextError fault result }
{
    match fault {
        HoldFault::Unreadable(error) | HoldFault::Unwritable(error) => error,
        _ => io::Error::from(ErrorKind::ResourceBusy),
    }
}

// Removes the file of the next text, if it still has that name.
fn remove_own_next<R: Files>(rt: &R, paths: &BookPaths, next: &R::File) {
    let path = paths.next.as_str();
    if is_named(rt, next, path).unwrap_or(false) {
        let _ = fs::remove_file(rt, path);
    }
}

impl<'a, R> BookFile<'a, R>
where
    R: Files + Clock + AllocGlobal,
    R::File: BookFileExt,
{
    /// Takes hold of the book at `path`. Waits up to 30 seconds for other runs. Errors:
    /// - Missing if there is no file;
    /// - Unreadable for a reason that `HoldFault::Unreadable` lists;
    /// - OwnedByAnother if a save could not keep the book's owner;
    /// - HeldByOthers if other runs held the book all that time;
    /// - InTheWay if what has the path of the next text is not a folder and can't be opened or removed. A folder there only makes
    ///   a save fail.
    pub fn hold(rt: &'a R, path: &str) -> Result<BookFile<'a, R>, HoldFault>
        ensures { IfErr result (IsHoldFault false) }
    {
        BookFile::hold_at(rt, path, false)
    }

    /// As `hold`, but if there is no file at `path`, takes hold of the place for a new book there. Errors: as `hold`, but
    /// Unwritable if no book can be made, instead of Missing.
    pub fn hold_or_make(rt: &'a R, path: &str) -> Result<BookFile<'a, R>, HoldFault>
        ensures { IfErr result (IsHoldFault true) }
    {
        BookFile::hold_at(rt, path, true)
    }

    // As `hold_or_make` if `may_make` is true, else as `hold`.
    fn hold_at(rt: &'a R, path: &str, may_make: bool) -> Result<BookFile<'a, R>, HoldFault>
        ensures { IfErr result (IsHoldFault may_make) }
    {
        let paths = BookPaths::find(rt, path)?;
        let folder = fs::open(rt, paths.folder.as_str())?;
        let is_shared = trust::is_shared(&folder.metadata()?);
        let (book, next) = match hold(rt, &paths, is_shared, may_make)? {
            Held::Book(book) if !trust::can_give_owner(&book.metadata) => {
                return Err(HoldFault::OwnedByAnother);
            }
            Held::Book(book) => (Some(book), None),
            Held::Next(next) => (None, Some(next)),
        };
        Ok(BookFile {
            rt,
            paths,
            folder,
            is_shared,
            book,
            next,
        })
    }

    /// The file's bytes, or None if there is no file. Errors: FileTooLarge if there are more than 16777216; else the error of the
    /// file system call that failed, or out of memory.
    pub fn read(&mut self) -> io::Result<Option<Vec<u8>>>
        ensures most { IfOk result (λ found. IfSome found (λ bytes. vec_len bytes ≤ max_book_len)) }
        ensures all { IfOk result (λ found. IfSome found (λ bytes. IsRead R.File.remaining bytes.items)) }
    {
        match &mut self.book {
            None => Ok(None),
            Some(book) => {
                book.file.seek(SeekFrom::Start(0))?;
                Ok(Some(read_all(self.rt, &mut book.file)?))
            }
        }
    }

    /// Replaces the book with a file that has this text, whole or not at all: a run that is stopped leaves the old text or the new
    /// one. After an error, too, the file has one of the two: the new text if a call failed only after the new file had got the book's
    /// name, else the old one. The new file keeps the book's owner, its group if the user of this run may give it, and the owner's
    /// bits of its mode; the file of a new book has the mode 0600. Errors:
    /// - FileTooLarge if the text has more bytes than `read` accepts;
    /// - NotFound if the file at the path is not the one that this run read or put there last, or has changed since;
    /// - AlreadyExists if there was none and there now is one;
    /// - ResourceBusy if another run holds the next file for 30 seconds, or what has its name can't be opened or removed;
    /// - else the error of the file system call that failed.
    pub fn replace(&mut self, text: &str) -> io::Result<()>
        ensures written { OnOk result (IsWritten R.File.contents text.now) }
        ensures short { OnOk result (length text.now ≤ max_book_len) }
        ensures long { max_book_len < length text.now → IsErrAnd result (λ error. error_kind error ≡ ErrorKind.FileTooLarge) }
    {
        if text.len() > MAX_BOOK_LEN {
            return Err(io::Error::from(ErrorKind::FileTooLarge));
        }
        self.check_unchanged()?;
        let mut next = self.take_next()?;
        match self.write_and_put(&mut next, text) {
            Ok(metadata) => {
                self.book = Some(LockedBook {
                    file: next,
                    metadata,
                });
                self.folder.sync_all()
            }
            Err(error) => {
                remove_own_next(self.rt, &self.paths, &next);
                Err(error)
            }
        }
    }

    // Checks that the file at the book's path is the one that was read, or put there last, and is unchanged.
    fn check_unchanged(&self) -> io::Result<()> {
        let Some(book) = &self.book else {
            return Ok(());
        };
        let found = fs::symlink_metadata(self.rt, self.paths.book.as_str())?;
        if trust::are_unchanged(&found, &book.metadata) {
            Ok(())
        } else {
            Err(io::Error::from(ErrorKind::NotFound))
        }
    }

    // Takes the file of the next text, or makes it if there is none yet.
    fn take_next(&mut self) -> io::Result<R::File> {
        if let Some(next) = self.next.take() {
            return Ok(next);
        }
        let metadata = self.book.as_ref().map(|book| &book.metadata);
        next_of(self.rt, &self.paths, metadata, self.is_shared).map_err(next_error)
    }

    // Writes the text to the next file and gives that file the book's name. Returns its metadata.
    fn write_and_put(&self, next: &mut R::File, text: &str) -> io::Result<Metadata>
        ensures { OnOk result (IsWritten R.File.contents text.now) }
    {
        self.write_next(next, text)?;
        self.put_in_place(next)
    }

    // Writes the text to the next file and asks the system to write the file to its device.
    fn write_next(&self, next: &mut R::File, text: &str) -> io::Result<()>
        ensures { OnOk result (IsWritten R.File.contents text.now) }
    {
        if let Some(book) = &self.book {
            give_owner(next, &book.metadata)?;
            next.set_permissions(Permissions::from_mode(book.metadata.mode() & OWNER_BITS))?;
        }
        next.write_all(text.as_bytes())?;
        next.sync_all()
    }

    // Gives the next file the book's name. Returns its metadata.
    fn put_in_place(&self, file: &R::File) -> io::Result<Metadata> {
        let (book, next) = (self.paths.book.as_str(), self.paths.next.as_str());
        if self.book.is_some() {
            fs::rename(self.rt, next, book)?;
        } else {
            fs::hard_link(self.rt, next, book)?;
            fs::remove_file(self.rt, next)?;
        }
        if is_named(self.rt, file, book)? {
            file.metadata()
        } else {
            Err(io::Error::from(ErrorKind::NotFound))
        }
    }
}

/// Reads the bytes of the book at `path` without a lock: a save replaces the file as a whole. Errors: FileTooLarge if there are
/// more than 16777216; else the error of the file system call that failed, or out of memory.
pub fn read_without_lock<R: Files + AllocGlobal>(rt: &R, path: &str) -> io::Result<Vec<u8>>
    ensures most { IfOk result (λ bytes. vec_len bytes ≤ max_book_len) }
    // They are all the bytes of a file, if these are known.
    ensures all { IfOk result (λ bytes. IsRead R.File.remaining bytes.items) }
{
    let mut file = fs::open(rt, path)?;
    read_all(rt, &mut file)
}

// Reads the rest of a file. Errors: FileTooLarge if that is more bytes than a book may have.
fn read_all<R: AllocGlobal, F: Read>(rt: &R, file: &mut F) -> io::Result<Vec<u8>>
    ensures most { IfOk result (λ bytes. vec_len bytes ≤ max_book_len) }
    ensures all { IfOk result (λ bytes. IfSome (F.remaining file.old) (λ all. bytes.items ≡ all)) }
{
    let mut bytes = Vec::new(rt.alloc());
    file.take(MAX_BOOK_LEN as u64 + 1).read_to_end(&mut bytes)?;
    if bytes.len() <= MAX_BOOK_LEN {
        Ok(bytes)
    } else {
        Err(io::Error::from(ErrorKind::FileTooLarge))
    }
}
