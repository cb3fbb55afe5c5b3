//! How a run takes hold of a book: the locks that keep two runs from working on one at the same time.
//!
//! The lock is on the book's own file, so whoever may not open the book can't keep a run from it. A save puts another file in its
//! place, which the run has locked before. So after a lock is taken, the book's name has to be looked up again. If there is no book
//! yet, the file of its first text is locked instead.
ghost use Rattle.std.specs.Prelude.{IfErr, true, false};
ghost use Rattle.book_file.specs.Faults.{IsHoldFault};

use crate::fault::HoldFault;
use crate::lock::BookFileExt;
use crate::paths::BookPaths;
use crate::trust;
use crate::wait::Wait;
use std::fs::{Files, Metadata, OpenFile, OpenOptions};
use std::io::ErrorKind;
use std::os::unix::fs::{MetadataExt, OpenOptionsExt};
use std::time::Clock;
use std::{fs, io};

/// The mode of a new file: only its owner reads and writes it.
const OWNER_ONLY: u32 = 0o600;

/// The file of a book, open and locked.
#[derive(Drop)]
pub(crate) struct LockedBook<F> {
    /// The open file, which this run has locked.
    pub(crate) file: F,

    /// Its metadata when this run took hold of it, or put it in place.
    pub(crate) metadata: Metadata,
}

/// What a run holds: a book, or the place for a new one.
#[derive(Drop)]
pub(crate) enum Held<F> {
    /// The file of the book.
    Book(LockedBook<F>),

    /// There is no book: the file of its first text, empty and locked.
    Next(F),
}

/// Takes hold of the book at these paths; `is_shared` says whether others may change the folder's entries. If there is no file, it
/// makes the file of the first text if `may_make` is true, and fails with Missing if not. Waits up to 30 seconds for other runs.
pub(crate) fn hold<R>(
    rt: &R,
    paths: &BookPaths,
    is_shared: bool,
    may_make: bool,
) -> Result<Held<R::File>, HoldFault>
where
    R: Files + Clock + AllocGlobal,
    R::File: BookFileExt,
    ensures { IfErr result (IsHoldFault may_make) }
{
    let wait = Wait::begin(rt)?;
    // The bound is there only because every function has to return; in practice the body ends the loop.
    for _ in 0..u64::MAX {
        let held = match open_plain(rt, paths.book.as_str(), is_shared)? {
            Some(file) => try_book(rt, paths, file, is_shared)?,
            None if may_make => try_first(rt, paths, is_shared)?,
            None => return Err(HoldFault::Missing),
        };
        if let Some(held) = held {
            return Ok(held);
        }
        if !wait.pause(rt)? {
            break;
        }
    }
    Err(HoldFault::HeldByOthers)
}

// Opens the plain file with this name, or returns None if nothing has the name. Only a plain file is opened: there is no flag here
// that keeps a pipe from blocking. In a shared folder, a pipe may take the file's place in between; so there it is opened for
// reading and writing: in that way Linux opens even a pipe without waiting (fifo(7)).
fn open_plain<R: Files>(rt: &R, path: &str, is_shared: bool) -> io::Result<Option<R::File>> {
    match fs::symlink_metadata(rt, path) {
        Err(error) if error.kind() == ErrorKind::NotFound => return Ok(None),
        found => trust::check(&found?, is_shared)?,
    }
    let mut how = OpenOptions::new();
    how.read(true).write(is_shared);
    let file = match how.open(rt, path) {
        Err(error) if error.kind() == ErrorKind::NotFound => return Ok(None),
        file => file?,
    };
    trust::check(&file.metadata()?, is_shared)?;
    Ok(Some(file))
}

// Locks a file that was opened at the book's path, and removes what a killed run left. Returns None if another run holds the book,
// or has put another file in its place.
fn try_book<R>(
    rt: &R,
    paths: &BookPaths,
    file: R::File,
    is_shared: bool,
) -> Result<Option<Held<R::File>>, HoldFault>
where
    R: Files + AllocGlobal,
    R::File: BookFileExt,
    ensures holding { IfErr result (IsHoldFault false) }
    ensures making { IfErr result (IsHoldFault true) }
{
    if !claim(rt, &file, paths.book.as_str())? {
        return Ok(None);
    }
    let locked = file.metadata()?;
    if !clear_next(rt, paths, Some(&locked), is_shared)? {
        return Ok(None);
    }
    // Taken again: `clear_next` may have removed a second name of the book.
    let metadata = file.metadata()?;
    if metadata.nlink() != 1 {
        return Err(HoldFault::Unreadable(io::Error::from(ErrorKind::InvalidInput)));
    }
    Ok(Some(Held::Book(LockedBook { file, metadata })))
}

// Makes the file of the first text of a book that does not exist. Returns None if another run is making the book, or has made it in
// the meantime.
fn try_first<R>(
    rt: &R,
    paths: &BookPaths,
    is_shared: bool,
) -> Result<Option<Held<R::File>>, HoldFault>
where
    R: Files + AllocGlobal,
    R::File: BookFileExt,
    ensures { IfErr result (IsHoldFault true) }
{
    let Some(next) = try_next(rt, paths, None, is_shared)? else {
        return Ok(None);
    };
    match fs::symlink_metadata(rt, paths.book.as_str()) {
        Err(error) if error.kind() == ErrorKind::NotFound => Ok(Some(Held::Next(next))),
        found => {
            remove(rt, paths.next.as_str())?;
            found?;
            Ok(None)
        }
    }
}

/// Makes and locks the file of the next text of a book that is held. Waits up to 30 seconds if another run has that file: a run
/// that looked for the book before it was there may have it.
pub(crate) fn next_of<R>(
    rt: &R,
    paths: &BookPaths,
    book: Option<&Metadata>,
    is_shared: bool,
) -> Result<R::File, HoldFault>
where
    R: Files + Clock + AllocGlobal,
    R::File: BookFileExt,
{
    let wait = Wait::begin(rt)?;
    // The bound is there only because every function has to return; in practice the body ends the loop.
    for _ in 0..u64::MAX {
        if let Some(next) = try_next(rt, paths, book, is_shared)? {
            return Ok(next);
        }
        if !wait.pause(rt)? {
            break;
        }
    }
    Err(HoldFault::HeldByOthers)
}

// Makes and locks the file of the next text. Returns None if another run has one.
fn try_next<R>(
    rt: &R,
    paths: &BookPaths,
    book: Option<&Metadata>,
    is_shared: bool,
) -> Result<Option<R::File>, HoldFault>
where
    R: Files + AllocGlobal,
    R::File: BookFileExt,
    ensures { IfErr result (IsHoldFault true) }
{
    let next = paths.next.as_str();
    if !clear_next(rt, paths, book, is_shared)? {
        return Ok(None);
    }
    match make_next(rt, next) {
        Ok(made) => Ok(made),
        Err(error) if error.kind() == ErrorKind::AlreadyExists && !is_folder(rt, next) => Ok(None),
        Err(error) => Err(HoldFault::Unwritable(error)),
    }
}

// Whether the path names a folder itself, and not a link to one. False if the system does not say.
fn is_folder<R: Files>(rt: &R, path: &str) -> bool {
    match fs::symlink_metadata(rt, path) {
        Ok(found) => found.is_dir(),
        Err(_) => false,
    }
}

// Makes and locks the file of the next text, which only its owner can open. Returns None if another run has it.
fn make_next<R>(rt: &R, next: &str) -> io::Result<Option<R::File>>
where
    R: Files,
    R::File: BookFileExt,
{
    let file = OpenOptions::new()
        .read(true)
        .write(true)
        .create_new(true)
        .mode(OWNER_ONLY)
        .open(rt, next)?;
    let claimed = claim(rt, &file, next);
    if claimed.is_err() {
        let _ = fs::remove_file(rt, next);
    }
    Ok(claimed?.then_some(file))
}

// Locks a file that was opened at `path`. Returns whether this run now holds it and the path still names it.
fn claim<R>(rt: &R, file: &R::File, path: &str) -> io::Result<bool>
where
    R: Files,
    R::File: BookFileExt,
{
    Ok(file.try_lock_now()? && is_named(rt, file, path)?)
}

// Removes what has the path of the next text: at once if it is not a plain file of a trusted owner, or is the book, whose metadata
// is `book`, under a second name; else only if its lock is free, since then a killed run left it. Returns false if another run
// holds it, or if it has been replaced or removed meanwhile. Leaves a folder there and returns true. Errors: InTheWay if it can't
// be removed, or can't be opened to find out whether another run holds it.
fn clear_next<R>(
    rt: &R,
    paths: &BookPaths,
    book: Option<&Metadata>,
    is_shared: bool,
) -> Result<bool, HoldFault>
where
    R: Files + AllocGlobal,
    R::File: BookFileExt,
    ensures holding { IfErr result (IsHoldFault false) }
    ensures making { IfErr result (IsHoldFault true) }
{
    let next = paths.next.as_str();
    let found = match fs::symlink_metadata(rt, next) {
        Err(error) if error.kind() == ErrorKind::NotFound => return Ok(true),
        found => found?,
    };
    let is_of_run = found.is_file() && trust::has_trusted_owner(&found);
    let is_book = book.is_some_and(|book| trust::is_same_file(book, &found));
    if !is_of_run || is_book {
        remove(rt, next)?;
        return Ok(true);
    }
    let left = match open_plain(rt, next, is_shared) {
        Ok(Some(left)) => left,
        Ok(None) => return Ok(false),
        Err(_) => return Err(HoldFault::InTheWay(String::from_str(rt.alloc(), next)?)),
    };
    if !claim(rt, &left, next)? {
        return Ok(false);
    }
    remove(rt, next)?;
    Ok(true)
}

// Removes what has this name. A folder stays; then no save can be made.
fn remove<R: Files + AllocGlobal>(rt: &R, next: &str) -> Result<(), HoldFault>
    ensures holding { IfErr result (IsHoldFault false) }
    ensures making { IfErr result (IsHoldFault true) }
{
    match fs::remove_file(rt, next) {
        Err(error) if !is_folder_or_gone(error.kind()) => {
            Err(HoldFault::InTheWay(String::from_str(rt.alloc(), next)?))
        }
        _ => Ok(()),
    }
}

// Whether an error of this kind says that there is a folder, or that nothing is left there.
fn is_folder_or_gone(kind: ErrorKind) -> bool {
    kind == ErrorKind::NotFound || kind == ErrorKind::IsADirectory
}

/// Whether the path names this open file itself, and not a link to it.
pub(crate) fn is_named<R: Files>(rt: &R, file: &R::File, path: &str) -> io::Result<bool> {
    match fs::symlink_metadata(rt, path) {
        Err(error) if error.kind() == ErrorKind::NotFound => Ok(false),
        found => Ok(trust::is_same_file(&found?, &file.metadata()?)),
    }
}
