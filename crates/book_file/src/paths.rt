//! The paths of a book.
ghost use Rattle.std.specs.Prelude.{◌≡◌, ◌++◌, IfOk, codes, string_bytes};

use std::fs::Files;
use std::io::ErrorKind;
use std::path::Path;
use std::{fs, io};

/// The paths of a book, with symbolic links followed, so that a book and each link to it have the same paths.
#[derive(Drop)]
pub(crate) struct BookPaths {
    /// The book's file.
    pub(crate) book: String,

    /// The file to which the next text is written, before it takes the book's place.
    pub(crate) next: String,

    /// The folder of both.
    pub(crate) folder: String,
}

impl BookPaths {
    /// The paths of the book at `path`, whether or not a file is there. Fails if its folder does not exist, if no file is there and
    /// the path does not end in a name, or if it is a link to nothing.
    pub(crate) fn find<R: Files + AllocGlobal>(rt: &R, path: &str) -> io::Result<BookPaths>
        ensures next { IfOk result (λ paths. string_bytes paths.next ≡ string_bytes paths.book ++ codes ".new") }
    {
        let alloc = rt.alloc();
        let book = real_path(rt, path)?;
        let next = format!(in alloc; "{book}.new")?;
        let folder = match Path::new(book.as_str()).parent() {
            Some(folder) => format!(in alloc; "{}", folder.as_str())?,
            None => return Err(io::Error::from(ErrorKind::InvalidInput)),
        };
        Ok(BookPaths { book, next, folder })
    }
}

// The path with links followed.
fn real_path<R: Files + AllocGlobal>(rt: &R, path: &str) -> io::Result<String> {
    match fs::canonicalize(rt, path) {
        Err(error) if error.kind() == ErrorKind::NotFound => new_path(rt, Path::new(path)),
        found => Ok(found?.into_string()),
    }
}

// The path of a file that is still to be made, with the links of its folder followed. With a slash after it, the name would be a
// folder's.
fn new_path<R: Files + AllocGlobal>(rt: &R, path: Path<'_>) -> io::Result<String> {
    let (folder, name) = match (path.parent(), path.file_name()) {
        (Some(folder), Some(name)) if path.as_str().ends_with(name) => (folder, name),
        _ => return Err(io::Error::from(ErrorKind::InvalidInput)),
    };
    let folder = if folder.as_str().is_empty() {
        "."
    } else {
        folder.as_str()
    };
    let new = fs::canonicalize(rt, folder)?.join(rt.alloc(), name)?;
    match fs::symlink_metadata(rt, new.as_str()) {
        Ok(found) if found.is_symlink() => Err(io::Error::from(ErrorKind::InvalidInput)),
        _ => Ok(new.into_string()),
    }
}
