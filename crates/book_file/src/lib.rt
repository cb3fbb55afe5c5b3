//! The file of an account book, held by one run at a time, and the store that saves a book to it.
//!
//! `BookFile::hold` locks the book's file, `read` reads its bytes, and `FileStore` replaces them with each new text, whole or not
//! at all. The text is written to a file beside the book, with `.new` after its name, and the system is asked to write that file to
//! its device before it gets the book's name. The lock is the system's advisory lock on the open file, which ends with the run,
//! however it ends; the next file is locked before it becomes the book. A save is made only if the file at the path is the one that
//! was read or saved last.
//!
//! Contracts say that the text of a save was written to a file, after what the file already had (`IsWritten`), and that what is
//! read is all that a file had left (`IsRead`). No contract can say which path a file has, or that the file of the next text was
//! empty: the kit's `open` promises nothing about a file's bytes. That is tested instead.
//!
//! ```rust
//! use book_file::{BookFile, FileStore};
//!
//! let mut file = BookFile::hold(&rt, "book.toml")?;
//! let text = String::from_utf8(file.read()?.ok_or("a book")?)?;
//! let store = FileStore::new(file, text);
//! ```
#![tactic(auto)]

mod fault;
mod file;
mod hold;
mod lock;
mod paths;
mod store;
mod trust;
mod wait;

pub use fault::HoldFault;
pub use file::{BookFile, MAX_BOOK_LEN, read_without_lock};
pub use lock::BookFileExt;
pub use store::FileStore;
pub use trust::is_same_file;
