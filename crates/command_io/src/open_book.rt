//! Opens the file of a book: holds it, so that no other run uses it, and reads it.
ghost use Rattle.std.specs.Prelude.{◌≡◌, ◌⊎◌, false, IfErr, IfOk, IfSome, string_bytes};
ghost use Rattle.book_format.specs.FirstFault.{IsBookFault};
ghost use Rattle.book_format.specs.Trees.{IsBookText};
ghost use Rattle.book_format.specs.declared.fault.BookFault.{BookFault};
ghost use Rattle.book_file.specs.Text.{IsRead};
ghost use Rattle.command_line.specs.Fault.{fault_of_book};
ghost use Rattle.command_io.specs.HeldBook.{CannotHoldOrNoMemory, IsReadBook, CannotOpenBook};

use crate::file::read_fault;
use account_book::{Book, BookStore, BookWhy};
use book_file::{BookFile, BookFileExt, FileStore, HoldFault};
use book_keeper::Keeper;
use command_line::{Fault, TerminalText};
use std::alloc::Global;
use std::fs::Files;
use std::io::Write;
use std::time::Clock;

/// A book as it was when its file was read; other runs may have changed the file since.
#[derive(Drop)]
pub struct ReadBook {
    /// The book that the text states.
    pub book: Book,

    /// The whole text of the file.
    pub text: String,
}

/// Holds the book at `path`, reads it and releases it; returns None if there is no file. Faults: CannotRead if the file can't be
/// read or other runs hold it for 30 seconds; CannotWrite if a save could not keep the file's owner, or if what is at the path of
/// the next text can't be opened or removed; BadBook if the text is not a book; and NoMemory.
#[tactic(auto, using(crate::proofs::lemmas::HeldFaults::bad_text_prevents_opening))]
pub fn read_and_release<R, E>(rt: &R, path: &str, faults: &mut E) -> Result<Option<ReadBook>, Fault>
where
    R: Files + Clock + AllocGlobal,
    R::File: BookFileExt,
    E: Write,
    ensures read { IfOk result (λ found. IfSome found (λ seen. IsReadBook R.File.remaining (string_bytes seen.text) seen.book)) }
    ensures err { IfErr result (CannotOpenBook R.File.remaining path.now) }
{
    let mut file = match BookFile::hold(rt, path) {
        Ok(file) => file,
        Err(HoldFault::Missing) => return Ok(None),
        Err(fault) => return Err(hold_fault(rt.alloc(), path, fault, faults)),
    };
    // Not reached: `hold` returns Missing if there is no file. No contract says so.
    let Some(text) = text_of(rt.alloc(), &mut file, path)? else {
        return Ok(None);
    };
    let book = Book::read(rt.alloc(), text.as_bytes())?;
    Ok(Some(ReadBook { book, text }))
}

/// Holds the book at `path` and reads it. Faults: those of `read_and_release`, and CannotRead if there is no file.
#[tactic(auto, using(crate::proofs::lemmas::HeldFaults::bad_text_prevents_opening))]
pub fn open<'r, R, E>(
    rt: &'r R,
    path: &str,
    faults: &mut E,
) -> Result<Keeper<FileStore<'r, R>>, Fault>
where
    R: Files + Clock + AllocGlobal,
    R::File: BookFileExt,
    E: Write,
    ensures read { IfOk result (λ held. IsReadBook R.File.remaining (⟦<FileStore<'r, R> as BookStore>⟧.facts held.store).saved held.book) }
    ensures working { IfOk result (λ held. (⟦<FileStore<'r, R> as BookStore>⟧.facts held.store).failed ≡ false) }
    ensures err { IfErr result (CannotOpenBook R.File.remaining path.now) }
{
    let mut file = match BookFile::hold(rt, path) {
        Ok(file) => file,
        Err(fault) => return Err(hold_fault(rt.alloc(), path, fault, faults)),
    };
    match text_of(rt.alloc(), &mut file, path)? {
        Some(text) => parse_held(rt.alloc(), file, text),

        // Not reached: `hold` returns Missing if there is no file. No contract says so.
        None => Err(Fault::CannotRead(String::from_str(rt.alloc(), path)?)),
    }
}

/// Reads the book of `file` from its text, `text`. Faults: BadBook if the text is not a book, and NoMemory.
pub fn parse_held<'r, R>(
    alloc: Global,
    file: BookFile<'r, R>,
    text: String,
) -> Result<Keeper<FileStore<'r, R>>, Fault>
where
    R: Files + Clock + AllocGlobal,
    R::File: BookFileExt,
    ensures text { IfOk result (λ held. IsBookText (⟦<FileStore<'r, R> as BookStore>⟧.facts held.store).saved held.book) }
    ensures saved { IfOk result (λ held. (⟦<FileStore<'r, R> as BookStore>⟧.facts held.store).saved ≡ string_bytes text) }
    ensures working { IfOk result (λ held. (⟦<FileStore<'r, R> as BookStore>⟧.facts held.store).failed ≡ false) }
    ensures err { IfErr result (λ fault. (fault ≡ Fault.NoMemory)
        ⊎ ((found : BookFault) × (fault ≡ fault_of_book found) × IsBookFault (string_bytes text) found)) }
{
    let book = Book::read(alloc, text.as_bytes())?;
    let store = FileStore::new(file, text);
    Ok(Keeper::resume(book, store))
}

/// The text of a held book's file, or None if there is no file yet. Faults: CannotRead, BadBook if the text is not UTF-8, and NoMemory.
#[tactic(auto, using(crate::proofs::lemmas::HeldFaults::unread_file_prevents_holding))]
pub fn text_of<R>(
    alloc: Global,
    file: &mut BookFile<'_, R>,
    path: &str,
) -> Result<Option<String>, Fault>
where
    R: Files + Clock + AllocGlobal,
    R::File: BookFileExt,
    ensures read { IfOk result (λ found. IfSome found (λ text. IsRead R.File.remaining (string_bytes text))) }
    ensures err { IfErr result (CannotOpenBook R.File.remaining path.now) }
{
    let bytes = match file.read() {
        Ok(Some(bytes)) => bytes,
        Ok(None) => return Ok(None),
        Err(error) => return Err(read_fault(alloc, path, &error)),
    };
    match String::from_utf8(bytes) {
        Ok(text) => Ok(Some(text)),
        Err(_) => Err(Fault::BadBook(BookWhy::Toml.number())),
    }
}

/// The fault of a command that could not hold the book at `path`: CannotRead, CannotWrite or NoMemory. If other runs held the book,
/// or it belongs to another user, a line on `faults` says so first, unless the fault is NoMemory.
#[tactic(auto, using(crate::proofs::lemmas::HeldFaults::failed_read_prevents_holding))]
pub fn hold_fault<E: Write>(alloc: Global, path: &str, fault: HoldFault, faults: &mut E) -> Fault
    ensures { CannotHoldOrNoMemory path.now result }
{
    let Ok(file) = String::from_str(alloc, path) else {
        return Fault::NoMemory;
    };
    match fault {
        HoldFault::Unreadable(error) => Fault::from_read_error(file, &error),
        HoldFault::Missing => Fault::CannotRead(file),
        HoldFault::Unwritable(_) => Fault::CannotWrite(file),
        HoldFault::InTheWay(next) => Fault::CannotWrite(next),
        HoldFault::OwnedByAnother => {
            let shown = TerminalText(path);
            let _ = writeln!(
                faults,
                "scramotp: {shown} belongs to another user: only that user and root can save it"
            );
            Fault::CannotWrite(file)
        }
        HoldFault::HeldByOthers => {
            let shown = TerminalText(path);
            let _ = writeln!(faults, "scramotp: other runs held {shown} for 30 seconds");
            Fault::CannotRead(file)
        }
    }
}
