//! The store that saves a book to its file.
ghost use Rattle.std.specs.Prelude.{◌≡◌, ◌<◌, ◌+◌, ◌^◌, string_bytes, Some, None, false};
ghost use Rattle.std.specs.Option.{is_some, option_map, unwrap_or};
ghost use Rattle.book_file.specs.Saved.{IsSavedText};

use crate::file::BookFile;
use crate::lock::BookFileExt;
use account_book::{BookStore, StoreFault};
use std::fs::Files;
use std::time::Clock;

/// The file of a book as a store.
#[derive(Drop)]
pub struct FileStore<'a, R: Files> {
    file: BookFile<'a, R>,

    // The text that the file had at first, or that was saved last. After a failed save, the file may have that save's text instead:
    // a save can still fail when the new file already has the book's name, if that name can't be written to its device.
    saved: String,

    // The text of the save that failed.
    failed_text: Option<String>,

    // How many saves were begun, up to the one that failed.
    saves: u64,

    // While none has failed, one more can be counted: the save with the greatest number fails.
    ghost room: { failed_text ≡ None → saves + 1 < 2 ^ 64 },
}

impl<'a, R> FileStore<'a, R>
where
    R: Files + Clock + AllocGlobal,
    R::File: BookFileExt,
{
    /// The store of a book's file, which has this text. No save has been begun.
    pub fn new(file: BookFile<'a, R>, text: String) -> FileStore<'a, R>
        ensures { ⟦<FileStore<'a, R> as BookStore>⟧.facts result
            ≡ record { saved = string_bytes text; asked = string_bytes text; failed = false; saves = 0 } }
    {
        FileStore {
            file,
            saved: text,
            failed_text: None,
            saves: 0,
        }
    }
}

impl<'a, R> BookStore for FileStore<'a, R>
where
    R: Files + Clock + AllocGlobal,
    R::File: BookFileExt,
{
    ghost facts = { λ s. record {
      saved = string_bytes s.saved;
      asked = unwrap_or (option_map string_bytes s.failed_text) (string_bytes s.saved);
      failed = is_some s.failed_text;
      saves = s.saves;
    } };

    ghost IsStored = { IsSavedText R.File.contents };

    fn save(&mut self, text: String) -> Result<(), StoreFault> {
        if self.failed_text.is_some() {
            return Err(StoreFault);
        }
        self.saves += 1;
        if self.saves < u64::MAX && self.file.replace(text.as_str()).is_ok() {
            self.saved = text;
            Ok(())
        } else {
            self.failed_text = Some(text);
            Err(StoreFault)
        }
    }
}
