//! Where the text of a book is kept.
ghost use Rattle.std.specs.Prelude.{ℕ, List, OnOk, string_bytes};
ghost use Rattle.account_book.specs.Store.{StoreFacts, IsSaveAnswered};

use thiserror::Error;

/// A save failed, in this call or in an earlier one.
#[derive(Clone, Copy, Debug, PartialEq, Eq, Error)]
#[error("the book could not be saved")]
pub struct StoreFault;

/// A store of one text, that of a book.
///
/// Contracts use four facts about it: `saved`, the text that it holds if it has not failed; `asked`, the text given to the last
/// save, which a failed store may hold instead of `saved`; `failed`, whether it has failed; and `saves`, how many saves it has
/// begun.
///
/// `IsStored` is what else is true of a text that was saved. Each type of store defines it: for a store in a file, that the text
/// was written to a file, if the file's contents are known; for a store in memory, nothing more.
///
/// No contract says what is left if the process stops in the middle of a save. A store that outlives its process should then hold
/// the old text or the new one, and never another.
pub trait BookStore {
    ghost facts: { Self → StoreFacts };

    // What is true of each text that a store of this type has saved.
    ghost IsStored: { List ℕ → Type 0 } = { λ _. Unit {0} };

    /// Replaces the text that the store holds with `text`. After Ok it holds `text`. After Err it has failed, and holds `text` or
    /// the old text; every later call then returns Err and changes nothing. A store should fail only if it can't replace its text
    /// in that call, or if `saves` reaches 2^64 - 1 (no contract says so).
    fn save(&mut self, text: String) -> Result<(), StoreFault>
        ensures saves { IsSaveAnswered (facts self.old) (string_bytes text) result (facts self.new) }
        ensures stored { OnOk result (IsStored (string_bytes text)) };
}
