//! Laws that follow from the contracts of a book's calls. All do nothing at run time except `written_is_read`, which writes and
//! reads the book.
ghost use Rattle.std.specs.Prelude.{◌≡◌, IfOk};
ghost use Rattle.book_format.specs.Book.{IsBook};
ghost use Rattle.account_book.specs.Laws.{TokensAreApart, EntriesStay, TokensStay, TokensGoBack, AddedIsApart, MapsFollowChanges};
ghost use Rattle.account_book.specs.Laws.{MapsFollowAdditions};

use crate::book::Book;
use book_format::BookWhy;
use std::alloc::{AllocError, Global};

/// Each book is in its ranges: its salts and iteration counts fit into a challenge, and its keys are as long as the digests of
/// their hash functions.
pub fn books_are_in_range(book: &Book)
    ensures { IsBook book.now }
{
    book.law_of_ranges();
}

/// The text that a book writes is read as that book. Returns the book that was read. Errors: `AllocError`, only if memory runs out
/// (no clause says so).
pub fn written_is_read(alloc: Global, book: &Book) -> Result<Book, AllocError>
    ensures { IfOk result (λ read. read ≡ book.now) }
{
    let text = book.write(alloc)?;
    match Book::read(alloc, text.as_bytes()) {
        Ok(read) => Ok(read),
        Err(fault) => match fault.why {
            BookWhy::NoMemory => Err(AllocError),
            _ => unreachable!(),
        },
    }
}

/// If one account gets another token, every other name keeps its token.
pub fn tokens_are_apart()
    ensures { TokensAreApart }
{}

/// If one account gets another token, the entry of every name stays the same: an entry contains no token.
pub fn entries_stay()
    ensures { EntriesStay }
{}

/// Giving an account the token that it already has changes nothing.
pub fn tokens_stay()
    ensures { TokensStay }
{}

/// Giving an account another token, and then its old token again, restores the book.
pub fn tokens_go_back()
    ensures { TokensGoBack }
{}

/// If an account is added, its name has that account, and every other name keeps its account.
pub fn added_is_apart()
    ensures { AddedIsApart }
{}

/// If an account is changed, it is changed in the map of the accounts, and nothing else is.
pub fn maps_follow_changes()
    ensures { MapsFollowChanges }
{}

/// If an account is added, it is added to the map of the accounts, and nothing else changes there.
pub fn maps_follow_additions()
    ensures { MapsFollowAdditions }
{}
