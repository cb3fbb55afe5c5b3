//! Laws of books' texts, each the contract of a function that does nothing. A text is that of one book or has one first fault, and
//! never both.
ghost use Rattle.book_format.specs.Laws.{IsBookOrAtFault, BookIsNotAtFault, HasOneBook, HasOneBookFault};

/// Each text is that of a book or has a first fault.
pub fn is_book_or_at_fault()
    ensures { IsBookOrAtFault }
{}

/// The text of a book has no first fault.
pub fn book_is_not_at_fault()
    ensures { BookIsNotAtFault }
{}

/// A text is that of at most one book.
pub fn has_one_book()
    ensures { HasOneBook }
{}

/// A text has at most one first fault.
pub fn has_one_book_fault()
    ensures { HasOneBookFault }
{}
