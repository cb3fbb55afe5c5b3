//! Why a run could not take hold of a book.
ghost use Rattle.std.specs.Prelude.{◌≡◌};
ghost use Rattle.std.specs.declared.io.Error.{Error};
ghost use Rattle.book_file.specs.declared.fault.HoldFault.TheVariants.{Unreadable};

use std::alloc::AllocError;
use std::io;

/// Why a run could not take hold of a book's file or of the place for a new one.
#[derive(Debug, Drop)]
pub enum HoldFault {
    /// One of these:
    /// - the file is not a plain file, has a second name (a save would leave the old text there), or belongs to others in a folder
    ///   that others may write;
    /// - it or its folder can't be opened or locked, or the folder does not exist;
    /// - there is no file, and the path does not end in a name or is a link to nothing;
    /// - the clock can't be read;
    /// - memory ran out.
    Unreadable(io::Error),

    /// There is no file.
    Missing,

    /// There is no file, and none can be made.
    Unwritable(io::Error),

    /// The book belongs to another user, and the user of this run is not root: a save could not keep its owner.
    OwnedByAnother,

    /// Other runs held the book for 30 seconds.
    HeldByOthers,

    /// What has this path, where the next text of the book would be written, is not a folder and can't be opened or removed.
    InTheWay(String),
}

impl From<io::Error> for HoldFault {
    ghost from_gives = { λ error fault. fault ≡ Unreadable error };

    fn from(error: io::Error) -> HoldFault {
        HoldFault::Unreadable(error)
    }
}

impl From<AllocError> for HoldFault {
    ghost from_gives = { λ _ fault. (error : Error) × (fault ≡ Unreadable error) };

    fn from(error: AllocError) -> HoldFault {
        HoldFault::Unreadable(io::Error::from(error))
    }
}
