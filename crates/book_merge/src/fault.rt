ghost use Rattle.std.specs.Prelude.{◌≡◌};
ghost use Rattle.book_merge.specs.declared.fault.MergeError.TheVariants as error;

use book_file::BookKind;
use star_io::{Failed, NoMemory};

/// Why books have no sum. Books are counted from 0.
#[derive(Clone, Copy, Debug, PartialEq, Eq)]
pub enum MergeFault {
    /// A byte follows the last one that is read, or a book takes the sum of the totals above
    /// 131,072.
    TooMany,
    /// The bytes behind so many books are no book, and not empty: what is wrong, and where the
    /// faulty field starts, counted from the front of these bytes.
    BadBook { book: u32, kind: BookKind, at: u64 },
    /// The book is of another epoch, which it is.
    BookEpoch { book: u32, have: u32 },
}

/// Why an input gives no sum of books.
#[derive(Clone, Copy, Debug, PartialEq, Eq)]
pub enum MergeError {
    /// A read failed.
    Read,
    /// The input was read to its end, or to one byte behind the last one that is read, and has no
    /// sum.
    Fault(MergeFault),
    NoMemory,
}

impl From<Failed> for MergeError {
    ghost from_gives = { λ _ e. e ≡ error.Read };

    fn from(_: Failed) -> Self {
        MergeError::Read
    }
}

impl From<NoMemory> for MergeError {
    ghost from_gives = { λ _ e. e ≡ error.NoMemory };

    fn from(_: NoMemory) -> Self {
        MergeError::NoMemory
    }
}
