ghost use Rattle.std.specs.Prelude.{◌≡◌};
ghost use Rattle.book_file.specs.declared.book_error.NextBookError.TheVariants as next;

use crate::book::RowBook;
use crate::book_kind::BookKind;
use star_io::{Failed, NoMemory};
use std::alloc::{AllocError, AllocFailed};

/// A book that was read, and how many bytes spell it.
#[derive(Drop)]
pub struct ReadBook {
    pub book: RowBook,
    pub used: u64,
}

/// The first fault of bytes that don't begin with a book.
#[derive(Clone, Copy, Debug, PartialEq, Eq)]
pub struct BadBook {
    pub kind: BookKind,
    /// Where the faulty field starts, in bytes from the front of the book.
    pub at: u64,
    /// How many bytes were looked at: up to the end of the faulty field, or of the bytes.
    pub used: u64,
}

/// Why bytes aren't read as a book.
#[derive(Clone, Copy, Debug, PartialEq, Eq)]
pub enum BookError {
    /// They don't begin with one: what is wrong, and where the faulty field starts.
    Bad { kind: BookKind, at: u64 },
    NoMemory,
}

/// Why a source gives no book.
#[derive(Clone, Copy, Debug, PartialEq, Eq)]
pub enum NextBookError {
    /// A read failed.
    Read,
    NoMemory,
    /// What the source has left isn't empty and doesn't begin with a book.
    Bad(BadBook),
}

impl From<Failed> for NextBookError {
    ghost from_gives = { λ _ e. e ≡ next.Read };

    fn from(_: Failed) -> Self {
        NextBookError::Read
    }
}

impl From<NoMemory> for NextBookError {
    ghost from_gives = { λ _ e. e ≡ next.NoMemory };

    fn from(_: NoMemory) -> Self {
        NextBookError::NoMemory
    }
}

impl From<AllocError> for NextBookError {
    ghost from_gives = { λ _ e. e ≡ next.NoMemory };

    fn from(_: AllocError) -> Self {
        NextBookError::NoMemory
    }
}
