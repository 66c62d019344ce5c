//! Partial books: what one aggregator received for an epoch, as one canonical file.
//!
//! A [`RowBook`] has each frame of its epoch and of level 0 with the number of records that were
//! it, and the number of the other records. Books are added, in any order and any grouping, and the
//! sum is the book of all records together. Each book has one spelling ([`RowBook::to_bytes`]);
//! [`read_book`] reads it back, and [`next_book`] reads books from a source, one after the other.
#![tactic(auto)]

mod absorbing;
mod book;
mod book_error;
mod book_kind;
mod counts;
mod faults;
mod frame_bytes;
mod from_bytes;
mod from_source;
pub mod laws;
mod limits;
mod slice_source;
mod spell;

pub use absorbing::absorb;
pub use book::RowBook;
pub use book_error::{BadBook, BookError, NextBookError, ReadBook};
pub use book_kind::BookKind;
pub use frame_bytes::FrameBytes;
pub use from_bytes::read_book;
pub use from_source::next_book;
pub use limits::{BOOK_MAGIC, BOOK_VERSION, ENTRY_HEAD_BYTES, HEADER_BYTES};
