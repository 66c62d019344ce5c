// What is wrong with a field.
ghost use Rattle.std.specs.Prelude.{◌≡◌, ◌∷◌, [], not, nat_lt, List, ℕ, Option, None, Err, ◌≢◌, IfErr, OnOk};
ghost use Rattle.std.specs.Str.{bytes_eq};
ghost use Rattle.star_io.specs.declared.record.TheConstants.{MAX_RECORDS};
ghost use Rattle.book_file.specs.declared.book_kind.BookKind.TheVariants.{Magic, Version, Count};
ghost use Rattle.book_file.specs.Format.{Format, unless, count_fault, frame_fault};
ghost use Rattle.book_file.specs.Taking.{Stands, IsJudged, IsFault};

use crate::book::RowBook;
use crate::book_error::{BadBook, NextBookError};
use crate::book_kind::BookKind;
use crate::counts::is_outer_frame;
use crate::frame_bytes::FrameBytes;
use crate::limits::{BOOK_MAGIC, BOOK_VERSION};
use star_io::MAX_RECORDS;

/// The error of a fault.
pub(crate) fn bad(kind: BookKind, at: u64, used: u64) -> NextBookError
    ensures { result ≡ NextBookError.Bad (record { kind = kind; at = at; used = used }) }
{
    NextBookError::Bad(BadBook { kind, at, used })
}

/// Goes on behind a field with which nothing is wrong.
pub(crate) fn judge(wrong: Option<BookKind>, at: u64, end: u64) -> Result<(), NextBookError>
    ensures fine { (format : Format) (left : Option (List ℕ)) (bytes : List ℕ) →
        IsJudged wrong format at end left bytes →
        OnOk result (Stands format end left bytes) }
    ensures fault { (format : Format) (left : Option (List ℕ)) (bytes : List ℕ) →
        IsJudged wrong format at end left bytes →
        IfErr result (IsFault left bytes) }
    ensures judged { OnOk result (wrong ≡ None) }
    ensures unread { result ≢ Err NextBookError.Read }
{
    match wrong {
        None => Ok(()),
        Some(kind) => Err(bad(kind, at, end)),
    }
}

/// The first eight bytes are the magic.
pub(crate) fn magic_fault(magic: &[u8; 8]) -> Option<BookKind>
    ensures { result ≡ unless (bytes_eq magic.now BOOK_MAGIC) Magic }
{
    if *magic == BOOK_MAGIC {
        None
    } else {
        Some(BookKind::Magic)
    }
}

/// The version is the one that is read.
pub(crate) fn version_fault(version: &[u8; 1]) -> Option<BookKind>
    ensures { result ≡ unless (bytes_eq version.now (BOOK_VERSION ∷ [])) Version }
{
    if *version == [BOOK_VERSION] {
        None
    } else {
        Some(BookKind::Version)
    }
}

/// Not too many records were dropped.
pub(crate) fn dropped_fault(dropped: u32) -> Option<BookKind>
    ensures { result ≡ unless (not (nat_lt MAX_RECORDS dropped)) Count }
{
    if dropped > MAX_RECORDS {
        Some(BookKind::Count)
    } else {
        None
    }
}

/// A count is at least 1, and the total with it is in its limit.
pub(crate) fn count_fault(book: &RowBook, count: u32) -> Option<BookKind>
    ensures { result ≡ count_fault book.now count }
{
    if count == 0 || book.total() as usize + count as usize > MAX_RECORDS as usize {
        Some(BookKind::Count)
    } else {
        None
    }
}

/// The bytes are a good frame of the book's epoch and of level 0, and above the last one.
pub(crate) fn frame_fault(book: &RowBook, frame: &FrameBytes) -> Option<BookKind>
    ensures { result ≡ frame_fault book.now frame.now }
{
    if !is_outer_frame(frame.as_slice(), book.epoch()) {
        Some(BookKind::Frame)
    } else if !book.is_above(frame) {
        Some(BookKind::Order)
    } else {
        None
    }
}
