// Reading a book from a source, entry by entry.
ghost use Rattle.std.specs.Prelude.{◌≡◌, ◌≤◌, ◌<◌, ◌+◌, ◌^◌, ℕ, suc, List, [], Option, Some, IfOk, IfErr, IsErrOf, true, false};
ghost use Rattle.star_io.specs.Faults.{Rose};
ghost use Rattle.book_file.specs.declared.book_kind.BookKind.{BookKind};
ghost use Rattle.book_file.specs.declared.limits.TheConstants.{HEADER_BYTES};
ghost use Rattle.book_file.specs.Format.{Format, header_format, entries_format};
ghost use Rattle.book_file.specs.Format.Format.{Field};
ghost use Rattle.book_file.specs.Reading.{TakesBook};
ghost use Rattle.book_file.specs.Taking.{Stands, IsJudged, IsFault};

use crate::book::RowBook;
use crate::book_error::{NextBookError, ReadBook};
use crate::book_kind::BookKind;
use crate::faults::{
    bad, count_fault, dropped_fault, frame_fault, judge, magic_fault, version_fault,
};
use crate::frame_bytes::FrameBytes;
use crate::limits::HEADER_BYTES;
use star_io::{Source, fill};
use std::alloc::Global;

/// Takes the next book from a source, or answers `None` at the end. It holds the book and one entry
/// of it at a time.
///
/// A book is taken whole, however the source cuts its bytes, and nothing after it. Of bytes that
/// don't begin with one nothing behind the faulty field is taken. What is left where a read fails
/// or memory runs out is not said.
pub fn next_book<S: Source>(
    alloc: Global,
    source: &mut S,
) -> Result<Option<ReadBook>, NextBookError>
    ensures next { (bytes : List ℕ) → S.left source.old ≡ Some bytes →
        TakesBook bytes (S.left source.new) result }

    // A read is said to have failed only where the source counted it.
    ensures read { IsErrOf result NextBookError.Read →
        Rose (S.faults source.old) (S.faults source.new) }
    ensures later { S.faults source.old ≤ S.faults source.new }
{
    let more = read_magic(source)?;
    if !more {
        return Ok(None);
    }
    let (mut book, number) = read_header(alloc, source)?;
    let mut at = HEADER_BYTES as u64;
    for _done in 0..number {
        at = read_entry(alloc, source, &mut book, at)?;
    }
    Ok(Some(ReadBook { book, used: at }))
}

// Takes the magic, or says that nothing is left.
fn read_magic<S: Source>(source: &mut S) -> Result<bool, NextBookError>
    ensures next { (bytes : List ℕ) → S.left source.old ≡ Some bytes →
        IfOk result (λ more. more ≡ true → Stands header_format 8 (S.left source.new) bytes) }
    ensures end { (bytes : List ℕ) → S.left source.old ≡ Some bytes →
        IfOk result (λ more. more ≡ false → (bytes ≡ []) × (S.left source.new ≡ Some [])) }
    ensures fault { (bytes : List ℕ) → S.left source.old ≡ Some bytes →
        IfErr result (IsFault (S.left source.new) bytes) }
    ensures read { IsErrOf result NextBookError.Read →
        Rose (S.faults source.old) (S.faults source.new) }
    ensures later { S.faults source.old ≤ S.faults source.new }
{
    let mut magic = [0u8; 8];
    let have = fill(source, &mut magic)?;
    if have == 0 {
        return Ok(false);
    }
    if have < 8 {
        return Err(bad(BookKind::Truncated, 0, have as u64));
    }
    judge(magic_fault(&magic), 0, 8)?;
    Ok(true)
}

// Takes a field of a fixed size at this place.
fn read_field<const N: usize, S: Source>(source: &mut S, at: u64) -> Result<[u8; N], NextBookError>
    requires { at + N < 2 ^ 64 }
    ensures next { (bytes : List ℕ) (fault : List ℕ → Option BookKind) (next : List ℕ → Format) →
        Stands (Field N fault next) at (S.left source.old) bytes →
        IfOk result (λ field. IsJudged (fault field) (next field) at (at + N) (S.left source.new)
        bytes) }
    ensures fault { (bytes : List ℕ) (fault : List ℕ → Option BookKind) (next : List ℕ → Format) →
        Stands (Field N fault next) at (S.left source.old) bytes →
        IfErr result (IsFault (S.left source.new) bytes) }
    ensures read { IsErrOf result NextBookError.Read →
        Rose (S.faults source.old) (S.faults source.new) }
    ensures later { S.faults source.old ≤ S.faults source.new }
{
    let mut field = [0u8; N];
    let have = fill(source, &mut field)?;
    if have < N {
        return Err(bad(BookKind::Truncated, at, at + have as u64));
    }
    Ok(field)
}

// Takes a field of so many bytes at this place.
fn read_bytes<S: Source>(
    alloc: Global,
    source: &mut S,
    size: usize,
    at: u64,
) -> Result<Vec<u8>, NextBookError>
    requires { at + size < 2 ^ 64 }
    ensures next { (bytes : List ℕ) (fault : List ℕ → Option BookKind) (next : List ℕ → Format) →
        Stands (Field size fault next) at (S.left source.old) bytes →
        IfOk result (λ field. IsJudged (fault field.items) (next field.items) at (at + size)
        (S.left source.new) bytes) }
    ensures fault { (bytes : List ℕ) (fault : List ℕ → Option BookKind) (next : List ℕ → Format) →
        Stands (Field size fault next) at (S.left source.old) bytes →
        IfErr result (IsFault (S.left source.new) bytes) }
    ensures read { IsErrOf result NextBookError.Read →
        Rose (S.faults source.old) (S.faults source.new) }
    ensures later { S.faults source.old ≤ S.faults source.new }
{
    let mut field = vec![in alloc; 0u8; size]?;
    let have = fill(source, field.as_mut_slice())?;
    if have < size {
        return Err(bad(BookKind::Truncated, at, at + have as u64));
    }
    Ok(field)
}

// Takes what stands between the magic and the entries: the book with no entries, and their number.
fn read_header<S: Source>(alloc: Global, source: &mut S) -> Result<(RowBook, u32), NextBookError>
    ensures next { (bytes : List ℕ) → Stands header_format 8 (S.left source.old) bytes →
        IfOk result (λ found. Stands (entries_format found.1 found.0) HEADER_BYTES
        (S.left source.new) bytes) }
    ensures fault { (bytes : List ℕ) → Stands header_format 8 (S.left source.old) bytes →
        IfErr result (IsFault (S.left source.new) bytes) }
    ensures read { IsErrOf result NextBookError.Read →
        Rose (S.faults source.old) (S.faults source.new) }
    ensures later { S.faults source.old ≤ S.faults source.new }
{
    let version: [u8; 1] = read_field(source, 8)?;
    judge(version_fault(&version), 8, 9)?;
    let epoch: [u8; 4] = read_field(source, 9)?;
    let epoch = u32::from_be_bytes(epoch);
    let dropped: [u8; 4] = read_field(source, 13)?;
    let dropped = u32::from_be_bytes(dropped);
    judge(dropped_fault(dropped), 13, 17)?;
    let number: [u8; 4] = read_field(source, 17)?;
    let number = u32::from_be_bytes(number);
    Ok((RowBook::of_dropped(alloc, epoch, dropped), number))
}

// Takes one entry, puts it last, and says where it ends.
fn read_entry<S: Source>(
    alloc: Global,
    source: &mut S,
    book: &mut RowBook,
    at: u64,
) -> Result<u64, NextBookError>
    requires { at + 65541 < 2 ^ 64 }
    ensures next { (bytes : List ℕ) (n : ℕ) →
        Stands (entries_format (suc n) book.old) at (S.left source.old) bytes →
        IfOk result (λ end. Stands (entries_format n book.new) end (S.left source.new) bytes) }
    ensures fault { (bytes : List ℕ) (n : ℕ) →
        Stands (entries_format (suc n) book.old) at (S.left source.old) bytes →
        IfErr result (IsFault (S.left source.new) bytes) }
    ensures end { IfOk result (λ end. end ≤ at + 65541) }
    ensures read { IsErrOf result NextBookError.Read →
        Rose (S.faults source.old) (S.faults source.new) }
    ensures later { S.faults source.old ≤ S.faults source.new }
{
    let count: [u8; 4] = read_field(source, at)?;
    let count = u32::from_be_bytes(count);
    judge(count_fault(book, count), at, at + 4)?;
    let size: [u8; 2] = read_field(source, at + 4)?;
    let size = u16::from_be_bytes(size);
    let frame = read_bytes(alloc, source, usize::from(size), at + 6)?;
    let frame = FrameBytes::from_vec(frame);
    let end = at + 6 + u64::from(size);
    judge(frame_fault(book, &frame), at + 6, end)?;
    book.push(frame, count)?;
    Ok(end)
}
