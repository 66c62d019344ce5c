// Feeding a walk or a book with the records of a stream.
ghost use Rattle.std.specs.Prelude.{◌≡◌, ◌<◌, ◌≤◌, ℕ, List, [], Some, length, drop, IfOk, IsErrOf};
ghost use Rattle.star_io.specs.Faults.{Rose};
ghost use Rattle.star_io.specs.RecordLists.{stream_records, rest_after};
ghost use Rattle.star_io.specs.declared.record.TheConstants.{MAX_RECORDS};
ghost use Rattle.layer_walk.specs.Standing.{StandsFor};
ghost use Rattle.book_file.specs.BookOf.{book_of};

use book_file::RowBook;
use layer_walk::Walk;
use star_io::{InputError, Source, feed};
use std::alloc::Global;

/// The walk over all the records of a source, for an epoch.
///
/// `TooMany` if a byte follows as many records as the limit says: that byte is taken, and nothing
/// after it.
pub(crate) fn walk_over<S: Source>(
    alloc: Global,
    epoch: u32,
    input: &mut S,
    limit: u32,
) -> Result<Walk, InputError>
    ensures records { IfOk result (λ walk. (bytes : List ℕ) → S.left input.old ≡ Some bytes →
        ((walk.epoch ≡ epoch) × StandsFor walk (stream_records bytes))
        × (rest_after limit bytes ≡ []) × (S.left input.new ≡ Some [])) }
    ensures too_many { IsErrOf result InputError.TooMany →
        (bytes : List ℕ) → S.left input.old ≡ Some bytes →
        (0 < length (rest_after limit bytes))
        × (S.left input.new ≡ Some (drop 1 (rest_after limit bytes))) }
    ensures read { IsErrOf result InputError.Read →
        Rose (S.faults input.old) (S.faults input.new) }
    ensures later { S.faults input.old ≤ S.faults input.new }
{
    let mut walk = Walk::new(alloc, epoch);
    feed(alloc, input, limit, &mut walk)?;
    Ok(walk)
}

/// The book of all the records of a source, for an epoch.
///
/// `TooMany` is that of [`walk_over`].
pub(crate) fn book_over<S: Source>(
    alloc: Global,
    epoch: u32,
    input: &mut S,
    limit: u32,
) -> Result<RowBook, InputError>
    requires { limit ≤ MAX_RECORDS }
    ensures records { IfOk result (λ book. (bytes : List ℕ) → S.left input.old ≡ Some bytes →
        (book ≡ book_of epoch (stream_records bytes)) × (rest_after limit bytes ≡ [])
        × (S.left input.new ≡ Some [])) }
    ensures too_many { IsErrOf result InputError.TooMany →
        (bytes : List ℕ) → S.left input.old ≡ Some bytes →
        (0 < length (rest_after limit bytes))
        × (S.left input.new ≡ Some (drop 1 (rest_after limit bytes))) }
    ensures read { IsErrOf result InputError.Read →
        Rose (S.faults input.old) (S.faults input.new) }
    ensures later { S.faults input.old ≤ S.faults input.new }
{
    let mut book = RowBook::empty(alloc, epoch);
    feed(alloc, input, limit, &mut book)?;
    Ok(book)
}
