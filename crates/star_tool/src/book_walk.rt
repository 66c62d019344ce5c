// Feeding a walk with the records of a book.
ghost use Rattle.std.specs.Prelude.{◌≡◌, ◌+◌, ◌≤◌, ◌++◌, List, IfOk, OnOk, replicate};
ghost use Rattle.star_io.specs.declared.record.Record.{Record};
ghost use Rattle.star_io.specs.declared.record.Record.TheVariants.{Whole};
ghost use Rattle.star_io.specs.declared.record.TheConstants.{MAX_RECORDS};
ghost use Rattle.layer_walk.specs.Standing.{StandsFor};
ghost use Rattle.book_merge.specs.Records.{records_of};

use book_file::RowBook;
use layer_walk::Walk;
use star_io::{Bytes, NoMemory, Record};
use std::alloc::Global;

/// The walk over the records of a book, for its epoch. The list of them is not made.
pub(crate) fn walk_of(alloc: Global, book: &RowBook) -> Result<Walk, NoMemory>
    ensures epoch { IfOk result (λ walk. walk.epoch ≡ book.now.epoch) }
    ensures records { IfOk result (λ walk. StandsFor walk (records_of book.now)) }
{
    book.know();
    let mut walk = Walk::new(alloc, book.epoch());
    for (frame, count) in book.iter() {
        take_often(alloc, &mut walk, frame.as_slice(), *count)?;
    }
    Ok(walk)
}

// Takes a frame as a whole record, so often.
fn take_often(alloc: Global, walk: &mut Walk, frame: &[u8], count: u32) -> Result<(), NoMemory>
    requires { walk.old.taken + count ≤ MAX_RECORDS }
    ensures epoch { walk.new.epoch ≡ walk.old.epoch }
    ensures taken { OnOk result (walk.new.taken ≡ walk.old.taken + count) }
    ensures records { OnOk result ((records : List Record) → StandsFor walk.old records →
        StandsFor walk.new (records ++ replicate count (Whole frame.now))) }
{
    for _ in 0..count {
        walk.take(Record::Whole(Bytes::of(alloc, frame)?))?;
    }
    Ok(())
}
