// The records that a book stands for.
ghost use Rattle.std.specs.Prelude.{◌≡◌, ◌++◌, IfOk, OnOk, replicate};
ghost use Rattle.star_io.specs.declared.record.Record.TheVariants.{Whole};
ghost use Rattle.book_merge.specs.Records.{records_of};

use book_file::RowBook;
use star_io::{Bytes, NoMemory, Record};
use std::alloc::Global;
use tag_groups::Listed;

/// A list of records, as those of a book, in its order.
pub type BookRecords = Listed<Record>;

/// The records of a book: each frame as a whole record, as often as its count, in the book's order.
pub fn records_of(alloc: Global, book: &RowBook) -> Result<BookRecords, NoMemory>
    ensures { IfOk result (λ records. records ≡ records_of book.now) }
{
    let mut records = BookRecords::new(alloc);
    for (frame, count) in book.iter() {
        push_often(alloc, &mut records, frame.as_slice(), *count)?;
    }
    Ok(records)
}

// Puts a frame as a whole record last, so often.
fn push_often(
    alloc: Global,
    records: &mut BookRecords,
    frame: &[u8],
    count: u32,
) -> Result<(), NoMemory>
    ensures { OnOk result (records.new ≡ records.old ++ replicate count (Whole frame.now)) }
{
    for _ in 0..count {
        records.push(Record::Whole(Bytes::of(alloc, frame)?))?;
    }
    Ok(())
}
