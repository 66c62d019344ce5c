// Adding one book to another.
ghost use Rattle.std.specs.Prelude.{◌≡◌, ◌≤◌, ◌+◌, List, All, sum, take, OnOk, OnErr};
ghost use Rattle.std.specs.List.Sorted.{IsStrictlySortedBy};
ghost use Rattle.std.specs.Map.{keys_of, values_of};
ghost use Rattle.star_io.specs.declared.record.TheConstants.{MAX_RECORDS};
ghost use Rattle.book_file.specs.Book.{Entry, by_bytes, total_of};
ghost use Rattle.book_file.specs.BookOf.{sum_of, entries_sum};

use crate::book::RowBook;
use crate::counts::{count_fewer, count_more};
use crate::frame_bytes::FrameBytes;
use star_io::{MAX_RECORDS, NoMemory};
use std::alloc::Global;
use std::collections::BTreeMap;

/// Adds the counts and the dropped records of another book of the epoch. After `NoMemory` the book
/// is as before.
pub fn absorb(into: &mut RowBook, other: &RowBook) -> Result<(), NoMemory>
    requires epoch { into.old.epoch ≡ other.now.epoch }
    requires few { total_of into.old + total_of other.now ≤ MAX_RECORDS }
    ensures sum { OnOk result (into.new ≡ sum_of into.old other.now) }
    ensures total { OnOk result (total_of into.new ≡ total_of into.old + total_of other.now) }
    ensures kept { OnErr result (into.new ≡ into.old) }
{
    add_all(into.alloc, &mut into.entries, &other.entries)?;
    into.dropped += other.dropped;
    into.total += other.total;
    Ok(())
}

// Adds the counts of all entries. After `NoMemory` all is as before.
fn add_all(
    alloc: Global,
    into: &mut BTreeMap<FrameBytes, u32>,
    other: &BTreeMap<FrameBytes, u32>,
) -> Result<(), NoMemory>
    requires few { sum (values_of into.old.entries) + sum (values_of other.now.entries)
        ≤ MAX_RECORDS }
    requires ascending { IsStrictlySortedBy by_bytes (keys_of into.old.entries) }
    requires counts { All (λ n. 1 ≤ n) (values_of into.old.entries) }
    requires other_counts { All (λ n. 1 ≤ n) (values_of other.now.entries) }
    ensures sum { OnOk result (into.new.entries ≡ entries_sum into.old.entries other.now.entries) }
    ensures total { OnOk result (sum (values_of into.new.entries)
        ≡ sum (values_of into.old.entries) + sum (values_of other.now.entries)) }
    ensures kept { OnErr result (into.new.entries ≡ into.old.entries) }
{
    let mut done = 0;
    for (frame, count) in other.iter() {
        match count_more(alloc, into, frame.as_slice(), *count) {
            Ok(()) => done += 1,
            Err(NoMemory) => {
                take_back(into, other, done);
                return Err(NoMemory);
            }
        }
    }
    Ok(())
}

// Takes the counts of the first entries back.
fn take_back(into: &mut BTreeMap<FrameBytes, u32>, other: &BTreeMap<FrameBytes, u32>, done: usize)
    requires { All (λ n. 1 ≤ n) (values_of other.now.entries) }
    ensures { (before : List Entry) → IsStrictlySortedBy by_bytes (keys_of before) →
        All (λ n. 1 ≤ n) (values_of before) →
        into.old.entries ≡ entries_sum before (take done other.now.entries) →
        into.new.entries ≡ before }
{
    let mut left = done;
    for (frame, count) in other.iter() {
        if left == 0 {
            return;
        }
        left -= 1;
        count_fewer(into, frame, *count);
    }
}
