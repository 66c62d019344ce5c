// The sum of books that stand one behind the other.
ghost use Rattle.std.specs.Prelude.{◌≡◌, ◌≤◌, ◌<◌, ◌+◌, ◌^◌, ℕ, List, [], Some, length, drop, IfOk, IfErr, IsErrOf};
ghost use Rattle.star_io.specs.Faults.{Rose, HasCause};
ghost use Rattle.book_merge.specs.declared.fault.MergeFault.TheVariants.{TooMany};
ghost use Rattle.book_merge.specs.Merging.{HasFault, IsAnswer, IsSum, fault_with, sum_with};

use crate::draining::ends_within;
use crate::fault::{MergeError, MergeFault};
use crate::limits::{MAX_BOOKS, MAX_BOOKS_BYTES};
use book_file::{BadBook, NextBookError, RowBook, absorb, next_book};
use star_io::{Failed, MAX_RECORDS, NoMemory, Source};
use std::alloc::Global;

/// The sum of the books of an epoch that an input has, one behind the other. No book gives the
/// empty one.
///
/// Their sum and one book are held at a time. What is wrong with a book is kept, and told once the
/// input was read to its end, or to a byte behind the first 1,074,549,760: so a failed read and too
/// many bytes come before it. Of what is wrong with books the first is told.
pub fn read_sum<S: Source>(alloc: Global, epoch: u32, input: &mut S) -> Result<RowBook, MergeError>
    ensures sum { IfOk result (IsSum epoch (S.left input.old) (S.left input.new)) }
    ensures epoch { IfOk result (λ sum. sum.epoch ≡ epoch) }
    ensures fault { IfErr result (HasFault epoch (S.left input.old) (S.left input.new)) }

    // A read is said to have failed only where the source counted it.
    ensures read { IsErrOf result MergeError.Read →
        Rose (S.faults input.old) (S.faults input.new) }
    ensures later { S.faults input.old ≤ S.faults input.new }
{
    let mut so_far = Ok(RowBook::empty(alloc, epoch));
    let mut room = MAX_BOOKS_BYTES;
    for number in 0..MAX_BOOKS {
        match next_book(alloc, input) {
            Ok(Some(found)) => {
                if room < found.used {
                    return Err(MergeError::Fault(MergeFault::TooMany));
                }
                room -= found.used;
                so_far = with_book(so_far, number, &found.book)?;
            }
            Ok(None) => return answer_of(so_far),
            Err(NextBookError::Bad(bad)) => {
                if room < bad.used {
                    return Err(MergeError::Fault(MergeFault::TooMany));
                }
                let fault = fault_with(so_far, number, &bad);
                return Err(MergeError::Fault(told_at_the_end(input, room - bad.used, fault)?));
            }
            Err(NextBookError::Read) => return Err(MergeError::Read),
            Err(NextBookError::NoMemory) => return Err(MergeError::NoMemory),
        }
    }
    Err(MergeError::Fault(MergeFault::TooMany))
}

// The sum with one book more, which has this number. The first fault stays.
fn with_book(
    so_far: Result<RowBook, MergeFault>,
    number: u32,
    book: &RowBook,
) -> Result<Result<RowBook, MergeFault>, NoMemory>
    ensures { IfOk result (λ next. next ≡ sum_with number so_far book.now) }
{
    let mut sum = match so_far {
        Ok(sum) => sum,
        Err(fault) => return Ok(Err(fault)),
    };
    let have = book.epoch();
    if have != sum.epoch() {
        return Ok(Err(MergeFault::BookEpoch { book: number, have }));
    }
    sum.know();
    book.know();
    if sum.total() + book.total() > MAX_RECORDS {
        return Ok(Err(MergeFault::TooMany));
    }
    absorb(&mut sum, book)?;
    Ok(Ok(sum))
}

// The first fault where the bytes behind so many books are bad.
fn fault_with(so_far: Result<RowBook, MergeFault>, number: u32, bad: &BadBook) -> MergeFault
    ensures { result ≡ fault_with number so_far bad.now }
{
    match so_far {
        Ok(_) => MergeFault::BadBook {
            book: number,
            kind: bad.kind,
            at: bad.at,
        },
        Err(fault) => fault,
    }
}

// The fault, told once the input was read to its end, if at most `room` bytes are left. Else there
// are too many.
fn told_at_the_end<S: Source>(
    input: &mut S,
    room: u64,
    fault: MergeFault,
) -> Result<MergeFault, Failed>
    requires { room < 2 ^ 63 }
    ensures end { IfOk result (λ told. (bytes : List ℕ) → S.left input.old ≡ Some bytes →
        length bytes ≤ room → (told ≡ fault) × (S.left input.new ≡ Some [])) }
    ensures more { IfOk result (λ told. (bytes : List ℕ) → S.left input.old ≡ Some bytes →
        room < length bytes → (told ≡ TooMany)
        × (S.left input.new ≡ Some (drop (room + 1) bytes))) }
    ensures cause { HasCause (S.faults input.old) (S.faults input.new) result }
{
    if ends_within(input, room)? {
        Ok(fault)
    } else {
        Ok(MergeFault::TooMany)
    }
}

// The sum, or why there is none.
fn answer_of(so_far: Result<RowBook, MergeFault>) -> Result<RowBook, MergeError>
    ensures { IsAnswer so_far result }
{
    so_far.map_err(MergeError::Fault)
}
