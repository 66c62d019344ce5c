// Reading a stream of records to its end.
ghost use Rattle.std.specs.Prelude.{◌≡◌, ◌<◌, ◌≤◌, ◌+◌, ◌++◌, ℕ, List, [], None, Some, length, drop, true, false, IfOk, OnOk, IsErrOf};
ghost use Rattle.star_io.specs.declared.record.Record.{Record};
ghost use Rattle.star_io.specs.Faults.{Rose, HasCause};
ghost use Rattle.star_io.specs.Reading.{TakesRecord};
ghost use Rattle.star_io.specs.RecordLists.{stream_records, rest_after};

use crate::failed::Failed;
use crate::input_error::InputError;
use crate::reader::{ReaderState, RecordReader};
use crate::record::Record;
use crate::source::Source;
use crate::taker::RecordTaker;
use std::alloc::Global;

/// All the records of a source.
///
/// `TooMany` is that of [`feed`].
pub fn read_records<S: Source>(
    alloc: Global,
    input: &mut S,
    limit: u32,
) -> Result<Vec<Record>, InputError>
    ensures records { IfOk result (λ records. (bytes : List ℕ) → S.left input.old ≡ Some bytes →
        (records.items ≡ stream_records bytes) × (rest_after limit bytes ≡ [])
        × (S.left input.new ≡ Some [])) }
    ensures few { IfOk result (λ records. length records.items ≤ limit) }
    ensures too_many { IsErrOf result InputError.TooMany →
        (bytes : List ℕ) → S.left input.old ≡ Some bytes →
        (0 < length (rest_after limit bytes))
        × (S.left input.new ≡ Some (drop 1 (rest_after limit bytes))) }
    ensures read { IsErrOf result InputError.Read →
        Rose (S.faults input.old) (S.faults input.new) }
    ensures later { S.faults input.old ≤ S.faults input.new }
{
    let mut records = Vec::new(alloc);
    feed(alloc, input, limit, &mut records)?;
    Ok(records)
}

/// Feeds the taker with all the records of a source. Each is taken as it comes, and no list of them
/// is kept.
///
/// `TooMany` if a byte follows as many records as the limit says: that byte is taken, and nothing
/// after it.
pub fn feed<S: Source, T: RecordTaker>(
    alloc: Global,
    input: &mut S,
    limit: u32,
    taker: &mut T,
) -> Result<(), InputError>
    requires { T.taken taker.old + limit ≤ T.most }
    ensures records { OnOk result ((bytes : List ℕ) → S.left input.old ≡ Some bytes →
        ((epoch : ℕ) (before : List Record) → T.stands taker.old epoch before →
        T.stands taker.new epoch (before ++ stream_records bytes))
        × (rest_after limit bytes ≡ []) × (S.left input.new ≡ Some [])) }
    ensures few { OnOk result (T.taken taker.new ≤ T.taken taker.old + limit) }
    ensures too_many { IsErrOf result InputError.TooMany →
        (bytes : List ℕ) → S.left input.old ≡ Some bytes →
        (0 < length (rest_after limit bytes))
        × (S.left input.new ≡ Some (drop 1 (rest_after limit bytes))) }
    ensures read { IsErrOf result InputError.Read →
        Rose (S.faults input.old) (S.faults input.new) }
    ensures later { S.faults input.old ≤ S.faults input.new }
{
    let mut reader = RecordReader::new();
    for _ in 0..limit {
        match reader.next(alloc, input)? {
            Some(found) => taker.take_next(found)?,
            None => return Ok(()),
        }
    }
    if reader.state() == ReaderState::Ended || is_at_end(input)? {
        return Ok(());
    }
    Err(InputError::TooMany)
}

// Whether no byte is left. One that is left is taken.
fn is_at_end<S: Source>(input: &mut S) -> Result<bool, Failed>
    ensures end { IfOk result (λ at_end. at_end ≡ true →
        TakesRecord (S.left input.old) (S.left input.new) None) }
    ensures more { IfOk result (λ at_end. at_end ≡ false →
        (bytes : List ℕ) → S.left input.old ≡ Some bytes →
        (0 < length bytes) × (S.left input.new ≡ Some (drop 1 bytes))) }
    ensures cause { HasCause (S.faults input.old) (S.faults input.new) result }
{
    let mut next = [0];
    let count = input.take(&mut next)?;
    Ok(count == 0)
}
