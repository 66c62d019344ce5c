// One record of a stream: its length, and then its bytes.
ghost use Rattle.std.specs.Prelude.{◌≡◌, ◌<◌, ◌≤◌, IfOk, IsErrOf};
ghost use Rattle.std.specs.Int.{w32, to_be_bytes};
ghost use Rattle.star_io.specs.Faults.{Rose};
ghost use Rattle.star_io.specs.Reading.{TakesRecord, Continues};

use crate::bytes::Bytes;
use crate::filling::{fill, skip};
use crate::reader::NextError;
use crate::record::{MAX_RECORD_BYTES, Record};
use crate::source::Source;
use std::alloc::Global;

// The next record, or none at the end.
pub(crate) fn read_record<S: Source>(
    alloc: Global,
    source: &mut S,
) -> Result<Option<Record>, NextError>
    ensures next { IfOk result (TakesRecord (S.left source.old) (S.left source.new)) }
    ensures read { IsErrOf result NextError.Read →
        Rose (S.faults source.old) (S.faults source.new) }
    ensures later { S.faults source.old ≤ S.faults source.new }
{
    let mut length = [0u8; 4];
    let have = fill(source, &mut length)?;
    if have == 0 {
        return Ok(None);
    }
    if have < 4 {
        return Ok(Some(Record::CutLength { have: have as u32 }));
    }
    let said = said_by(&length);
    let record = read_body(alloc, source, said)?;
    Ok(Some(record))
}

// The length that four bytes spell.
fn said_by(bytes: &[u8; 4]) -> u32
    ensures { to_be_bytes w32 result ≡ bytes.now }
{
    u32::from_be_bytes(*bytes)
}

// The record whose length was read.
fn read_body<S: Source>(alloc: Global, source: &mut S, said: u32) -> Result<Record, NextError>
    ensures next { IfOk result (Continues said (S.left source.old) (S.left source.new)) }
    ensures read { IsErrOf result NextError.Read →
        Rose (S.faults source.old) (S.faults source.new) }
    ensures later { S.faults source.old ≤ S.faults source.new }
{
    if said > MAX_RECORD_BYTES {
        drop_body(source, said)
    } else {
        keep_body(alloc, source, said)
    }
}

// The same of a record that is kept.
fn keep_body<S: Source>(alloc: Global, source: &mut S, said: u32) -> Result<Record, NextError>
    requires { said ≤ MAX_RECORD_BYTES }
    ensures next { IfOk result (Continues said (S.left source.old) (S.left source.new)) }
    ensures read { IsErrOf result NextError.Read →
        Rose (S.faults source.old) (S.faults source.new) }
    ensures later { S.faults source.old ≤ S.faults source.new }
{
    let mut body = vec![in alloc; 0u8; said as usize]?;
    let have = fill(source, body.as_mut_slice())?;
    if have < said as usize {
        return Ok(Record::CutRecord {
            said,
            have: have as u32,
        });
    }
    Ok(Record::Whole(Bytes::from_vec(body)))
}

// The same of a record that is too long.
fn drop_body<S: Source>(source: &mut S, said: u32) -> Result<Record, NextError>
    requires { MAX_RECORD_BYTES < said }
    ensures next { IfOk result (Continues said (S.left source.old) (S.left source.new)) }
    ensures read { IsErrOf result NextError.Read →
        Rose (S.faults source.old) (S.faults source.new) }
    ensures later { S.faults source.old ≤ S.faults source.new }
{
    let have = skip(source, said)?;
    if have < said {
        return Ok(Record::CutRecord { said, have });
    }
    Ok(Record::TooLong { said })
}
