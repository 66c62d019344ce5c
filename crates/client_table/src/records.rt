// The records of a text, one after the other.
ghost use Rattle.std.specs.Prelude.{◌≡◌, ◌<◌, ◌∷◌, ◌↔◌, [], length, true, IfOk, MatchBool, IsTrue};
ghost use Rattle.csv.specs.Records.{fields_of};
ghost use Rattle.client_table.specs.Table.{table_of};
ghost use Rattle.client_table.specs.Left.{left, IsBetweenRecords};

use csv::{ByteRecord, Reader, ReaderBuilder};
use star_io::NoMemory;
use std::alloc::Global;

// A reader of the records of a text: comma, double quotes, no header row, any number of cells.
pub(crate) fn records_of(alloc: Global, bytes: &[u8]) -> Reader<&[u8]>
    ensures left { left result ≡ table_of bytes.now }
    ensures between { IsBetweenRecords result }
{
    ReaderBuilder::new()
        .has_headers(false)
        .flexible(true)
        .from_reader(alloc, bytes)
}

// Takes the next record, and returns whether there was one. Each error of the reader counts as
// lack of memory.
pub(crate) fn next_record(
    records: &mut Reader<&[u8]>,
    into: &mut ByteRecord,
) -> Result<bool, NoMemory>
    requires { IsBetweenRecords records.old }
    ensures next { IfOk result (λ found. MatchBool found
        (left records.old ≡ fields_of into.new ∷ left records.new)
        (left records.old ≡ [])) }
    ensures between { IfOk result (λ found. found ≡ true → IsBetweenRecords records.new) }
{
    let Ok(found) = records.read_byte_record(into) else {
        return Err(NoMemory);
    };
    Ok(found)
}

// Whether more than n records are left. It takes as many of them as that needs.
pub(crate) fn are_more_than(
    records: &mut Reader<&[u8]>,
    into: &mut ByteRecord,
    n: usize,
) -> Result<bool, NoMemory>
    requires { IsBetweenRecords records.old }
    ensures { IfOk result (λ more. IsTrue more ↔ (n < length (left records.old))) }
{
    'taken: for taken in 0..n {
        if !next_record(records, into)? {
            return Ok(false);
        }
    }
    next_record(records, into)
}
