// A table of values and extra bytes out of the bytes of a text.
ghost use Rattle.std.specs.Prelude.{◌≡◌, ◌<◌, ◌≤◌, ◌⊎◌, ℕ, [], length, get_or, map, Err, IfOk, IsOk};
ghost use Rattle.report_frame.specs.declared.version.Version.TheVariants.{Two};
ghost use Rattle.report_frame.specs.Versions.{max_layers};
ghost use Rattle.client_table.specs.Table.{table_of, table2_of, row2_of, IsTable, IsBadTable, HasTooManyRows};
ghost use Rattle.client_table.specs.Left.{left, IsBetweenRecords};
ghost use Rattle.client_table.specs.Answer.{IsAnswer};

use crate::read::{MAX_ROWS, TableError, refusal};
use crate::records::{next_record, records_of};
use crate::row::{RowError, row2_of};
use csv::{ByteRecord, Reader};
use report_frame::Table2;
use std::alloc::Global;

/// The table of version 2 whose rows are the records of comma-separated text, each with `width`
/// cells of 1 to 64 bytes, followed by one of 0 to 255 extra bytes.
///
/// Each error of the reader of `csv` is returned as `NoMemory`, whatever caused it.
pub fn read_table2(alloc: Global, bytes: &[u8], width: usize) -> Result<Table2, TableError>
    requires some { 1 ≤ width }
    requires few { width ≤ max_layers Two }
    ensures table { IfOk result (λ table. table ≡ table2_of width bytes.now) }
    ensures good { IfOk result (λ table. IsTable Two width (table_of bytes.now)) }
    ensures width { IfOk result (λ table.
        (i : ℕ) → i < length table → length (get_or table i ([], [])).0 ≡ width) }
    ensures rows { IfOk result (λ table. length table ≤ MAX_ROWS) }
    ensures good_found { IsTable Two width (table_of bytes.now)
        → IsOk result ⊎ (result ≡ Err TableError.NoMemory) }
    ensures too_many { result ≡ Err TableError.TooMany → HasTooManyRows (table_of bytes.now) }
    ensures too_many_found { HasTooManyRows (table_of bytes.now)
        → (result ≡ Err TableError.TooMany) ⊎ (result ≡ Err TableError.NoMemory) }
    ensures bad { (row column : ℕ) → result ≡ Err (TableError.BadTable row column)
        → IsBadTable Two width (table_of bytes.now) row column }
    ensures bad_found { (row column : ℕ) → IsBadTable Two width (table_of bytes.now) row column
        → (result ≡ Err (TableError.BadTable row column)) ⊎ (result ≡ Err TableError.NoMemory) }
{
    let mut records = records_of(alloc, bytes);
    read_rows2(alloc, &mut records, width)
}

// The table of the records that are left.
fn read_rows2(
    alloc: Global,
    records: &mut Reader<&[u8]>,
    width: usize,
) -> Result<Table2, TableError>
    requires few { width ≤ max_layers Two }
    requires between { IsBetweenRecords records.old }
    ensures { IsAnswer Two width (left records.old) (map (row2_of width) (left records.old)) result }
{
    let mut record = ByteRecord::new(alloc);
    let mut table = Table2::new(alloc);
    'rows: for row in 0..MAX_ROWS {
        if !next_record(records, &mut record)? {
            return Ok(table);
        }
        match row2_of(alloc, &record, width) {
            Ok((values, extra)) => table.push_row(values, extra)?,
            Err(RowError::BadAt(column)) => {
                return Err(refusal(records, &mut record, row, column));
            }
            Err(RowError::NoMemory) => return Err(TableError::NoMemory),
        }
    }
    if next_record(records, &mut record)? {
        return Err(TableError::TooMany);
    }
    Ok(table)
}
