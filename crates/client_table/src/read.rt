// A table of values out of the bytes of a text.
ghost use Rattle.std.specs.Prelude.{◌≡◌, ◌<◌, ◌≤◌, ◌⊎◌, ◌+◌, ℕ, [], length, get_or, Err, IfOk, IsOk};
ghost use Rattle.report_frame.specs.declared.limits.TheConstants.{MAX_LAYERS};
ghost use Rattle.report_frame.specs.declared.version.Version.TheVariants.{One};
ghost use Rattle.report_frame.specs.Versions.{max_layers};
ghost use Rattle.client_table.specs.Table.{table_of, IsTable, IsBadTable, HasTooManyRows};
ghost use Rattle.client_table.specs.Left.{left, IsBetweenRecords};
ghost use Rattle.client_table.specs.Answer.{IsAnswer, IsRefusal};

use crate::records::{are_more_than, next_record, records_of};
use crate::row::{RowError, row_of};
use csv::{ByteRecord, Reader};
use report_frame::Table;
use star_io::NoMemory;
use std::alloc::Global;

/// The most rows of a table.
pub const MAX_ROWS: usize = 65536;

/// Why bytes are no table.
#[derive(Clone, Copy, Debug, PartialEq, Eq)]
pub enum TableError {
    /// There are more records than rows that a table may have.
    TooMany,
    /// The first record that is bad at some column, and the first column at which it is. Both
    /// count from 0.
    BadTable { row: u32, column: u32 },
    NoMemory,
}

impl From<NoMemory> for TableError {
    ghost use Rattle.std.specs.Prelude.{◌≡◌};
    ghost use Rattle.client_table.specs.declared.read.TableError.TheVariants as table_error;

    ghost from_gives = { λ _ e. e ≡ table_error.NoMemory };

    fn from(_: NoMemory) -> TableError {
        TableError::NoMemory
    }
}

/// The table of version 1 whose rows are the records of comma-separated text, each with `width`
/// cells of 1 to 64 bytes.
///
/// Each error of the reader of `csv` is returned as `NoMemory`, whatever caused it.
pub fn read_table(alloc: Global, bytes: &[u8], width: usize) -> Result<Table, TableError>
    requires some { 1 ≤ width }
    requires few { width ≤ max_layers One }
    ensures table { IfOk result (λ table. table ≡ table_of bytes.now) }
    ensures good { IfOk result (λ table. IsTable One width (table_of bytes.now)) }
    ensures width { IfOk result (λ table.
        (i : ℕ) → i < length table → length (get_or table i []) ≡ width) }
    ensures rows { IfOk result (λ table. length table ≤ MAX_ROWS) }
    ensures good_found { IsTable One width (table_of bytes.now)
        → IsOk result ⊎ (result ≡ Err TableError.NoMemory) }
    ensures too_many { result ≡ Err TableError.TooMany → HasTooManyRows (table_of bytes.now) }
    ensures too_many_found { HasTooManyRows (table_of bytes.now)
        → (result ≡ Err TableError.TooMany) ⊎ (result ≡ Err TableError.NoMemory) }
    ensures bad { (row column : ℕ) → result ≡ Err (TableError.BadTable row column)
        → IsBadTable One width (table_of bytes.now) row column }
    ensures bad_found { (row column : ℕ) → IsBadTable One width (table_of bytes.now) row column
        → (result ≡ Err (TableError.BadTable row column)) ⊎ (result ≡ Err TableError.NoMemory) }
{
    let mut records = records_of(alloc, bytes);
    read_rows(alloc, &mut records, width)
}

// The table of the records that are left.
fn read_rows(alloc: Global, records: &mut Reader<&[u8]>, width: usize) -> Result<Table, TableError>
    requires few { width ≤ max_layers One }
    requires between { IsBetweenRecords records.old }
    ensures { IsAnswer One width (left records.old) (left records.old) result }
{
    let mut record = ByteRecord::new(alloc);
    let mut table = Table::new(alloc);
    'rows: for row in 0..MAX_ROWS {
        if !next_record(records, &mut record)? {
            return Ok(table);
        }
        match row_of(alloc, &record, width) {
            Ok(row) => table.push_row(row)?,
            Err(RowError::BadAt(column)) => {
                return Err(refusal(records, &mut record, row, column));
            }
            Err(RowError::NoMemory) => return Err(TableError::NoMemory),
        }
    }
    if next_record(records, &mut record)? {
        return Err(TableError::TooMany);
    }
    Ok(table)
}

// Why there is no table, if this is the first bad place and its record was just taken.
pub(crate) fn refusal(
    records: &mut Reader<&[u8]>,
    record: &mut ByteRecord,
    row: usize,
    column: usize,
) -> TableError
    requires row { row < MAX_ROWS }
    requires column { column ≤ MAX_LAYERS + 1 }
    requires between { IsBetweenRecords records.old }
    ensures { IsRefusal row column (length (left records.old)) result }
{
    match are_more_than(records, record, MAX_ROWS - 1 - row) {
        Ok(true) => TableError::TooMany,
        Ok(false) => TableError::BadTable {
            row: row as u32,
            column: column as u32,
        },
        Err(NoMemory) => TableError::NoMemory,
    }
}
