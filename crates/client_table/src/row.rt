// The row that a record is.
ghost use Rattle.std.specs.Prelude.{◌≡◌, ◌<◌, ◌≤◌, ◌+◌, ℕ, true, false, take, Err, IsSome, IsNone, IfSome, IfOk};
ghost use Rattle.csv.specs.Records.{field_at, fields_of};
ghost use Rattle.report_frame.specs.declared.version.Version.{Version};
ghost use Rattle.report_frame.specs.declared.version.Version.TheVariants.{One, Two};
ghost use Rattle.report_frame.specs.Versions.{max_layers};
ghost use Rattle.client_table.specs.Table.{is_bad_at, row2_of, IsRow, IsFirstBad};

use csv::ByteRecord;
use report_frame::{Extra, Value};
use std::alloc::{AllocError, AllocFailed, Global};

// Why a record gives no row.
#[derive(Debug, Drop)]
pub(crate) enum RowError {
    // It is bad, and this is the first column at which it is.
    BadAt(usize),
    NoMemory,
}

impl From<AllocError> for RowError {
    ghost use Rattle.std.specs.Prelude.{◌≡◌};
    ghost use Rattle.client_table.specs.declared.row.RowError.TheVariants as row_error;

    ghost from_gives = { λ _ e. e ≡ row_error.NoMemory };

    fn from(_: AllocError) -> RowError {
        RowError::NoMemory
    }
}

impl<T: Drop> From<AllocFailed<T>> for RowError {
    ghost use Rattle.std.specs.Prelude.{◌≡◌};
    ghost use Rattle.client_table.specs.declared.row.RowError.TheVariants as row_error;

    ghost from_gives = { λ _ e. e ≡ row_error.NoMemory };

    fn from(_: AllocFailed<T>) -> RowError {
        RowError::NoMemory
    }
}

// The cells of a record as values.
pub(crate) fn row_of(
    alloc: Global,
    cells: &ByteRecord,
    width: usize,
) -> Result<Vec<Value>, RowError>
    requires { width ≤ max_layers One }
    ensures cells { IfOk result (λ values. values.items ≡ fields_of cells.now) }
    ensures good { IfOk result (λ values. IsRow One width (fields_of cells.now)) }
    ensures bad { (column : ℕ) → result ≡ Err (RowError.BadAt column)
        → IsFirstBad One width (fields_of cells.now) column }
    ensures low { (column : ℕ) → result ≡ Err (RowError.BadAt column) → column ≤ width }
{
    let values = values_of(alloc, cells, width)?;
    if cells.get(width).is_some() {
        return Err(RowError::BadAt(width));
    }
    Ok(values)
}

// The cells of a record as values and extra bytes.
pub(crate) fn row2_of(
    alloc: Global,
    cells: &ByteRecord,
    width: usize,
) -> Result<(Vec<Value>, Extra), RowError>
    requires { width ≤ max_layers Two }
    ensures cells { IfOk result (λ row. (row.0.items, row.1)
        ≡ row2_of width (fields_of cells.now)) }
    ensures good { IfOk result (λ row. IsRow Two width (fields_of cells.now)) }
    ensures bad { (column : ℕ) → result ≡ Err (RowError.BadAt column)
        → IsFirstBad Two width (fields_of cells.now) column }
    ensures low { (column : ℕ) → result ≡ Err (RowError.BadAt column) → column ≤ width + 1 }
{
    let values = values_of(alloc, cells, width)?;
    let Some(extra) = extra_at(cells, width) else {
        return Err(RowError::BadAt(width));
    };
    if cells.get(width + 1).is_some() {
        return Err(RowError::BadAt(width + 1));
    }
    Ok((values, extra))
}

// The first cells of a record as values. An error names the first of their columns at which the
// record is bad.
fn values_of(alloc: Global, cells: &ByteRecord, width: usize) -> Result<Vec<Value>, RowError>
    ensures cells { IfOk result (λ values. values.items ≡ take width (fields_of cells.now)) }
    ensures good { IfOk result (λ values. (version : Version) (k : ℕ) → k < width
        → is_bad_at version width (fields_of cells.now) k ≡ false) }
    ensures bad { (column : ℕ) → result ≡ Err (RowError.BadAt column) → (version : Version)
        → IsFirstBad version width (fields_of cells.now) column }
    ensures low { (column : ℕ) → result ≡ Err (RowError.BadAt column) → column < width }
{
    let mut row = Vec::with_capacity(alloc, width)?;
    'columns: for column in 0..width {
        let Some(value) = value_at(cells, column) else {
            return Err(RowError::BadAt(column));
        };
        row.push(value)?;
    }
    Ok(row)
}

// The cell at a column as a value, if there is one of 1 to 64 bytes.
fn value_at(cells: &ByteRecord, column: usize) -> Option<Value>
    ensures value { IfSome result (λ value. field_at (fields_of cells.now) column ≡ Some value) }
    ensures good { IsSome result → (version : Version) (width : ℕ) → column < width
        → is_bad_at version width (fields_of cells.now) column ≡ false }
    ensures bad { IsNone result → (version : Version) (width : ℕ) → column < width
        → is_bad_at version width (fields_of cells.now) column ≡ true }
{
    Value::of(cells.get(column)?)
}

// The cell at a column as extra bytes, if there is one of at most 255 bytes.
fn extra_at(cells: &ByteRecord, column: usize) -> Option<Extra>
    ensures extra { IfSome result (λ extra. field_at (fields_of cells.now) column ≡ Some extra) }
    ensures good { IsSome result → is_bad_at Two column (fields_of cells.now) column ≡ false }
    ensures bad { IsNone result → is_bad_at Two column (fields_of cells.now) column ≡ true }
{
    Extra::of(cells.get(column)?)
}
