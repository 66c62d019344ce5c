// The rows of a table of either version, and the stream of their reports.
ghost use Rattle.std.specs.Prelude.{◌≡◌, ◌≤◌, ℕ, length, Err, IfOk};
ghost use Rattle.star_io.specs.RecordLists.{stream_of};
ghost use Rattle.report_frame.specs.Thresholds.{AreThresholds};
ghost use Rattle.report_frame.specs.Versions.{max_layers};
ghost use Rattle.client_table.specs.Table.{table_of, IsTable, IsBadTable, HasTooManyRows};
ghost use Rattle.star_tool.specs.Rows.{rows_of, version_of, frames_of, HaveWidth};

use client_table::{TableError, read_table, read_table2};
use nest_client::{make_text, make_text2};
use report_frame::{Table, Table2, Version};
use star_io::NoMemory;
use std::alloc::Global;

/// The rows of a table: of values, or in version 2 of values and extra bytes.
#[derive(Drop)]
pub(crate) enum Rows {
    One(Table),
    Two(Table2),
}

impl Rows {
    /// The rows of comma-separated text, each with `width` values.
    pub(crate) fn read(
        alloc: Global,
        version: Version,
        bytes: &[u8],
        width: usize,
    ) -> Result<Rows, TableError>
        requires some { 1 ≤ width }
        requires few { width ≤ max_layers version }
        ensures rows { IfOk result (λ rows. rows ≡ rows_of version width bytes.now) }
        ensures good { IfOk result (λ _. IsTable version width (table_of bytes.now)) }
        ensures width { IfOk result (HaveWidth width) }
        ensures too_many { result ≡ Err TableError.TooMany → HasTooManyRows (table_of bytes.now) }
        ensures bad { (row column : ℕ) → result ≡ Err (TableError.BadTable row column)
            → IsBadTable version width (table_of bytes.now) row column }
    {
        match version {
            Version::One => Ok(Rows::One(read_table(alloc, bytes, width)?)),
            Version::Two => Ok(Rows::Two(read_table2(alloc, bytes, width)?)),
        }
    }

    /// The stream of the rows' reports: a record for each, row i as client i.
    pub(crate) fn stream(
        &self,
        alloc: Global,
        thresholds: &[u16],
        epoch: u32,
        seed: &[u8; 32],
    ) -> Result<Vec<u8>, NoMemory>
        requires thresholds { AreThresholds (version_of self.now) thresholds.now }
        requires width { HaveWidth (length thresholds.now) self.now }
        ensures { IfOk result (λ text. text.items ≡
            stream_of (frames_of self.now thresholds.now epoch seed.now)) }
    {
        match self {
            Rows::One(table) => make_text(alloc, table, thresholds, epoch, seed),
            Rows::Two(table) => make_text2(alloc, table, thresholds, epoch, seed),
        }
    }
}
