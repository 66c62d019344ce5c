// Streams of reports.
ghost use Rattle.std.specs.Prelude.{◌≡◌, ◌≤◌, ◌<◌, ◌++◌, [], ◌∷◌, ◌^◌, ℕ, List, length, get_or, IfOk, OnOk};
ghost use Rattle.star_io.specs.RecordLists.{record_bytes, stream_of};
ghost use Rattle.star_io.specs.Records.{AreRecords};
ghost use Rattle.star_io.specs.declared.record.TheConstants.{MAX_RECORD_BYTES};
ghost use Rattle.report_frame.specs.declared.version.Version.TheVariants.{One, Two};
ghost use Rattle.report_frame.specs.Thresholds.{AreThresholds};
ghost use Rattle.nest_client.specs.declared.limits.TheConstants.{MAX_REPORTS};
ghost use Rattle.nest_client.specs.Stream.{table_frames, table_records, table2_frames, table2_records};

use crate::reports::{build, build2};
use report_frame::{Table, Table2};
use star_io::NoMemory;
use std::alloc::Global;

/// The stream of the rows' reports of version 1: a record for each, row i as client i.
pub fn make_text(
    alloc: Global,
    table: &Table,
    thresholds: &[u16],
    epoch: u32,
    seed: &[u8; 32],
) -> Result<Vec<u8>, NoMemory>
    requires thresholds { AreThresholds One thresholds.now }
    requires width { (i : ℕ) → i < length table.now → length (get_or table.now i [])
        ≡ length thresholds.now }
    requires few { length table.now ≤ MAX_REPORTS }
    ensures stream { IfOk result (λ v. v.items
        ≡ stream_of (table_frames table.now thresholds.now epoch seed.now)) }
    ensures records { IfOk result (λ v.
        AreRecords (table_records table.now thresholds.now epoch seed.now) v.items) }
{
    let mut text = Vec::new(alloc);
    'rows: for i in 0..table.len() {
        let report = build(alloc, table.row(i), thresholds, epoch, seed, i as u32)?;
        push_record(&mut text, &report)?;
    }
    Ok(text)
}

/// The stream of the rows' reports of version 2: a record for each, row i as client i.
pub fn make_text2(
    alloc: Global,
    table: &Table2,
    thresholds: &[u16],
    epoch: u32,
    seed: &[u8; 32],
) -> Result<Vec<u8>, NoMemory>
    requires thresholds { AreThresholds Two thresholds.now }
    requires width { (i : ℕ) → i < length table.now → length (get_or table.now i ([], [])).0
        ≡ length thresholds.now }
    requires few { length table.now ≤ MAX_REPORTS }
    ensures stream { IfOk result (λ v. v.items
        ≡ stream_of (table2_frames table.now thresholds.now epoch seed.now)) }
    ensures records { IfOk result (λ v.
        AreRecords (table2_records table.now thresholds.now epoch seed.now) v.items) }
{
    let mut text = Vec::new(alloc);
    'rows: for i in 0..table.len() {
        let extra = table.extra(i);
        let report = build2(
            alloc,
            table.row(i),
            thresholds,
            epoch,
            extra,
            seed,
            i as u32,
        )?;
        push_record(&mut text, &report)?;
    }
    Ok(text)
}

/// Puts a record with these bytes last.
pub(crate) fn push_record(text: &mut Vec<u8>, bytes: &[u8]) -> Result<(), NoMemory>
    requires { length bytes.now ≤ MAX_RECORD_BYTES }
    ensures { OnOk result (text.new.items ≡ text.old.items ++ record_bytes bytes.now) }
{
    text.extend_from_slice(&(bytes.len() as u32).to_be_bytes())?;
    text.extend_from_slice(bytes)?;
    Ok(())
}
