// Whether the reports of a table conflict with each other.
ghost use Rattle.std.specs.Prelude.{◌≡◌, ◌<◌, ◌≤◌, ◌↔◌, ℕ, [], length, get_or, IsTrue, IfOk};
ghost use Rattle.report_frame.specs.Thresholds.{AreThresholds};
ghost use Rattle.report_frame.specs.declared.version.Version.TheVariants.{One};
ghost use Rattle.nest_client.specs.declared.limits.TheConstants.{MAX_REPORTS};
ghost use Rattle.table_law.specs.Clear.{Clear, is_clear};

use crate::derived::{checks_of, derived_at, no_checks};
use crate::fronts::longer_fronts;
use crate::heads::heads_differ;
use crate::points::{points_differ, points_of};
use report_frame::Table;
use star_io::NoMemory;
use std::alloc::Global;

/// Whether the reports of a table keep clear of each other, row i as client i in version 1: rows
/// that begin with the same values have different points in the layer of the last of these, and
/// rows that differ first in one layer have different heads there.
pub fn is_clear(
    alloc: Global,
    table: &Table,
    thresholds: &[u16],
    epoch: u32,
    seed: &[u8; 32],
) -> Result<bool, NoMemory>
    requires thresholds { AreThresholds One thresholds.now }
    requires width { (i : ℕ) → i < length table.now → length (get_or table.now i [])
        ≡ length thresholds.now }
    requires few { length table.now ≤ MAX_REPORTS }
    ensures clear { IfOk result (λ clear. IsTrue clear
        ↔ Clear table.now thresholds.now epoch seed.now) }
    ensures test { IfOk result (λ clear. clear ≡ is_clear table.now thresholds.now epoch seed.now) }
{
    each_layer_is_clear(alloc, table, thresholds, epoch, seed)
}

// The same, by the relation alone.
fn each_layer_is_clear(
    alloc: Global,
    table: &Table,
    thresholds: &[u16],
    epoch: u32,
    seed: &[u8; 32],
) -> Result<bool, NoMemory>
    requires thresholds { AreThresholds One thresholds.now }
    requires width { (i : ℕ) → i < length table.now → length (get_or table.now i [])
        ≡ length thresholds.now }
    requires few { length table.now ≤ MAX_REPORTS }
    ensures { IfOk result (λ clear. IsTrue clear ↔ Clear table.now thresholds.now epoch seed.now) }
{
    let points = points_of(alloc, table.len(), thresholds.len(), seed)?;
    let mut firsts = vec![in alloc; 0u32; table.len()]?;
    let mut checks = no_checks(alloc, table.len())?;
    'layers: for layer in 0..thresholds.len() {
        let longer = longer_fronts(alloc, table, layer, &firsts)?;
        if !points_differ(alloc, &points, layer, &longer)? {
            return Ok(false);
        }
        let derived = derived_at(alloc, table, thresholds, epoch, layer, &checks, &longer)?;
        if !heads_differ(
            alloc, table, thresholds, epoch, layer, &firsts, &longer, &derived,
        )? {
            return Ok(false);
        }
        checks = checks_of(alloc, &derived)?;
        firsts = longer;
    }
    Ok(true)
}
