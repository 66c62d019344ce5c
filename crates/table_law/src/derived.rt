// What is derived from the contexts of a layer.
ghost use Rattle.std.specs.Prelude.{◌≡◌, ◌<◌, ◌≤◌, ◌+◌, ℕ, [], length, get_or, map, replicate, slice_index, IfOk};
ghost use Rattle.report_frame.specs.declared.limits.TheConstants.{CHECK_BYTES};
ghost use Rattle.report_frame.specs.Thresholds.{AreThresholds};
ghost use Rattle.report_frame.specs.declared.version.Version.TheVariants.{One};
ghost use Rattle.adss_commit.specs.declared.context.Derived.{Derived};
ghost use Rattle.nest_client.specs.declared.limits.TheConstants.{MAX_REPORTS};
ghost use Rattle.table_law.specs.Fronts.{firsts_of};
ghost use Rattle.table_law.specs.Marks.{checks_before, derived_at};

use adss_commit::{Context, Derived, derive};
use report_frame::{CHECK_BYTES, Table, Version};
use star_io::NoMemory;
use std::alloc::Global;

/// What is derived from each row's context of a layer, by the checks of the layer before. It is
/// derived once for all rows that begin with the same values.
pub(crate) fn derived_at(
    alloc: Global,
    table: &Table,
    thresholds: &[u16],
    epoch: u32,
    layer: usize,
    checks: &[[u8; CHECK_BYTES]],
    firsts: &[u32],
) -> Result<Vec<Derived>, NoMemory>
    requires thresholds { AreThresholds One thresholds.now }
    requires layer { layer < length thresholds.now }
    requires width { (i : ℕ) → i < length table.now → layer < length (get_or table.now i []) }
    requires few { length table.now ≤ MAX_REPORTS }
    requires checks { checks.now ≡ checks_before epoch thresholds.now layer table.now }
    requires firsts { firsts.now ≡ firsts_of table.now (layer + 1) }
    ensures { IfOk result (λ derived. derived.items
        ≡ derived_at epoch thresholds.now layer table.now) }
{
    let mut derived = Vec::new(alloc);
    'rows: for i in 0..table.len() {
        let first = firsts[i] as usize;
        if first == i {
            derived.push(derive(&Context {
                version: Version::One,
                parent: checks[i],
                epoch,
                level: layer as u8,
                k: thresholds[layer],
                value: table.row(i)[layer].copy(),
            }))?;
        } else {
            derived.push(derived[first])?;
        }
    }
    Ok(derived)
}

/// The checks of these.
pub(crate) fn checks_of(
    alloc: Global,
    derived: &[Derived],
) -> Result<Vec<[u8; CHECK_BYTES]>, NoMemory>
    ensures { IfOk result (λ checks. checks.items ≡ map (λ (d : Derived). d.check) derived.now) }
{
    let mut checks = Vec::with_capacity(alloc, derived.len())?;
    for one in derived {
        checks.push(one.check)?;
    }
    Ok(checks)
}

/// The checks before layer 0, which are zeros.
pub(crate) fn no_checks(alloc: Global, rows: usize) -> Result<Vec<[u8; CHECK_BYTES]>, NoMemory>
    ensures { IfOk result (λ checks. checks.items ≡ replicate rows (replicate CHECK_BYTES 0)) }
{
    let mut checks = Vec::new(alloc);
    'rows: for _i in 0..rows {
        checks.push([0; CHECK_BYTES])?;
    }
    Ok(checks)
}
