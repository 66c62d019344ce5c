// The prefixes of a table, layer by layer.
ghost use Rattle.std.specs.Prelude.{◌≡◌, ◌<◌, ◌≤◌, ◌+◌, ◌++◌, ◌&&◌, nat_le, ℕ, suc, [], length, get_or, slice_index, IfOk, OnOk};
ghost use Rattle.report_frame.specs.Thresholds.{AreThresholds};
ghost use Rattle.report_frame.specs.declared.version.Version.TheVariants.{One};
ghost use Rattle.star_lists.specs.Numbered.{joined_below};
ghost use Rattle.layer_walk.specs.declared.path.TheConstants.{MAX_STEPS};
ghost use Rattle.nest_client.specs.declared.limits.TheConstants.{MAX_REPORTS};
ghost use Rattle.table_law.specs.Prefixes.{path_to, prefixes_of};
ghost use Rattle.table_law.specs.Fronts.{firsts_of, opens_of, AreCounts};
ghost use Rattle.table_law.specs.Reveals.{IsTableOf};

use crate::counts::counts_of;
use crate::fronts::longer_fronts;
use layer_walk::{OpenedGroup, Path, Step};
use report_frame::{Table, Value, Version};
use star_io::NoMemory;
use std::alloc::Global;

/// The prefixes of one value, of two and so on, each length in the order of the rows.
pub(crate) fn prefixes_by_length(
    alloc: Global,
    table: &Table,
    thresholds: &[u16],
) -> Result<Vec<OpenedGroup>, NoMemory>
    requires thresholds { AreThresholds One thresholds.now }
    requires width { (i : ℕ) → i < length table.now → length (get_or table.now i [])
        ≡ length thresholds.now }
    requires few { length table.now ≤ MAX_REPORTS }
    ensures groups { IfOk result (λ groups. groups.items ≡
        joined_below (λ l. prefixes_of table.now thresholds.now (suc l)) (length thresholds.now)) }
    ensures values { IfOk result (λ _. IsTableOf thresholds.now table.now) }
{
    let mut groups = Vec::new(alloc);
    let mut firsts = vec![in alloc; 0u32; table.len()]?;
    let mut opens = vec![in alloc; true; table.len()]?;
    'layers: for layer in 0..thresholds.len() {
        firsts = longer_fronts(alloc, table, layer, &firsts)?;
        let counts = counts_of(alloc, &firsts)?;
        opens = opens_after(alloc, table, thresholds, layer, &firsts, &counts, &opens)?;
        push_prefixes(
            &mut groups,
            table,
            thresholds,
            layer + 1,
            &firsts,
            &counts,
            &opens,
        )?;
    }
    Ok(groups)
}

// For each row whether its first `layer + 1` values are open, by whether its first `layer` values
// are.
fn opens_after(
    alloc: Global,
    table: &Table,
    thresholds: &[u16],
    layer: usize,
    firsts: &[u32],
    counts: &[u32],
    opens: &[bool],
) -> Result<Vec<bool>, NoMemory>
    requires layer { layer < length thresholds.now }
    requires few { length table.now ≤ MAX_REPORTS }
    requires firsts { firsts.now ≡ firsts_of table.now (layer + 1) }
    requires counts { AreCounts firsts.now counts.now }
    requires opens { opens.now ≡ opens_of table.now thresholds.now layer }
    ensures { IfOk result (λ longer. longer.items ≡ opens_of table.now thresholds.now (layer + 1)) }
{
    let threshold = u32::from(thresholds[layer]);
    let mut longer = Vec::new(alloc);
    'rows: for i in 0..table.len() {
        let rows = counts[firsts[i] as usize];
        longer.push(is_open(opens[i], threshold, rows))?;
    }
    Ok(longer)
}

// Whether a prefix is open: the one that is a value shorter is, and enough rows begin with it.
fn is_open(shorter: bool, threshold: u32, rows: u32) -> bool
    ensures { result ≡ (shorter && nat_le threshold rows) }
{
    shorter && threshold <= rows
}

// Puts the open prefixes of so many values last, each at the first row that begins with it.
fn push_prefixes(
    groups: &mut Vec<OpenedGroup>,
    table: &Table,
    thresholds: &[u16],
    layers: usize,
    firsts: &[u32],
    counts: &[u32],
    opens: &[bool],
) -> Result<(), NoMemory>
    requires deep { layers ≤ length thresholds.now }
    requires short { length thresholds.now ≤ MAX_STEPS }
    requires few { length table.now ≤ MAX_REPORTS }
    requires width { (i : ℕ) → i < length table.now → length (get_or table.now i [])
        ≡ length thresholds.now }
    requires firsts { firsts.now ≡ firsts_of table.now layers }
    requires counts { AreCounts firsts.now counts.now }
    requires opens { opens.now ≡ opens_of table.now thresholds.now layers }
    ensures { OnOk result (groups.new.items
        ≡ groups.old.items ++ prefixes_of table.now thresholds.now layers) }
{
    'rows: for i in 0..table.len() {
        if firsts[i] as usize == i && opens[i] {
            groups.push(OpenedGroup {
                path: path_to(table.row(i), thresholds, layers),
                points: counts[i],
                agree: counts[i],
                members: counts[i],
            })?;
        }
    }
    Ok(())
}

// The path of the first values of a row.
fn path_to(row: &[Value], thresholds: &[u16], layers: usize) -> Path
    requires values { layers ≤ length row.now }
    requires thresholds { layers ≤ length thresholds.now }
    requires few { layers ≤ MAX_STEPS }
    ensures { result ≡ path_to thresholds.now layers row.now }
{
    let mut path = Path::new();
    'layers: for layer in 0..layers {
        path.push(Step {
            value: row[layer].copy(),
            k: thresholds[layer],
            version: Version::One,
        });
    }
    path
}
