// The heads of the reports of a table.
ghost use Rattle.std.specs.Prelude.{◌≡◌, ◌<◌, ◌≤◌, ◌↔◌, ℕ, [], length, get_or, slice_index, IsTrue, IfOk};
ghost use Rattle.nest_client.specs.declared.limits.TheConstants.{MAX_REPORTS};
ghost use Rattle.table_law.specs.Marks.{derived_at, HeadsDiffer};

use crate::firsts::first_place;
use adss_commit::{Derived, box_value};
use report_frame::{Head, Table, Version};
use star_io::NoMemory;
use std::alloc::Global;
use std::collections::BTreeMap;

/// A head, and the first row that begins with the same values before it.
#[derive(Drop, PartialEq, Eq, PartialOrd, Ord)]
pub(crate) struct HeadMark {
    pub(crate) before: u32,
    pub(crate) head: Head,
}

/// Whether no two rows that begin with the same values before this layer, and with different ones
/// in it, have the same head in it. `firsts` has the first rows that begin with the same values
/// before it, and `longer` those that begin with the same ones up to it.
pub(crate) fn heads_differ(
    alloc: Global,
    table: &Table,
    thresholds: &[u16],
    epoch: u32,
    layer: usize,
    firsts: &[u32],
    longer: &[u32],
    derived: &[Derived],
) -> Result<bool, NoMemory>
    requires layer { layer < length thresholds.now }
    requires width { (i : ℕ) → i < length table.now → layer < length (get_or table.now i []) }
    requires few { length table.now ≤ MAX_REPORTS }
    requires firsts { length firsts.now ≡ length table.now }
    requires longer { length longer.now ≡ length table.now }
    requires derived { derived.now ≡ derived_at epoch thresholds.now layer table.now }
    ensures { IfOk result (λ differ. IsTrue differ ↔
        HeadsDiffer epoch thresholds.now layer table.now firsts.now longer.now) }
{
    let mut places = BTreeMap::new(alloc);
    'rows: for i in 0..table.len() {
        if longer[i] as usize == i {
            let one = derived[i];
            let mark = HeadMark {
                before: firsts[i],
                head: Head {
                    version: Version::One,
                    k: thresholds[layer],
                    tag: one.tag,
                    check: one.check,
                    boxed: box_value(Version::One, &one.key, &table.row(i)[layer]),
                },
            };
            if first_place(&mut places, mark, i as u32)? != i as u32 {
                return Ok(false);
            }
        }
    }
    Ok(true)
}
