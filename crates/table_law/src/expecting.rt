// What the stream of a table reveals.
ghost use Rattle.std.specs.Prelude.{◌≡◌, ◌<◌, ◌≤◌, ℕ, [], length, get_or, IfOk};
ghost use Rattle.report_frame.specs.Thresholds.{AreThresholds};
ghost use Rattle.report_frame.specs.declared.version.Version.TheVariants.{One};
ghost use Rattle.layer_walk.specs.Reveal.{reveal_of};
ghost use Rattle.nest_client.specs.Stream.{table_records};
ghost use Rattle.nest_client.specs.declared.limits.TheConstants.{MAX_REPORTS};
ghost use Rattle.table_law.specs.Prefixes.{prefixes};
ghost use Rattle.table_law.specs.Clear.{Clear};
ghost use Rattle.table_law.specs.Reveals.{RevealsOnly};

use crate::prefixes::prefixes_by_length;
use crate::sorted::sorted_by_path;
use layer_walk::OpenedGroups;
use report_frame::Table;
use star_io::NoMemory;
use std::alloc::Global;

/// The prefixes of a table, in the order of their paths: each list of values with which a row
/// begins, if for each of its fronts at least as many rows begin with it as the threshold of that
/// layer says.
///
/// If the table is clear, they are the groups that the stream of its reports, row i as client i
/// in version 1, reveals; nothing is refused then, and no group is without a line or has a bad
/// value.
pub fn expected(
    alloc: Global,
    table: &Table,
    thresholds: &[u16],
    epoch: u32,
    seed: &[u8; 32],
) -> Result<OpenedGroups, NoMemory>
    requires thresholds { AreThresholds One thresholds.now }
    requires width { (i : ℕ) → i < length table.now → length (get_or table.now i [])
        ≡ length thresholds.now }
    requires few { length table.now ≤ MAX_REPORTS }
    ensures prefixes { IfOk result (λ groups. groups ≡ prefixes table.now thresholds.now) }
    ensures reveals { IfOk result (λ groups. Clear table.now thresholds.now epoch seed.now →
        RevealsOnly groups (reveal_of epoch
        (table_records table.now thresholds.now epoch seed.now))) }
{
    let groups = prefixes_by_length(alloc, table, thresholds)?;
    Ok(OpenedGroups::from_vec(sorted_by_path(groups)?))
}
