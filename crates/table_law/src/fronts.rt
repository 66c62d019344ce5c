// The rows of a table by the values with which they begin.
ghost use Rattle.std.specs.Prelude.{◌≡◌, ◌<◌, ◌≤◌, ◌+◌, ℕ, [], length, get_or, All, IfOk};
ghost use Rattle.nest_client.specs.declared.limits.TheConstants.{MAX_REPORTS};
ghost use Rattle.table_law.specs.Prefixes.{value_at};
ghost use Rattle.table_law.specs.Fronts.{firsts_of};
ghost use Rattle.table_law.specs.Reveals.{IsValue};

use crate::firsts::first_place;
use report_frame::{Table, Value};
use star_io::NoMemory;
use std::alloc::Global;
use std::collections::BTreeMap;

/// The first row that begins with the same values as a row, and the value after them.
#[derive(Drop, PartialEq, Eq, PartialOrd, Ord)]
pub(crate) struct Front {
    pub(crate) before: u32,
    pub(crate) value: Value,
}

/// For each row the first one that begins with the same `layer + 1` values, by those that begin
/// with the same `layer` values.
pub(crate) fn longer_fronts(
    alloc: Global,
    table: &Table,
    layer: usize,
    firsts: &[u32],
) -> Result<Vec<u32>, NoMemory>
    requires firsts { firsts.now ≡ firsts_of table.now layer }
    requires width { (i : ℕ) → i < length table.now → layer < length (get_or table.now i []) }
    requires few { length table.now ≤ MAX_REPORTS }
    ensures firsts { IfOk result (λ longer. longer.items ≡ firsts_of table.now (layer + 1)) }
    ensures values { IfOk result (λ _. (i : ℕ) → i < length table.now →
        IsValue (value_at (get_or table.now i []) layer)) }
{
    let mut places = BTreeMap::new(alloc);
    let mut longer = Vec::new(alloc);
    'rows: for i in 0..table.len() {
        let value = &table.row(i)[layer];
        // This makes known how long the value is.
        let _bytes = value.as_slice();
        let front = Front {
            before: firsts[i],
            value: value.copy(),
        };
        let place = first_place(&mut places, front, i as u32)?;
        longer.push(place)?;
    }
    Ok(longer)
}
