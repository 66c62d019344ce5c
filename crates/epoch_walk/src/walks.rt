// The walks of the epochs, in the order of their epochs.
ghost use Rattle.std.specs.Prelude.{◌≡◌, ◌≢◌, ◌<◌, ◌-◌, ◌^◌, ◌++◌, ◌∷◌, [], ℕ, List, OnOk, OnErr};
ghost use Rattle.std.specs.Ordering.{nat_cmp};
ghost use Rattle.std.specs.Option.{ForSome};
ghost use Rattle.std.specs.BTreeMap.{get, IsOrdered, IsUnchanged};
ghost use Rattle.star_io.specs.declared.record.Record.{Record};
ghost use Rattle.epoch_walk.specs.Standing.{StandsAt};

use layer_walk::Walk;
use star_io::{NoMemory, Record};
use std::alloc::Global;
use std::collections::BTreeMap;

/// Hands the record to the walk of this epoch, which begins here if there is none. After `NoMemory`
/// all is as before.
pub(crate) fn hand(
    alloc: Global,
    walks: &mut BTreeMap<u32, Walk>,
    epoch: u32,
    item: Record,
) -> Result<(), NoMemory>
    requires { ForSome (get nat_cmp walks.old epoch) (λ walk. walk.taken < 2 ^ 32 - 1) }
    ensures here { OnOk result ((records : List Record) →
        StandsAt epoch (get nat_cmp walks.old epoch) records →
        StandsAt epoch (get nat_cmp walks.new epoch) (records ++ item ∷ [])) }
    ensures elsewhere { OnOk result ((other : ℕ) → other ≢ epoch →
        get nat_cmp walks.new other ≡ get nat_cmp walks.old other) }
    ensures ordered { IsOrdered nat_cmp walks.new }
    ensures kept { OnErr result (IsUnchanged walks.old walks.new) }
{
    if let Some(walk) = walks.get_mut(&epoch) {
        return walk.take(item);
    }
    let mut walk = Walk::new(alloc, epoch);
    walk.take(item)?;
    walks.insert(epoch, walk)?;
    Ok(())
}
