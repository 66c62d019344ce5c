// The reveal of a list of records.
ghost use Rattle.std.specs.Prelude.{◌≡◌, ◌≤◌, ◌<◌, ◌^◌, length, IfOk};
ghost use Rattle.recovery_pool.specs.declared.limits.TheConstants.{MAX_WORKERS};
ghost use Rattle.layer_walk.specs.Reveal.{reveal_of};

use crate::outer::copy_record;
use crate::revealed::Revealed;
use crate::walk::Walk;
use recovery_pool::Gate;
use star_io::{NoMemory, Record};
use std::alloc::Global;
use std::thread::Threads;

/// What the records tell for the epoch. The groups of each level are opened by so many workers.
pub fn reveal<R: Threads + Sync, G: Gate>(
    rt: &R,
    alloc: Global,
    records: &[Record],
    epoch: u32,
    workers: u32,
    gate: &G,
) -> Result<Revealed, NoMemory>
    requires records { length records.now < 2 ^ 32 }
    requires workers { (1 ≤ workers) × (workers ≤ MAX_WORKERS) }
    ensures { IfOk result (λ told. told ≡ reveal_of epoch records.now) }
{
    let mut walk = Walk::new(alloc, epoch);
    for item in records {
        walk.take(copy_record(alloc, item)?)?;
    }
    walk.finish(rt, workers, gate)
}
