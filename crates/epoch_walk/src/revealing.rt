// What the walks of the epochs reveal.
ghost use Rattle.std.specs.Prelude.{◌≡◌, ◌≤◌, List, map, All, IfOk};
ghost use Rattle.std.specs.BTreeMap.{keys};
ghost use Rattle.star_io.specs.declared.record.Record.{Record};
ghost use Rattle.recovery_pool.specs.declared.limits.TheConstants.{MAX_WORKERS};
ghost use Rattle.epoch_walk.specs.Parts.{part};
ghost use Rattle.epoch_walk.specs.Epochs.{part_told};
ghost use Rattle.epoch_walk.specs.Standing.{StandsForPart};

use crate::part::{EpochPart, EpochParts};
use layer_walk::Walk;
use recovery_pool::Gate;
use star_io::NoMemory;
use std::alloc::Global;
use std::collections::BTreeMap;
use std::thread::Threads;

/// What the records of each epoch reveal, one epoch after the other. The groups of each level are
/// opened by so many workers.
pub(crate) fn parts_of<R: Threads + Sync, G: Gate>(
    rt: &R,
    alloc: Global,
    walks: BTreeMap<u32, Walk>,
    workers: u32,
    gate: &G,
) -> Result<EpochParts, NoMemory>
    requires { (1 ≤ workers) × (workers ≤ MAX_WORKERS) }
    ensures { (records : List Record) → All (StandsForPart records) walks.entries →
        IfOk result (λ parts. parts ≡ map (λ e. part_told e (part records e)) (keys walks)) }
{
    let mut parts = EpochParts::new(alloc);
    for (epoch, walk) in walks {
        let reveal = walk.finish(rt, workers, gate)?;
        parts.push(EpochPart { epoch, reveal })?;
    }
    Ok(parts)
}
