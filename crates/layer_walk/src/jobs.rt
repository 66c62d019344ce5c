// The groups of a level as jobs.
ghost use Rattle.std.specs.Prelude.{◌≤◌, length, IfOk, All, IfSome, slice_get};
ghost use Rattle.recovery_pool.specs.declared.limits.TheConstants.{MAX_JOBS, MAX_WORKERS};
ghost use Rattle.layer_walk.specs.Outs.{FitsLevel, IsOut};
ghost use Rattle.layer_walk.specs.Made.{AreOuts};

use crate::group::{GroupOut, open_group};
use crate::level::Level;
use recovery_pool::{Gate, Job, Ticket, run_jobs};
use star_io::NoMemory;
use std::alloc::Global;
use std::thread::Threads;
use tag_groups::Groups;

// Job i opens group i of the level.
#[derive(Drop)]
struct LevelJob<'a> {
    level: &'a Level,
    groups: &'a Groups,
    ghost fits: { All (FitsLevel level.now) groups.now },
}

impl<'a> Job for LevelJob<'a> {
    type Out = GroupOut;

    ghost jobs = { λ j. length j.groups.now };

    ghost answers = { λ j i out.
        IfSome (slice_get j.groups.now i) (λ group. IsOut j.level.now group out) };

    fn count(&self) -> u64 {
        self.groups.len() as u64
    }

    fn work(&self, alloc: Global, ticket: Ticket<'_>) -> Result<GroupOut, NoMemory> {
        let group = self.groups.get(ticket.number() as usize);
        open_group(alloc, self.level, group)
    }
}

/// What opening each group of the level gives, in the order of the groups. The groups are opened by
/// so many workers, group i as job i of the level's number.
pub(crate) fn outs_of<R: Threads + Sync, G: Gate>(
    rt: &R,
    alloc: Global,
    level: &Level,
    groups: &Groups,
    workers: u32,
    gate: &G,
) -> Result<Vec<GroupOut>, NoMemory>
    requires fits { All (FitsLevel level.now) groups.now }
    requires few { length groups.now ≤ MAX_JOBS }
    requires workers { (1 ≤ workers) × (workers ≤ MAX_WORKERS) }
    ensures { IfOk result (λ outs. AreOuts level.now groups.now outs.items) }
{
    let jobs = LevelJob { level, groups };
    run_jobs(rt, alloc, level.number, &jobs, workers, gate)
}
