// From level to level.
ghost use Rattle.std.specs.Prelude.{◌≡◌, ◌≤◌, ◌++◌, IfOk};
ghost use Rattle.report_frame.specs.declared.limits.TheConstants.{MAX_LAYERS, MAX_LEVEL_TWO};
ghost use Rattle.recovery_pool.specs.declared.limits.TheConstants.{MAX_WORKERS};
ghost use Rattle.tag_groups.specs.Grouped.{groups_of};
ghost use Rattle.layer_walk.specs.Made.{named, AreOuts, IsAfter, IsLevel};
ghost use Rattle.layer_walk.specs.Reveal.{groups_told, levels_told, refusals_told, aux_told};
ghost use Rattle.layer_walk.specs.Told.{TellsLevel};

use crate::group::GroupOut;
use crate::grouped::{GroupedLevel, grouper_after, with_groups};
use crate::held::{Children, Held, append, held_by};
use crate::jobs::outs_of;
use crate::refusal::Refusals;
use crate::revealed::LevelCounts;
use crate::sorts::{sorted_aux, sorted_refusals, sorted_rows};
use crate::tell::{Told, tell_count, tell_groups};
use recovery_pool::Gate;
use report_frame::MAX_LAYERS;
use star_io::NoMemory;
use std::alloc::Global;
use std::thread::Threads;

/// What the levels tell, from level 0 on, behind these refusals.
pub(crate) fn told_from<R: Threads + Sync, G: Gate>(
    rt: &R,
    alloc: Global,
    first: GroupedLevel,
    refusals: Refusals,
    workers: u32,
    gate: &G,
) -> Result<Told, NoMemory>
    requires first { IsLevel first.level }
    requires number { first.level.number ≡ 0 }
    requires groups { first.groups ≡ groups_of first.level.rows }
    requires workers { (1 ≤ workers) × (workers ≤ MAX_WORKERS) }
    ensures groups { IfOk result (λ told. told.groups.items
        ≡ groups_told first.level.epoch (named first.level) MAX_LAYERS) }
    ensures levels { IfOk result (λ told. told.levels
        ≡ levels_told first.level.epoch (named first.level) MAX_LAYERS) }
    ensures refusals { IfOk result (λ told. told.refusals.items
        ≡ refusals ++ refusals_told first.level.epoch (named first.level) MAX_LAYERS) }
    ensures aux { IfOk result (λ told. told.aux.items
        ≡ aux_told first.level.epoch (named first.level) MAX_LAYERS) }
{
    let mut here = first;
    let mut told = Told {
        groups: Vec::new(alloc),
        levels: LevelCounts::new(alloc),
        refusals: refusals.into_vec(),
        aux: Vec::new(alloc),
    };
    for _done in 0..MAX_LAYERS {
        if here.level.rows.len() == 0 {
            return Ok(told);
        }
        let outs = outs_of(rt, alloc, &here.level, &here.groups, workers, gate)?;
        here = pass_level(rt, alloc, &mut told, here, outs, workers)?;
    }
    Ok(told)
}

// Tells of a level, and gives the level after it. No report is copied.
fn pass_level<R: Threads>(
    rt: &R,
    alloc: Global,
    told: &mut Told,
    here: GroupedLevel,
    outs: Vec<GroupOut>,
    workers: u32,
) -> Result<GroupedLevel, NoMemory>
    requires level { IsLevel here.level }
    requires number { here.level.number ≤ MAX_LEVEL_TWO }
    requires groups { here.groups ≡ groups_of here.level.rows }
    requires outs { AreOuts here.level here.groups outs.items }
    ensures tells { IfOk result (λ _. TellsLevel here.level told.old told.new) }
    ensures after { IfOk result (λ next. IsAfter here.level next.level) }
    ensures good { IfOk result (λ next. IsLevel next.level) }
    ensures groups { IfOk result (λ next. next.groups ≡ groups_of next.level.rows) }
{
    let level = &here.level;
    tell_groups(&mut told.groups, level, &here.groups, outs.as_slice())?;
    tell_count(&mut told.levels, outs.as_slice())?;
    let Held {
        children,
        refusals,
        aux,
    } = held_by(alloc, level, &here.groups, outs)?;
    append(&mut told.refusals, sorted_refusals(refusals)?)?;
    append(&mut told.aux, sorted_aux(aux)?)?;
    let (number, epoch) = (level.number + 1, level.epoch);
    let Children { parents, rows } = children;
    let grouper = grouper_after(rt, alloc, here, sorted_rows(rows)?, workers)?;
    Ok(with_groups(number, epoch, parents, grouper))
}
