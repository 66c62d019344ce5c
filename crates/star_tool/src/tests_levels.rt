// The levels that a walk passes, made one after the other, and what all of them tell.
ghost use Rattle.std.specs.Prelude.{All, IfOk};
ghost use Rattle.layer_walk.specs.Made.{AreOuts};
ghost use Rattle.layer_walk.specs.Outs.{FitsLevel};

use crate::trial_streams::{cities, made};
use layer_walk::{GroupOut, Level, level_after, level_zero, open_group, reveal};
use recovery_pool::NoGate;
use star_io::NoMemory;
use std::alloc::Global;
use std::test::*;
use tag_groups::{Groups, group_rows};

// What opening each group of the level gives.
fn outs_of(alloc: Global, level: &Level, groups: &Groups) -> Result<Vec<GroupOut>, NoMemory>
    requires { All (FitsLevel level.now) groups.now }
    ensures { IfOk result (λ outs. AreOuts level.now groups.now outs.items) }
{
    let mut outs = Vec::new(alloc);
    for group in groups.as_slice() {
        outs.push(open_group(alloc, level, group)?)?;
    }
    Ok(outs)
}

#[test]
fn the_level_after_has_what_opened_groups_hold(rt: HostRuntime) -> Result<(), Fail> {
    let alloc = rt.alloc();
    let options = "--epoch 7 --thresholds 20,10";
    let records = made(&rt, alloc, options, &cities(alloc)?)?;
    let level = level_zero(alloc, &records, 7)?;
    assert_eq!(rt; (level.parents.len(), level.rows.len()), (1, 60));

    let groups = group_rows(alloc, level.rows.as_slice())?;
    let outs = outs_of(alloc, &level, &groups)?;
    let next = level_after(alloc, &level, &groups, &outs)?;
    assert_eq!(rt; (next.parents.len(), next.rows.len()), (2, 54));
    Ok(())
}

#[test]
fn a_list_of_records_is_revealed(rt: HostRuntime) -> Result<(), Fail> {
    let alloc = rt.alloc();
    let records = made(&rt, alloc, "--epoch 7 --thresholds 20,10", &cities(alloc)?)?;
    let told = reveal(&rt, alloc, &records, 7, 2, &NoGate)?;
    assert_eq!(rt; (told.records, told.rows), (60, 60));
    assert_eq!(rt; told.groups.len(), 5);
    Ok(())
}
