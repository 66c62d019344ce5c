// A level with the groups of its rows.
ghost use Rattle.std.specs.Prelude.{◌≡◌, ◌<◌, ◌^◌, length, IfOk};
ghost use Rattle.tag_groups.specs.Grouped.{groups_of};

use crate::level::{Level, Parents};
use star_io::NoMemory;
use std::alloc::Global;
use std::thread::{self, Threads};
use tag_groups::{Grouped, Grouper, Groups, Row};

/// A level, and the groups of its rows.
#[derive(Drop)]
pub struct GroupedLevel {
    pub level: Level,
    pub groups: Groups,
}

/// The level of these rows. It takes no memory.
pub(crate) fn with_groups(
    number: u8,
    epoch: u32,
    parents: Parents,
    grouper: Grouper,
) -> GroupedLevel
    ensures level { result.level
        ≡ record { number = number; epoch = epoch; parents = parents; rows = grouper } }
    ensures groups { result.groups ≡ groups_of grouper }
{
    let Grouped { rows, groups } = grouper.finish();
    GroupedLevel {
        level: Level {
            number,
            epoch,
            parents,
            rows,
        },
        groups,
    }
}

/// The rows as a grouper takes them, in their order.
pub(crate) fn grouper_of(alloc: Global, rows: Vec<Row>) -> Result<Grouper, NoMemory>
    requires { length rows.items < 2 ^ 32 }
    ensures { IfOk result (λ grouper. grouper ≡ rows.items) }
{
    let mut grouper = Grouper::new(alloc);
    for row in rows {
        grouper.add(row)?;
    }
    Ok(grouper)
}

/// The rows as a grouper takes them, in their order. What was before is dropped: where there are
/// several workers, by another thread beside all that follows, which nobody waits for.
pub(crate) fn grouper_after<R: Threads>(
    rt: &R,
    alloc: Global,
    before: GroupedLevel,
    rows: Vec<Row>,
    workers: u32,
) -> Result<Grouper, NoMemory>
    requires { length rows.items < 2 ^ 32 }
    ensures { IfOk result (λ grouper. grouper ≡ rows.items) }
{
    if workers > 1 {
        let free = move || drop(before);
        // Where no thread can be made, it is dropped at once.
        drop(thread::spawn(rt, free));
    }
    grouper_of(alloc, rows)
}

/// The level with the groups of its rows. Nothing is copied.
pub fn group_level(alloc: Global, level: Level) -> Result<GroupedLevel, NoMemory>
    requires { length level.rows < 2 ^ 32 }
    ensures level { IfOk result (λ here. here.level ≡ level) }
    ensures groups { IfOk result (λ here. here.groups ≡ groups_of level.rows) }
{
    let Level {
        number,
        epoch,
        parents,
        rows,
    } = level;
    let grouper = grouper_of(alloc, rows.into_vec())?;
    Ok(with_groups(number, epoch, parents, grouper))
}
