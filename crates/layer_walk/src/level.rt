// A level, and the level after it.
ghost use Rattle.std.specs.Prelude.{◌≡◌, ◌≤◌, ◌<◌, ◌^◌, ◌∷◌, [], length, IfOk};
ghost use Rattle.report_frame.specs.declared.limits.TheConstants.{MAX_LEVEL_TWO};
ghost use Rattle.tag_groups.specs.Grouped.{groups_of};
ghost use Rattle.layer_walk.specs.Made.{AreOuts, IsAfter, IsLevel};
ghost use Rattle.layer_walk.specs.Reveal.{no_parent};
ghost use Rattle.layer_walk.specs.Standing.{level_zero_of};

use crate::group::GroupOut;
use crate::held::{Children, copied_children};
use crate::outer::{copy_record, first_row};
use crate::path::Path;
use crate::sorts::sorted_rows;
use report_frame::CHECK_BYTES;
use star_io::{NoMemory, Record};
use std::alloc::Global;
use tag_groups::{Groups, Listed, Rows};

/// An opened group of the level before, as the parent of what its members hold: its path, with its
/// own step, and the check of its head.
#[derive(Drop)]
pub struct Parent {
    pub path: Path,
    pub check: [u8; CHECK_BYTES],
}

/// A list of parents.
pub type Parents = Listed<Parent>;

/// The rows of a level, each with the place of its parent. At level 0 there is one parent, with no
/// step and a check of zeros.
#[derive(Drop)]
pub struct Level {
    pub number: u8,
    pub epoch: u32,
    pub parents: Parents,
    pub rows: Rows,
}

/// Level 0 of the records: the frames of this epoch and level 0 among them.
pub fn level_zero(alloc: Global, records: &[Record], epoch: u32) -> Result<Level, NoMemory>
    requires { length records.now < 2 ^ 32 }
    ensures zero { IfOk result (λ level. level ≡ level_zero_of epoch records.now) }
    ensures good { IfOk result (λ level. IsLevel level) }
{
    let parents = first_parents(alloc)?;
    let mut rows = Rows::new(alloc);
    for (i, item) in records.iter().enumerate() {
        if let Ok(row) = first_row(i as u32, copy_record(alloc, item)?, epoch) {
            rows.push(row.into_row())?;
        }
    }
    Ok(Level {
        number: 0,
        epoch,
        parents,
        rows,
    })
}

/// The one parent of the rows of level 0.
pub(crate) fn first_parents(alloc: Global) -> Result<Parents, NoMemory>
    ensures { IfOk result (λ parents. parents ≡ no_parent ∷ []) }
{
    let mut parents = Parents::new(alloc);
    parents.push(Parent {
        path: Path::new(),
        check: [0; CHECK_BYTES],
    })?;
    Ok(parents)
}

/// The level after: its parents are the opened groups in the order of the groups, and its rows are
/// what their members hold, in ascending index. Each frame is copied out of the outs.
pub fn level_after(
    alloc: Global,
    level: &Level,
    groups: &Groups,
    outs: &[GroupOut],
) -> Result<Level, NoMemory>
    requires level { IsLevel level.now }
    requires number { level.now.number ≤ MAX_LEVEL_TWO }
    requires groups { groups.now ≡ groups_of level.now.rows }
    requires outs { AreOuts level.now groups.now outs.now }
    ensures after { IfOk result (λ next. IsAfter level.now next) }
    ensures good { IfOk result (λ next. IsLevel next) }
{
    let Children { parents, rows } = copied_children(alloc, level, groups, outs)?;
    let rows = sorted_rows(rows)?;
    Ok(Level {
        number: level.number + 1,
        epoch: level.epoch,
        parents,
        rows: Rows::from_vec(rows),
    })
}
