// What the levels tell.
ghost use Rattle.std.specs.Prelude.{◌≡◌, ◌<◌, ◌≤◌, ◌^◌, ◌++◌, length, IfOk};
ghost use Rattle.report_frame.specs.declared.limits.TheConstants.{MAX_LEVEL_TWO};
ghost use Rattle.tag_groups.specs.Grouped.{groups_of};
ghost use Rattle.layer_walk.specs.Levels.{count_of, counts_of, opened_at};
ghost use Rattle.layer_walk.specs.Made.{named, AreOuts, IsLevel};
ghost use Rattle.layer_walk.specs.Told.{outcomes_of, revealed_of};

use crate::auxiliary::{Aux, Auxes};
use crate::group::GroupOut;
use crate::level::Level;
use crate::outcome::Outcome;
use crate::parents::group_path;
use crate::refusal::{Refusal, Refusals};
use crate::revealed::{LevelCount, LevelCounts, OpenedGroup, OpenedGroups, Revealed};
use crate::sorts::{sorted_aux, sorted_groups, sorted_refusals};
use star_io::NoMemory;
use tag_groups::Groups;

/// What the levels so far tell, in the order in which they tell it.
#[derive(Drop)]
pub(crate) struct Told {
    pub(crate) groups: Vec<OpenedGroup>,
    pub(crate) levels: LevelCounts,
    pub(crate) refusals: Vec<Refusal>,
    pub(crate) aux: Vec<Aux>,
}

impl Told {
    /// What is told of so many records and rows of level 0, in its order.
    pub(crate) fn in_order(self, records: u32, rows: u32) -> Result<Revealed, NoMemory>
        ensures { IfOk result (λ revealed. revealed ≡ revealed_of records rows self) }
    {
        let Told {
            groups,
            levels,
            refusals,
            aux,
        } = self;
        Ok(Revealed {
            records,
            rows,
            groups: OpenedGroups::from_vec(sorted_groups(groups)?),
            levels,
            refusals: Refusals::from_vec(sorted_refusals(refusals)?),
            aux: Auxes::from_vec(sorted_aux(aux)?),
        })
    }
}

/// Tells the opened groups of a level, in their order.
pub(crate) fn tell_groups(
    told: &mut Vec<OpenedGroup>,
    level: &Level,
    groups: &Groups,
    outs: &[GroupOut],
) -> Result<(), NoMemory>
    requires level { IsLevel level.now }
    requires number { level.now.number ≤ MAX_LEVEL_TWO }
    requires groups { groups.now ≡ groups_of level.now.rows }
    requires outs { AreOuts level.now groups.now outs.now }
    ensures { IfOk result (λ _. told.new.items
        ≡ told.old.items ++ opened_at level.now.epoch level.now.number (named level.now)) }
{
    for (i, out) in outs.iter().enumerate() {
        if let Outcome::Opened { value, agree } = &out.outcome {
            let group = groups.get(i);
            told.push(OpenedGroup {
                path: group_path(level, group, value),
                points: out.points,
                agree: *agree,
                members: group.members().len() as u32,
            })?;
        }
    }
    Ok(())
}

/// Tells how many groups of a level came out in each way, if it has some.
pub(crate) fn tell_count(told: &mut LevelCounts, outs: &[GroupOut]) -> Result<(), NoMemory>
    requires { length outs.now < 2 ^ 32 }
    ensures { IfOk result (λ _. told.new ≡ told.old ++ counts_of (outcomes_of outs.now)) }
{
    if outs.is_empty() {
        return Ok(());
    }
    told.push(count_of(outs))
}

// How many of them came out in each way.
fn count_of(outs: &[GroupOut]) -> LevelCount
    requires { length outs.now < 2 ^ 32 }
    ensures { result ≡ count_of (outcomes_of outs.now) }
{
    let mut count = LevelCount {
        opened: 0,
        few: 0,
        no_line: 0,
        bad_value: 0,
    };
    for out in outs {
        match &out.outcome {
            Outcome::Opened { .. } => count.opened += 1,
            Outcome::Few => count.few += 1,
            Outcome::NoLine => count.no_line += 1,
            Outcome::BadValue => count.bad_value += 1,
        }
    }
    count
}
