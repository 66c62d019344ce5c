// The groups of a level, opened.
ghost use Rattle.std.specs.Prelude.{◌≡◌, ◌≤◌, IfOk};
ghost use Rattle.report_frame.specs.declared.limits.TheConstants.{MAX_LEVEL_TWO};
ghost use Rattle.tag_groups.specs.Grouped.{groups_of};
ghost use Rattle.layer_walk.specs.Made.{AreOuts, IsLevel};
ghost use Rattle.open_cert.specs.Made.{certified_groups};

use crate::certified::{Certified, certify};
use layer_walk::{GroupLine, GroupOut, Level, open_group_line};
use star_io::NoMemory;
use std::alloc::Global;
use tag_groups::Groups;

/// What opening each group of a level gives, and the opened groups with their certificates, each in
/// the order of the groups.
#[derive(Drop)]
pub(crate) struct OpenedLevel {
    pub(crate) outs: Vec<GroupOut>,
    pub(crate) made: Vec<Certified>,
}

/// Opens each group of the level.
pub(crate) fn open_level(
    alloc: Global,
    level: &Level,
    groups: &Groups,
) -> Result<OpenedLevel, NoMemory>
    requires level { IsLevel level.now }
    requires number { level.now.number ≤ MAX_LEVEL_TWO }
    requires groups { groups.now ≡ groups_of level.now.rows }
    ensures outs { IfOk result (λ opened. AreOuts level.now groups.now opened.outs.items) }
    ensures made { IfOk result (λ opened. opened.made.items
        ≡ certified_groups level.now groups.now) }
{
    let mut outs = Vec::new(alloc);
    let mut made = Vec::new(alloc);
    for i in 0..groups.len() {
        let group = groups.get(i);
        let GroupLine { out, points, line } = open_group_line(alloc, level, group)?;
        if let Some(one) = certify(alloc, level, group, &out, points, line)? {
            made.push(one)?;
        }
        outs.push(out)?;
    }
    Ok(OpenedLevel { outs, made })
}
