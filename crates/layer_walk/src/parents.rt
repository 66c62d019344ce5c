// The path of a group, and the group as the parent of what its members hold.
ghost use Rattle.std.specs.Prelude.{◌≡◌, ◌<◌, length};
ghost use Rattle.layer_walk.specs.declared.path.TheConstants.{MAX_STEPS};
ghost use Rattle.layer_walk.specs.Outs.{parent_at};
ghost use Rattle.layer_walk.specs.Made.{group_child};

use crate::level::{Level, Parent};
use crate::path::{Path, Step};
use report_frame::Value;
use tag_groups::Group;

/// The group as a parent, where it has this value.
pub(crate) fn child(level: &Level, group: &Group, value: &Value) -> Parent
    requires parent { group.now.parent < length level.now.parents }
    requires room { length (parent_at level.now.parents group.now.parent).path < MAX_STEPS }
    ensures { result ≡ group_child level.now group.now value.now }
{
    Parent {
        path: group_path(level, group, value),
        check: group.head().check,
    }
}

/// The path of the group, where it has this value. It takes no memory.
pub fn group_path(level: &Level, group: &Group, value: &Value) -> Path
    requires parent { group.now.parent < length level.now.parents }
    requires room { length (parent_at level.now.parents group.now.parent).path < MAX_STEPS }
    ensures { result ≡ (group_child level.now group.now value.now).path }
{
    let parent = level.parents.get(group.parent() as usize);
    let head = group.head();
    parent.path.with(Step {
        value: value.copy(),
        k: head.k,
        version: head.version,
    })
}
