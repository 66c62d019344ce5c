// What the members of opened groups hold, as rows of the next level, refusals and extra bytes.
ghost use Rattle.std.specs.Prelude.{◌≡◌, ◌<◌, ◌≤◌, ◌^◌, ◌++◌, length, map, IfOk};
ghost use Rattle.report_frame.specs.declared.limits.TheConstants.{MAX_LEVEL_TWO};
ghost use Rattle.tag_groups.specs.Grouped.{groups_of};
ghost use Rattle.layer_walk.specs.declared.path.TheConstants.{MAX_STEPS};
ghost use Rattle.layer_walk.specs.Rows.{first_members};
ghost use Rattle.layer_walk.specs.Outs.{parent_at};
ghost use Rattle.layer_walk.specs.Made.{named, AreOuts, IsLevel};
ghost use Rattle.layer_walk.specs.Kept.{adopt, AdoptsMore, AreChildren, IsHeld, HoldsMore};

use crate::auxiliary::Aux;
use crate::group::GroupOut;
use crate::inner::Inner;
use crate::level::{Level, Parents};
use crate::outcome::Outcome;
use crate::parents::child;
use crate::refusal::Refusal;
use star_io::{Bytes, NoMemory};
use std::alloc::Global;
use tag_groups::{Group, Groups, Row};

/// The opened groups of a level as parents, and the reports that their members hold as rows, each
/// with the number of its parent.
#[derive(Drop)]
pub(crate) struct Children {
    pub(crate) parents: Parents,
    pub(crate) rows: Vec<Row>,
}

/// What the members of opened groups hold, group by group: reports, refusals, and extra bytes.
#[derive(Drop)]
pub(crate) struct Held {
    pub(crate) children: Children,
    pub(crate) refusals: Vec<Refusal>,
    pub(crate) aux: Vec<Aux>,
}

/// What the members of the groups of a level hold. Nothing is copied.
pub(crate) fn held_by(
    alloc: Global,
    level: &Level,
    groups: &Groups,
    outs: Vec<GroupOut>,
) -> Result<Held, NoMemory>
    requires level { IsLevel level.now }
    requires number { level.now.number ≤ MAX_LEVEL_TWO }
    requires groups { groups.now ≡ groups_of level.now.rows }
    requires outs { AreOuts level.now groups.now outs.items }
    ensures { IfOk result (IsHeld level.now (first_members (named level.now))) }
{
    let mut held = Held {
        children: Children {
            parents: Parents::new(alloc),
            rows: Vec::new(alloc),
        },
        refusals: Vec::new(alloc),
        aux: Vec::new(alloc),
    };
    let mut i = 0;
    for out in outs {
        hold(&mut held, level, groups.get(i), out)?;
        i += 1;
    }
    Ok(held)
}

// Puts what the members of one more group hold last.
fn hold(held: &mut Held, level: &Level, group: &Group, out: GroupOut) -> Result<(), NoMemory>
    requires parent { group.now.parent < length level.now.parents }
    requires room { length (parent_at level.now.parents group.now.parent).path < MAX_STEPS }
    requires few { length held.old.children.parents < 2 ^ 32 }
    ensures { IfOk result (λ _. HoldsMore level.now group.now out held.old held.new) }
{
    let GroupOut {
        outcome,
        inner,
        refusals,
        aux,
        ..
    } = out;
    adopt_group(&mut held.children, level, group, &outcome, inner.into_vec())?;
    append(&mut held.refusals, refusals.into_vec())?;
    append(&mut held.aux, aux.into_vec())
}

// Puts the group last as a parent, where it comes out so, and the reports of its members as rows.
fn adopt_group(
    children: &mut Children,
    level: &Level,
    group: &Group,
    outcome: &Outcome,
    inners: Vec<Inner>,
) -> Result<(), NoMemory>
    requires parent { group.now.parent < length level.now.parents }
    requires room { length (parent_at level.now.parents group.now.parent).path < MAX_STEPS }
    requires few { length children.old.parents < 2 ^ 32 }
    ensures { IfOk result (λ _. AdoptsMore level.now group.now outcome.now inners.items
        children.old children.new) }
{
    let number = children.parents.len() as u32;
    if let Outcome::Opened { value, .. } = outcome {
        children.parents.push(child(level, group, value))?;
    }
    adopt_all(&mut children.rows, number, inners)
}

/// Puts the items last. Nothing is copied.
pub(crate) fn append<T: Drop>(all: &mut Vec<T>, items: Vec<T>) -> Result<(), NoMemory>
    ensures { IfOk result (λ _. all.new.items ≡ all.old.items ++ items.items) }
{
    for item in items {
        all.push(item)?;
    }
    Ok(())
}

// Makes rows of the reports, under the parent of this number.
fn adopt_all(rows: &mut Vec<Row>, parent: u32, inners: Vec<Inner>) -> Result<(), NoMemory>
    ensures { IfOk result (λ _. rows.new.items
        ≡ rows.old.items ++ map (adopt parent) inners.items) }
{
    for inner in inners {
        rows.push(adopt(parent, inner))?;
    }
    Ok(())
}

// The report as a row, under the parent of this number.
fn adopt(parent: u32, inner: Inner) -> Row
    ensures { result ≡ adopt parent inner }
{
    Row::of_frame(inner.index, parent, inner.frame)
}

/// The opened groups as parents, and copies of the reports that their members hold.
pub(crate) fn copied_children(
    alloc: Global,
    level: &Level,
    groups: &Groups,
    outs: &[GroupOut],
) -> Result<Children, NoMemory>
    requires level { IsLevel level.now }
    requires number { level.now.number ≤ MAX_LEVEL_TWO }
    requires groups { groups.now ≡ groups_of level.now.rows }
    requires outs { AreOuts level.now groups.now outs.now }
    ensures { IfOk result (λ children. AreChildren level.now (first_members (named level.now))
        children.parents children.rows.items) }
{
    let mut children = Children {
        parents: Parents::new(alloc),
        rows: Vec::new(alloc),
    };
    for (i, out) in outs.iter().enumerate() {
        let inners = copied_inners(alloc, out.inner.as_slice())?;
        adopt_group(&mut children, level, groups.get(i), &out.outcome, inners)?;
    }
    Ok(children)
}

fn copied_inners(alloc: Global, inners: &[Inner]) -> Result<Vec<Inner>, NoMemory>
    ensures { IfOk result (λ copies. copies.items ≡ inners.now) }
{
    let mut copies = Vec::with_capacity(alloc, inners.len())?;
    for inner in inners {
        copies.push(Inner {
            index: inner.index,
            frame: Bytes::of(alloc, inner.frame.as_slice())?,
        })?;
    }
    Ok(copies)
}
