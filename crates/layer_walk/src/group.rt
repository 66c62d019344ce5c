// Opening a group.
ghost use Rattle.std.specs.Prelude.{◌≡◌, ◌<◌, ◌≤◌, ◌^◌, [], length, IfOk, IfSome, Some, None};
ghost use Rattle.std.specs.Option.{option_map};
ghost use Rattle.shamir_limbs.specs.KeyLine.{AreDistinct, xs_of};
ghost use Rattle.shamir_limbs.specs.Search.{key_line_of};
ghost use Rattle.layer_walk.specs.Outs.{IsOut, FitsLevel, group_points};
ghost use Rattle.layer_walk.specs.Lines.{IsLine, HasLine};

use crate::auxiliary::Auxes;
use crate::inner::Inners;
use crate::keys::Keys;
use crate::level::Level;
use crate::member::{Held, read_members};
use crate::outcome::Outcome;
use crate::refusal::Refusals;
use adss_commit::{body_key, open_value, seal_key};
use shamir_limbs::{KeyLine, KeyWork, Point, recover_line};
use star_io::NoMemory;
use std::alloc::Global;
use tag_groups::{Group, Points, points_left};

/// How a group came out, the number of its points left, and what its members hold where it was
/// opened: reports of the next level, refusals and extra bytes, each in the order of the members.
#[derive(Drop)]
pub struct GroupOut {
    pub outcome: Outcome,
    pub points: u32,
    pub inner: Inners,
    pub refusals: Refusals,
    pub aux: Auxes,
}

/// What opening a group gives, with what it was opened by: the points left of it and, where it was
/// opened, the polynomials of its key.
#[derive(Drop)]
pub struct GroupLine {
    pub out: GroupOut,
    pub points: Points,
    pub line: Option<KeyLine>,
}

/// Opens the group, where it can be opened, and reads what its members hold.
pub fn open_group(alloc: Global, level: &Level, group: &Group) -> Result<GroupOut, NoMemory>
    requires { FitsLevel level.now group.now }
    ensures { IfOk result (λ out. IsOut level.now group.now out) }
{
    let GroupLine { out, .. } = open_group_line(alloc, level, group)?;
    Ok(out)
}

/// Opens the group as [`open_group`] does, and hands its points and its polynomials back too.
pub fn open_group_line(alloc: Global, level: &Level, group: &Group) -> Result<GroupLine, NoMemory>
    requires { FitsLevel level.now group.now }
    ensures out { IfOk result (λ opened. IsOut level.now group.now opened.out) }
    ensures points { IfOk result (λ opened. opened.points ≡ group_points level.now group.now) }
    ensures line { IfOk result (λ opened.
        HasLine (group_points level.now group.now) group.now.head.k opened.line opened.out.outcome) }
{
    let rows = level.rows.as_slice();
    let left = points_left(alloc, rows, group)?;
    let points = left.as_slice();
    let head = group.head();
    if points.len() < head.k as usize {
        return Ok(closed(alloc, Outcome::Few, left));
    }
    let Some(line) = key_line(alloc, points, head.k as usize)? else {
        return Ok(closed(alloc, Outcome::NoLine, left));
    };
    let found = line.found;
    let parent = level.parents.get(group.parent() as usize);
    let Some(value) = open_value(&found.key, head, &parent.check, level.epoch, level.number) else {
        return Ok(closed(alloc, Outcome::BadValue, left));
    };
    let keys = Keys {
        seal: seal_key(head.version, &found.key),
        body: body_key(head.version, &found.key),
        version: head.version,
        epoch: level.epoch,
        level: level.number,
    };
    let held = read_members(alloc, &keys, rows, group.members())?;
    let outcome = Outcome::Opened {
        value,
        agree: found.agree,
    };
    Ok(opened(outcome, left, line, held))
}

// The key on whose polynomials enough of the points lie, with these.
fn key_line(alloc: Global, points: &[Point], k: usize) -> Result<Option<KeyLine>, NoMemory>
    requires distinct { AreDistinct (xs_of points.now) }
    requires some { 1 ≤ k }
    requires threshold { k ≤ length points.now }
    requires few { length points.now < 2 ^ 32 }
    ensures found { IfOk result (λ line. option_map (λ l. l.found) line
        ≡ key_line_of points.now k) }
    ensures line { IfOk result (λ line. IfSome line (IsLine points.now k)) }
{
    let work = KeyWork::new(alloc, points.len())?;
    Ok(recover_line(work, points, k))
}

// A group that isn't opened.
fn closed(alloc: Global, outcome: Outcome, points: Points) -> GroupLine
    requires { length points < 2 ^ 32 }
    ensures out { result.out
        ≡ record {
          outcome = outcome;
          points = length points;
          inner = [];
          refusals = [];
          aux = [];
        } }
    ensures points { result.points ≡ points }
    ensures line { result.line ≡ None }
{
    let out = GroupOut {
        outcome,
        points: points.len() as u32,
        inner: Inners::new(alloc),
        refusals: Refusals::new(alloc),
        aux: Auxes::new(alloc),
    };
    GroupLine {
        out,
        points,
        line: None,
    }
}

// A group that is opened by these polynomials, whose members hold this.
fn opened(outcome: Outcome, points: Points, line: KeyLine, held: Held) -> GroupLine
    requires { length points < 2 ^ 32 }
    ensures out { result.out
        ≡ record {
          outcome = outcome;
          points = length points;
          inner = held.inner;
          refusals = held.refusals;
          aux = held.aux;
        } }
    ensures points { result.points ≡ points }
    ensures line { result.line ≡ Some line }
{
    let Held {
        inner,
        refusals,
        aux,
    } = held;
    let out = GroupOut {
        outcome,
        points: points.len() as u32,
        inner,
        refusals,
        aux,
    };
    GroupLine {
        out,
        points,
        line: Some(line),
    }
}
