// What the members of an opened group hold.
ghost use Rattle.std.specs.Prelude.{◌<◌, ◌≤◌, length, IfOk, All};
ghost use Rattle.report_frame.specs.declared.limits.TheConstants.{MAX_LEVEL_TWO};
ghost use Rattle.tag_groups.specs.Laws.{rows_at};
ghost use Rattle.layer_walk.specs.Held.{HeldOf, HoldsMore};

use crate::auxiliary::Auxes;
use crate::body::{Body, read_body};
use crate::inner::Inners;
use crate::keys::Keys;
use crate::refusal::{Refusal, Refusals, Stage};
use star_io::NoMemory;
use std::alloc::Global;
use tag_groups::Row;

/// What members hold: reports of the next level, extra bytes, and the refusals of those whose body
/// isn't read further.
#[derive(Drop)]
pub(crate) struct Held {
    pub(crate) inner: Inners,
    pub(crate) refusals: Refusals,
    pub(crate) aux: Auxes,
}

/// What each of the members of an opened group holds.
pub(crate) fn read_members(
    alloc: Global,
    keys: &Keys,
    rows: &[Row],
    members: &[u32],
) -> Result<Held, NoMemory>
    requires level { keys.now.level ≤ MAX_LEVEL_TWO }
    requires members { All (λ place. place < length rows.now) members.now }
    ensures { IfOk result (λ held. HeldOf keys.now (rows_at rows.now members.now) held) }
{
    let mut held = Held {
        inner: Inners::new(alloc),
        refusals: Refusals::new(alloc),
        aux: Auxes::new(alloc),
    };
    let mut room = Vec::new(alloc);
    for place in members {
        read_member(alloc, keys, &rows[*place as usize], &mut room, &mut held)?;
    }
    Ok(held)
}

// Puts what one member holds last.
#[tactic(auto, using(report_frame::proofs::VersionFacts::frame_within))]
fn read_member(
    alloc: Global,
    keys: &Keys,
    row: &Row,
    room: &mut Vec<u8>,
    held: &mut Held,
) -> Result<(), NoMemory>
    requires { keys.now.level ≤ MAX_LEVEL_TWO }
    ensures { IfOk result (λ _. HoldsMore keys.now row.now held.old held.new) }
{
    let index = row.index();
    match read_body(alloc, keys, index, &row.view(), room)? {
        Body::Last => {}
        Body::Extra(aux) => held.aux.push(aux)?,
        Body::Next(inner) => held.inner.push(inner)?,
        Body::Refused(why) => held.refusals.push(Refusal {
            index,
            stage: Stage::Layer(keys.level),
            why,
        })?,
    }
    Ok(())
}
