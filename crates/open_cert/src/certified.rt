// The certificate of one opened group.
ghost use Rattle.std.specs.Prelude.{◌≡◌, ◌<◌, ◌≤◌, length, IfOk};
ghost use Rattle.std.specs.Option.{option_to_list};
ghost use Rattle.layer_walk.specs.Lines.{IsLine, HasLine};
ghost use Rattle.layer_walk.specs.declared.path.TheConstants.{MAX_STEPS};
ghost use Rattle.layer_walk.specs.Outs.{FitsLevel, IsOut, group_points, parent_at};
ghost use Rattle.open_cert.specs.Made.{certified_under, group_cert};

use crate::numbers::numbers_of;
use cert_audit::{Cert, CertPoints, Numbers};
use layer_walk::{GroupOut, Level, OpenedGroup, Outcome, group_path};
use report_frame::Head;
use shamir_limbs::KeyLine;
use star_io::NoMemory;
use std::alloc::Global;
use tag_groups::{Group, Points};

/// An opened group as a reveal tells it, and its certificate.
#[derive(Drop)]
pub(crate) struct Certified {
    pub(crate) told: OpenedGroup,
    pub(crate) cert: Cert,
}

/// The group with its certificate, where it was opened, by these points and these polynomials.
pub(crate) fn certify(
    alloc: Global,
    level: &Level,
    group: &Group,
    out: &GroupOut,
    points: Points,
    line: Option<KeyLine>,
) -> Result<Option<Certified>, NoMemory>
    requires fits { FitsLevel level.now group.now }
    requires room { length (parent_at level.now.parents group.now.parent).path < MAX_STEPS }
    requires out { IsOut level.now group.now out.now }
    requires points { points ≡ group_points level.now group.now }
    requires line { HasLine (group_points level.now group.now) group.now.head.k line out.now.outcome }
    ensures { IfOk result (λ made. option_to_list made
        ≡ certified_under level.now group.now out.now.outcome) }
{
    let Outcome::Opened { value, agree } = &out.outcome else {
        return Ok(None);
    };
    let line = line.unwrap();
    let told = OpenedGroup {
        path: group_path(level, group, value),
        points: out.points,
        agree: *agree,
        members: group.members().len() as u32,
    };
    let cert = cert_of(alloc, level, group, points, &line)?;
    Ok(Some(Certified { told, cert }))
}

// The certificate of the group, with these points and these polynomials.
fn cert_of(
    alloc: Global,
    level: &Level,
    group: &Group,
    points: Points,
    line: &KeyLine,
) -> Result<Cert, NoMemory>
    requires parent { group.now.parent < length level.now.parents }
    requires threshold { group.now.head.k ≤ length points }
    requires points { points ≡ group_points level.now group.now }
    requires line { IsLine (group_points level.now group.now) group.now.head.k line.now }
    ensures { IfOk result (λ cert. cert ≡ group_cert level.now group.now) }
{
    let head = group.head();
    let numbers = numbers_of(alloc, points.as_slice(), line, head.k as usize)?;
    Ok(Cert {
        level: level.number,
        epoch: level.epoch,
        parent: level.parents.get(group.parent() as usize).check,
        head: copy_head(head),
        points: CertPoints::from_vec(points.into_vec()),
        numbers: Numbers::from_vec(numbers),
    })
}

// The same head once more. It takes no memory.
fn copy_head(head: &Head) -> Head
    ensures { result ≡ head.now }
{
    Head {
        version: head.version,
        k: head.k,
        tag: head.tag,
        check: head.check,
        boxed: head.boxed.copy(),
    }
}
