// The points left of a group.
ghost use Rattle.std.specs.Prelude.{◌≡◌, ◌<◌, ◌≤◌, ◌&&◌, length, IfOk, All, None};
ghost use Rattle.std.specs.List.{slice_get};
ghost use Rattle.std.specs.Option.{option_map};
ghost use Rattle.shamir_limbs.specs.KeyLine.{AreDistinct, xs_of};
ghost use Rattle.tag_groups.specs.Left.{points_left_of, points_at};
ghost use Rattle.tag_groups.specs.Apart.{is_other, apart_from};

use crate::group::Group;
use crate::listed::Listed;
use crate::row::Row;
use field61::Fe;
use shamir_limbs::Point;
use star_io::NoMemory;
use std::alloc::Global;

/// A list of points.
pub type Points = Listed<Point>;

/// Each point that a member has, once, if no member has the same x with another y, in ascending x.
pub fn points_left(alloc: Global, rows: &[Row], group: &Group) -> Result<Points, NoMemory>
    requires { All (λ place. place < length rows.now) group.now.members }
    ensures points { IfOk result (λ points. points
        ≡ points_left_of (points_at rows.now group.now.members)) }
    // This is what recovering a key asks of points.
    ensures few { IfOk result (λ points. length points ≤ length group.now.members) }
    ensures distinct { IfOk result (λ points. AreDistinct (xs_of points)) }
{
    let points = member_points(alloc, rows, group.members())?;
    let items = lone_points(alloc, points)?;
    Ok(Listed::from_vec(items))
}

// The members' points, in their order.
fn member_points(alloc: Global, rows: &[Row], members: &[u32]) -> Result<Vec<Point>, NoMemory>
    requires { All (λ place. place < length rows.now) members.now }
    ensures { IfOk result (λ points. points.items ≡ points_at rows.now members.now) }
{
    let mut points = Vec::with_capacity(alloc, members.len())?;
    for place in members {
        let view = rows[*place as usize].view();
        points.push(Point {
            x: view.x(),
            y: view.y(),
        })?;
    }
    Ok(points)
}

// Each of the points once whose x has no other point, in ascending x.
fn lone_points(alloc: Global, mut points: Vec<Point>) -> Result<Vec<Point>, NoMemory>
    ensures { IfOk result (λ left. left.items ≡ points_left_of points.items) }
{
    points.sort_unstable_by_key(|point| point.x);
    points.dedup();
    points_apart(alloc, &points)
}

// The points whose neighbours have another x.
fn points_apart(alloc: Global, points: &[Point]) -> Result<Vec<Point>, NoMemory>
    ensures { IfOk result (λ left. left.items ≡ apart_from None points.now) }
{
    let mut left = Vec::new(alloc);
    let mut before = None;
    for (i, point) in points.iter().enumerate() {
        if is_apart(before, point.x, x_at(points, i + 1)) {
            left.push(*point)?;
        }
        before = Some(point.x);
    }
    Ok(left)
}

// The x of the point at this place.
fn x_at(points: &[Point], i: usize) -> Option<Fe>
    ensures { result ≡ option_map (λ p. p.x) (slice_get points.now i) }
{
    points.get(i).map(|point| point.x)
}

// Whether neither neighbour has this x.
fn is_apart(before: Option<Fe>, x: Fe, after: Option<Fe>) -> bool
    ensures { result ≡ (is_other before x && is_other after x) }
{
    is_other(before, x) && is_other(after, x)
}

// Whether there is no such x, or another one.
fn is_other(neighbour: Option<Fe>, x: Fe) -> bool
    ensures { result ≡ is_other neighbour x }
{
    neighbour != Some(x)
}
