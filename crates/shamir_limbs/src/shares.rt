// Points of which a key is to be recovered.
ghost use Rattle.std.specs.Prelude.{◌≤◌, ◌<◌, ◌^◌, length};
ghost use Rattle.poly61.specs.Poly.{AreDistinct};
ghost use Rattle.shamir_limbs.specs.KeyLine.{xs_of};

use crate::share::Point;

/// Points with distinct x, and the threshold k: wanted are polynomials of degree below k.
#[derive(Clone, Copy)]
pub(crate) struct Shares<'a> {
    pub(crate) points: &'a [Point],
    pub(crate) k: usize,
    ghost distinct: { AreDistinct (xs_of points.now) },
    ghost some: { 1 ≤ k },
    ghost threshold: { k ≤ length points.now },
    ghost few: { length points.now < 2 ^ 32 },
}
