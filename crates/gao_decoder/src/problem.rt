// What is to be decoded.
ghost use Rattle.std.specs.Prelude.{◌≡◌, ◌≤◌, length};
ghost use Rattle.poly61.specs.Poly.{AreDistinct};

use field61::Fe;

/// Points with distinct x and as many y, and the threshold k: wanted is a polynomial of degree below k.
#[derive(Clone, Copy)]
pub(crate) struct Problem<'a> {
    pub(crate) xs: &'a [Fe],
    pub(crate) ys: &'a [Fe],
    pub(crate) k: usize,
    ghost distinct: { AreDistinct xs.now },
    ghost pairs: { length xs.now ≡ length ys.now },
    ghost some: { 1 ≤ k },
    ghost threshold: { k ≤ length xs.now },
}
