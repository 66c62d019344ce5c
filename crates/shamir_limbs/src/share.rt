// The share of a key at a point.
ghost use Rattle.std.specs.Prelude.{◌≡◌};
ghost use Rattle.shamir_limbs.specs.Coefficients.{values};

use crate::coefficients::Coefficients;
use field61::Fe;

/// A share: the values of the three polynomials at x.
#[derive(Clone, Copy, Debug, PartialEq, Eq)]
pub struct Point {
    pub x: Fe,
    pub y: [Fe; 3],
}

/// The values of the three polynomials at x.
pub fn share_at(coefficients: &Coefficients, x: Fe) -> [Fe; 3]
    ensures { result ≡ values coefficients.now x }
{
    let [first, second, third] = coefficients.polynomials();
    [first.value_at(x), second.value_at(x), third.value_at(x)]
}
