// The polynomials that a key is shared by.
ghost use Rattle.std.specs.Prelude.{◌≡◌, ◌≤◌, ◌<◌, ◌-◌, [], ◌∷◌, length, get_or, slice_set, replicate, IfOk};
ghost use Rattle.shamir_limbs.specs.Coefficients.{constants};
ghost use Rattle.shamir_limbs.specs.Limbs.{limbs};

use crate::key::{Key, limbs_of};
use field61::Fe;
use poly61::Poly;
use star_io::NoMemory;
use std::alloc::Global;
use std::marker::Model;

/// Three polynomials, one for each limb of a key, seen as three lists of coefficients from the
/// lowest.
#[derive(Drop)]
pub struct Coefficients {
    polynomials: [Poly; 3],
}

impl Model for Coefficients {
    ghost use Rattle.std.specs.Prelude.{ℕ, List};

    ghost Value = { List (List ℕ) };

    ghost view = { λ c. c.polynomials };
}

impl Coefficients {
    /// The key's limbs as constant polynomials, each with k coefficients.
    pub fn of(alloc: Global, key: &Key, k: usize) -> Result<Coefficients, NoMemory>
        requires { 1 ≤ k }
        ensures { IfOk result (λ c. c ≡ constants (limbs key.now.bytes) k) }
    {
        let [first, second, third] = limbs_of(key);
        Ok(Coefficients {
            polynomials: [
                constant(alloc, first, k)?,
                constant(alloc, second, k)?,
                constant(alloc, third, k)?,
            ],
        })
    }

    /// Changes the coefficient of x^i of the polynomial of this limb. The constant terms stay.
    pub fn set(&mut self, limb: usize, i: usize, c: Fe)
        requires limb { limb < 3 }
        requires above { 1 ≤ i }
        requires within { i < length (get_or self.old limb []) }
        ensures { self.new ≡ slice_set self.old limb (slice_set (get_or self.old limb []) i c) }
    {
        self.polynomials[limb].set_coefficient(i, c);
    }

    /// The polynomials.
    pub(crate) fn polynomials(&self) -> &[Poly; 3]
        ensures { result.now ≡ self.now }
    {
        &self.polynomials
    }
}

// The polynomial c with k coefficients.
fn constant(alloc: Global, c: Fe, k: usize) -> Result<Poly, NoMemory>
    requires { 1 ≤ k }
    ensures { IfOk result (λ f. f ≡ c ∷ replicate (k - 1) 0) }
{
    let mut polynomial = Poly::with_room(alloc, k)?;
    polynomial.set_coefficient(0, c);
    Ok(polynomial)
}
