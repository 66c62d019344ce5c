// The remainder sequence, down to the first remainder whose degree is low enough.
ghost use Rattle.std.specs.Prelude.{◌≡◌, ◌≢◌, ℕ, ◌<◌, ◌≤◌, ◌+◌, ◌-◌, ◌*◌, ◌^◌, length, slice_index, IfOk, IfSome, IfNone};
ghost use Rattle.field61.specs.Field.{field_product};
ghost use Rattle.poly61.specs.Poly.{HasDegree, HasDegreeBelow};
ghost use Rattle.gao_decoder.specs.Sequence.{IsTied, AreNeighbours, IsLow, IsStopped, HaveRoom};

use crate::problem::Problem;
use field61::{Fe, know_elements};
use poly61::Poly;
use star_io::NoMemory;
use std::alloc::Global;
use std::mem;

/// Two neighbours of the sequence, and their cofactors.
#[derive(Drop)]
pub(crate) struct Remainders {
    pub(crate) upper: Poly,
    pub(crate) upper_cofactor: Poly,
    pub(crate) lower: Poly,
    pub(crate) lower_cofactor: Poly,
}

// The degree of the remainder where the sequence goes on after it.
pub(crate) fn goes_on(lower: &Poly, bound: usize) -> Option<usize>
    requires { bound < 2 ^ 63 }
    ensures degree { IfSome result (HasDegree lower.now) }
    ensures on { IfSome result (λ d. bound ≤ 2 * d) }
    ensures stops { IfNone result (IsLow lower.now bound) }
{
    match lower.degree() {
        Some(degree) => {
            if degree < bound && degree < bound - degree {
                None
            } else {
                Some(degree)
            }
        }
        None => None,
    }
}

// The inverse of a coefficient.
fn inverse_at(f: &Poly, i: usize) -> Fe
    requires { slice_index f.now i ≢ 0 }
    ensures { field_product (slice_index f.now i) result ≡ 1 }
{
    f.coefficient(i).inverse().unwrap_or(Fe::ZERO)
}

// Takes multiples of the lower remainder off the upper one until its degree is the lower, and the
// same of the cofactors.
fn reduce(
    upper: &mut Poly,
    upper_cofactor: &mut Poly,
    lower: &Poly,
    lower_cofactor: &Poly,
    xs: &[Fe],
    ys: &[Fe],
    top: usize,
    low: usize,
    cofactor_top: usize,
)
    requires neighbours { AreNeighbours xs.now ys.now upper.old upper_cofactor.old lower.now
        lower_cofactor.now top cofactor_top }
    requires order { low < top }
    requires degree { HasDegree lower.now low }
    requires room { length xs.now < length upper.old }
    requires cofactor_room { length xs.now < length upper_cofactor.old }
    ensures room { length upper.new ≡ length upper.old }
    ensures cofactor_room { length upper_cofactor.new ≡ length upper_cofactor.old }
    ensures tied { IsTied upper.new upper_cofactor.new xs.now ys.now }
    ensures below { HasDegreeBelow upper.new low }
    ensures cofactor { HasDegree upper_cofactor.new (cofactor_top + (top - low)) }
{
    let inverse = inverse_at(lower, low);
    inverse.know_element();
    for shift in (0..top - low + 1).rev() {
        let c = upper.coefficient(low + shift).mul(inverse);
        upper.know();
        upper_cofactor.know();
        lower_cofactor.know();
        upper.take_off(c, shift, lower);
        upper_cofactor.take_off(c, shift, lower_cofactor);
    }
}

impl Remainders {
    pub(crate) fn with_room(alloc: Global, room: usize) -> Result<Remainders, NoMemory>
        ensures { IfOk result (λ r. HaveRoom r room) }
    {
        let upper = Poly::with_room(alloc, room)?;
        let upper_cofactor = Poly::with_room(alloc, room)?;
        let lower = Poly::with_room(alloc, room)?;
        let lower_cofactor = Poly::with_room(alloc, room)?;
        Ok(Remainders {
            upper,
            upper_cofactor,
            lower,
            lower_cofactor,
        })
    }

    /// Makes them the first two: the product of the (x - a) over the points, and the polynomial
    /// through them.
    pub(crate) fn begin(&mut self, problem: &Problem)
        requires rooms { HaveRoom self.old (length self.old.upper) }
        requires room { length problem.now.xs.now < length self.old.upper }
        ensures rooms { HaveRoom self.new (length self.old.upper) }
        ensures start { AreNeighbours problem.now.xs.now problem.now.ys.now self.new.upper self.new.upper_cofactor
            self.new.lower self.new.lower_cofactor (length problem.now.xs.now) 0 }
    {
        know_elements(problem.ys);
        self.lower
            .interpolate(&mut self.upper, problem.xs, problem.ys);
        self.upper.vanishing(problem.xs);
        self.upper_cofactor.clear();
        self.lower_cofactor.clear();
        self.lower_cofactor.set_coefficient(0, Fe::ONE);
    }

    /// Runs the sequence to the first lower remainder of degree below (n + k) / 2, and answers the
    /// degree of its cofactor.
    pub(crate) fn run_down(&mut self, problem: &Problem) -> usize
        requires start { AreNeighbours problem.now.xs.now problem.now.ys.now self.old.upper self.old.upper_cofactor
            self.old.lower self.old.lower_cofactor (length problem.now.xs.now) 0 }
        requires rooms { HaveRoom self.old (length self.old.upper) }
        requires room { length problem.now.xs.now < length self.old.upper }
        ensures rooms { HaveRoom self.new (length self.old.upper) }
        ensures stopped { IsStopped problem.now.xs.now problem.now.ys.now self.new.lower
            self.new.lower_cofactor problem.now.k result }
    {
        let Problem { xs, ys, k } = *problem;
        let bound = xs.len() + k;
        let mut top = xs.len();
        let mut cofactor_top = 0;
        while let Some(low) = goes_on(&self.lower, bound) {
            reduce(
                &mut self.upper,
                &mut self.upper_cofactor,
                &self.lower,
                &self.lower_cofactor,
                xs,
                ys,
                top,
                low,
                cofactor_top,
            );
            mem::swap(&mut self.upper, &mut self.lower);
            mem::swap(&mut self.upper_cofactor, &mut self.lower_cofactor);
            cofactor_top += top - low;
            top = low;
        }
        cofactor_top
    }
}
