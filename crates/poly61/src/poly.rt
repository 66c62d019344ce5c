ghost use Rattle.std.specs.Prelude.{IsTrue, false, ◌≡◌, ◌≢◌, ◌⊎◌, ◌↔◌, ℕ, ◌<◌, ◌≤◌, ◌+◌, ◌-◌, length, slice_index, slice_set, Some, IsNone, IfOk};
ghost use Rattle.field61.specs.Field.{field_difference, field_product, field_power, AreElements};
ghost use Rattle.field61.specs.declared.TheConstants.{MODULUS};
ghost use Rattle.poly61.specs.Poly.{value, IsZero, HasDegree, HasDegreeBelow, SameCoefficients, IsLinearMultiple, TakesOff, AreDistinct, PassesThrough};
ghost use Rattle.poly61.specs.Vanishing.{vanishing_of};
ghost use Rattle.poly61.specs.Blocks.{ArePowers, IsBlend, AddsProduct, AddsShifted, Subtracts};

use crate::blocks::{add_product_all, blend_all, fill_powers, value_in_blocks};
use crate::coefficients::{
    clear_all, copy_all, copy_run, divide_all, places_of, take_off_all, times_linear_all, value_of,
};
use field61::{Fe, know_elements};
use star_io::NoMemory;
use std::alloc::Global;
use std::marker::Model;

// Up to so many places the value is taken by Horner's rule, and in blocks above.
const FEW_PLACES: usize = 64;

/// A polynomial, seen as the list of its coefficients from the lowest. The list is as long as the
/// room, so zeros at its end don't count. Only [`Poly::with_room`] takes memory.
#[derive(Drop)]
pub struct Poly {
    coefficients: Vec<Fe>,
    /// The coefficients from this place on are 0.
    places: usize,
}

impl Model for Poly {
    ghost use Rattle.std.specs.Prelude.{ℕ, List};
    ghost use Rattle.poly61.specs.Poly.{HoldsPlaces};

    ghost Value = { List ℕ };

    ghost view = { λ p. p.coefficients.items };

    ghost invariant = { λ p. HoldsPlaces p.coefficients.items p.places };
}

impl Poly {
    /// The zero polynomial.
    pub fn with_room(alloc: Global, room: usize) -> Result<Poly, NoMemory>
        ensures room { IfOk result (λ f. length f ≡ room) }
        ensures zero { IfOk result IsZero }
    {
        let coefficients = vec![in alloc; Fe::ZERO; room]?;
        Ok(Poly {
            coefficients,
            places: 0,
        })
    }

    /// How many coefficients have room.
    pub fn room(&self) -> usize
        ensures { result ≡ length self.now }
    {
        self.coefficients.len()
    }

    /// Makes it known in proofs that each coefficient is below the modulus, as `know_elements` does
    /// of a slice.
    pub fn know(&self)
        ensures { AreElements self.now }
    {
        let _ = &self.coefficients;
    }

    /// The coefficient of x^i: 0 past the room.
    pub fn coefficient(&self, i: usize) -> Fe
        ensures coefficient { result ≡ slice_index self.now i }
        ensures below { result < MODULUS }
    {
        if i < self.coefficients.len() {
            self.coefficients[i]
        } else {
            Fe::ZERO
        }
    }

    pub fn set_coefficient(&mut self, i: usize, c: Fe)
        requires { i < length self.old }
        ensures { self.new ≡ slice_set self.old i c }
    {
        c.know_element();
        self.coefficients[i] = c;
        self.places = self.places.max(i + 1);
    }

    /// Makes it the zero polynomial.
    pub fn clear(&mut self)
        ensures room { length self.new ≡ length self.old }
        ensures zero { IsZero self.new }
    {
        clear_all(&mut self.coefficients, self.places);
        self.places = 0;
    }

    pub fn copy_from(&mut self, other: &Poly)
        requires { HasDegreeBelow other.now (length self.old) }
        ensures room { length self.new ≡ length self.old }
        ensures same { SameCoefficients self.new other.now }
    {
        copy_all(&mut self.coefficients, &other.coefficients);
        self.places = other.places.min(self.coefficients.len());
    }

    pub fn degree(&self) -> Option<usize>
        ensures none { IsNone result ↔ IsZero self.now }
        ensures some { (d : ℕ) → (result ≡ Some d) ↔ HasDegree self.now d }
    {
        places_of(&self.coefficients, self.places).checked_sub(1)
    }

    pub fn value_at(&self, x: Fe) -> Fe
        ensures value { result ≡ value self.now x }
        ensures below { result < MODULUS }
    {
        if self.places <= FEW_PLACES {
            return value_of(&self.coefficients[..self.places], x);
        }
        let mut powers = [Fe::ONE; 32];
        let top = fill_powers(&mut powers, x);
        value_in_blocks(&self.coefficients, self.places, &powers, top, x)
    }

    /// The value at x, by the powers of x up to x^31.
    pub fn value_by(&self, powers: &[Fe], top: Fe, x: Fe) -> Fe
        requires many { length powers.now ≡ 32 }
        requires powers { ArePowers powers.now x }
        requires top { top ≡ field_power x 32 }
        ensures value { result ≡ value self.now x }
        ensures below { result < MODULUS }
    {
        value_in_blocks(&self.coefficients, self.places, powers, top, x)
    }

    /// Makes it c · itself + d · other, if there is room. It may return true for rooms that differ.
    pub fn blend(&mut self, c: Fe, d: Fe, other: &Poly) -> bool
        ensures room { length self.new ≡ length self.old }
        ensures one_room { length other.now ≡ length self.old → IsTrue result }
        ensures kept { result ≡ false → self.new ≡ self.old }
        ensures blend { IsTrue result → IsBlend self.old self.new c d other.now }
    {
        let room = self.coefficients.len();
        if other.places > room || self.places > other.coefficients.len() {
            return false;
        }
        self.places = blend_all(
            &mut self.coefficients,
            self.places,
            c,
            d,
            &other.coefficients,
            other.places,
        );
        true
    }

    /// Adds the product of f and g, if there is room. `work` needs room for g. It may return true
    /// with less room, if the highest coefficients are 0.
    pub fn add_product(&mut self, f: &Poly, g: &Poly, work: &mut [Fe]) -> bool
        ensures room { length self.new ≡ length self.old }
        ensures fits { length f.now + length g.now ≤ length self.old + 1 →
            length g.now ≤ length work.old → IsTrue result }
        ensures kept { result ≡ false → self.new ≡ self.old }
        ensures product { IsTrue result → AddsProduct self.old self.new f.now g.now }
    {
        if f.places == 0 || g.places == 0 {
            return true;
        }
        let reach = f.places + g.places - 1;
        if self.coefficients.len() < reach || work.len() < g.places {
            return false;
        }
        self.places = add_product_all(
            &mut self.coefficients,
            self.places,
            &f.coefficients,
            f.places,
            &g.coefficients,
            g.places,
            work,
        );
        true
    }

    /// How many coefficients count: the last of them is not 0.
    pub(crate) fn places(&self) -> usize
        ensures within { result ≤ length self.now }
        ensures below { HasDegreeBelow self.now result }
    {
        self.places
    }

    /// Makes it these places of the other one, if there is room.
    pub(crate) fn copy_places(&mut self, other: &Poly, from: usize, to: usize) -> bool
        ensures order { IsTrue result → from ≤ to }
        ensures places { IsTrue result → (i : ℕ) → i < to - from →
            slice_index self.new i ≡ slice_index other.now (from + i) }
        ensures below { IsTrue result → HasDegreeBelow self.new (to - from) }
    {
        if from > to || to > other.coefficients.len() || to - from > self.coefficients.len() {
            return false;
        }
        let run = &other.coefficients[from..to];
        know_elements(run);
        self.places = copy_run(&mut self.coefficients, run);
        true
    }

    /// Adds x^shift · other, if there is room.
    pub(crate) fn add_shifted(&mut self, shift: usize, other: &Poly) -> bool
        ensures { IsTrue result → AddsShifted self.old self.new shift other.now }
    {
        let room = self.coefficients.len();
        if other.places > room || shift > room - other.places {
            return false;
        }
        self.know();
        self.take_off(Fe::ONE.neg(), shift, other);
        true
    }

    /// Subtracts the other one, if there is room.
    pub(crate) fn subtract(&mut self, other: &Poly) -> bool
        ensures { IsTrue result → Subtracts self.old self.new other.now }
    {
        if other.places > self.coefficients.len() {
            return false;
        }
        self.know();
        self.take_off(Fe::ONE, 0, other);
        true
    }

    /// Multiplies by (x - a), if there is room.
    pub fn times_linear_if_room(&mut self, a: Fe) -> bool
        ensures room { length self.new ≡ length self.old }
        ensures exactly { IsTrue result ↔ HasDegreeBelow self.old (length self.old - 1) }
        ensures product { IsTrue result → IsLinearMultiple self.new self.old a 0 }
        ensures kept { result ≡ false → self.new ≡ self.old }
    {
        let room = self.coefficients.len();
        if room > 0 && self.coefficients[room - 1].value() != 0 {
            return false;
        }
        self.times_linear(a);
        true
    }

    /// Makes it the polynomial 1, if there is room.
    pub fn become_one(&mut self) -> bool
        ensures room { length self.new ≡ length self.old }
        ensures exactly { IsTrue result ↔ 0 < length self.old }
        ensures one { IsTrue result → slice_index self.new 0 ≡ 1 }
        ensures below { IsTrue result → HasDegreeBelow self.new 1 }
        ensures kept { result ≡ false → self.new ≡ self.old }
    {
        if self.coefficients.is_empty() {
            return false;
        }
        self.set_one();
        true
    }

    /// Multiplies by (x - a).
    pub fn times_linear(&mut self, a: Fe)
        requires { HasDegreeBelow self.old (length self.old - 1) }
        ensures room { length self.new ≡ length self.old }
        ensures product { IsLinearMultiple self.new self.old a 0 }
    {
        let places = self.coefficients.len().min(self.places + 1);
        times_linear_all(&mut self.coefficients, places, a);
        self.places = places;
    }

    /// Takes off c · x^shift · other.
    pub fn take_off(&mut self, c: Fe, shift: usize, other: &Poly)
        requires { (c ≡ 0) ⊎ HasDegreeBelow other.now (length self.old - shift) }
        ensures room { length self.new ≡ length self.old }
        ensures taken { TakesOff self.old self.new c shift other.now }
    {
        let other = &other.coefficients[..other.places];
        self.places = take_off_all(&mut self.coefficients, self.places, c, shift, other);
    }

    /// Divides by (x - a): it becomes the quotient, and the remainder is returned.
    pub fn divide_linear(&mut self, a: Fe) -> Fe
        ensures room { length self.new ≡ length self.old }
        ensures remainder { result ≡ value self.old a }
        ensures quotient { IsLinearMultiple self.old self.new a result }
        ensures below { result < MODULUS }
    {
        divide_all(&mut self.coefficients, self.places, a)
    }

    // Makes it the polynomial 1.
    fn set_one(&mut self)
        requires { 0 < length self.old }
        ensures room { length self.new ≡ length self.old }
        ensures one { slice_index self.new 0 ≡ 1 }
        ensures below { HasDegreeBelow self.new 1 }
    {
        self.clear();
        self.set_coefficient(0, Fe::ONE);
    }

    /// Makes it the product of the (x - a) over the list.
    pub fn vanishing(&mut self, xs: &[Fe])
        requires { length xs.now < length self.old }
        ensures room { length self.new ≡ length self.old }
        ensures product { SameCoefficients self.new (vanishing_of xs.now) }
    {
        self.set_one();
        for i in (0..xs.len()).rev() {
            self.know();
            self.times_linear(xs[i]);
        }
    }

    /// Makes it the polynomial of degree below n through the n points. It goes through one point
    /// after the other (Newton). What `work` holds then is not said.
    pub fn interpolate(&mut self, work: &mut Poly, xs: &[Fe], ys: &[Fe])
        requires distinct { AreDistinct xs.now }
        requires pairs { length xs.now ≡ length ys.now }
        requires room { length xs.now < length self.old }
        requires work_room { length xs.now < length work.old }
        ensures room { length self.new ≡ length self.old }
        ensures work_room { length work.new ≡ length work.old }
        ensures values { PassesThrough self.new xs.now ys.now }
        ensures below { HasDegreeBelow self.new (length xs.now) }
    {
        know_elements(xs);
        know_elements(ys);
        self.clear();
        work.set_one();
        for i in 0..xs.len() {
            self.pass_through(work, xs[i], ys[i]);
        }
    }

    /// Makes it pass through one more point, and `work` vanish there too. The values where `work`
    /// vanishes already don't change: this is the step of [`Poly::interpolate`].
    pub fn pass_through(&mut self, work: &mut Poly, x: Fe, y: Fe)
        requires off { value work.old x ≢ 0 }
        requires room { HasDegreeBelow work.old (length self.old) }
        requires work_room { HasDegreeBelow work.old (length work.old - 1) }
        ensures room { length self.new ≡ length self.old }
        ensures work_room { length work.new ≡ length work.old }
        ensures step { (c : ℕ) × TakesOff self.old self.new c 0 work.old }
        ensures passes { value self.new x ≡ y }
        ensures keeps { (z : ℕ) → value work.old z ≡ 0 → value self.new z ≡ value self.old z }
        ensures work { IsLinearMultiple work.new work.old x 0 }
        ensures below { (n : ℕ) → HasDegreeBelow work.old n → HasDegreeBelow self.old n →
            HasDegreeBelow self.new n }
    {
        self.know();
        y.know_element();
        if let Some(inverse) = work.value_at(x).inverse() {
            let c = self.value_at(x).sub(y).mul(inverse);
            self.take_off(c, 0, work);
            work.times_linear(x);
        }
    }
}
