// Lists of coefficients: one loop over a slice for each operation.
ghost use Rattle.std.specs.Prelude.{◌≡◌, ◌≢◌, ◌⊎◌, ℕ, ◌<◌, ◌≤◌, ◌+◌, ◌-◌, length, slice_index};
ghost use Rattle.field61.specs.Field.{field_difference, field_product, AreElements};
ghost use Rattle.poly61.specs.Poly.{value, IsZero, HasDegreeBelow, SameCoefficients, IsLinearMultiple, TakesOff};

use field61::Fe;

/// The value at x.
pub(crate) fn value_of(coefficients: &[Fe], x: Fe) -> Fe
    ensures { result ≡ value coefficients.now x }
{
    let mut sum = Fe::ZERO;
    for i in (0..coefficients.len()).rev() {
        sum = coefficients[i].add(x.mul(sum));
    }
    sum
}

/// How many of these places count: the last of them has a coefficient that is not 0.
pub(crate) fn places_of(coefficients: &[Fe], places: usize) -> usize
    requires within { places ≤ length coefficients.now }
    requires below { HasDegreeBelow coefficients.now places }
    ensures within { result ≤ places }
    ensures below { HasDegreeBelow coefficients.now result }
    ensures top { 0 < result → slice_index coefficients.now (result - 1) ≢ 0 }
{
    for i in (0..places).rev() {
        if coefficients[i].value() != 0 {
            return i + 1;
        }
    }
    0
}

pub(crate) fn clear_all(coefficients: &mut [Fe], places: usize)
    requires within { places ≤ length coefficients.old }
    requires below { HasDegreeBelow coefficients.old places }
    ensures { IsZero coefficients.new }
{
    for i in 0..places {
        coefficients[i] = Fe::ZERO;
    }
}

pub(crate) fn copy_all(coefficients: &mut [Fe], other: &[Fe])
    requires elements { AreElements other.now }
    requires room { HasDegreeBelow other.now (length coefficients.old) }
    ensures elements { AreElements coefficients.new }
    ensures same { SameCoefficients coefficients.new other.now }
{
    for i in 0..coefficients.len() {
        coefficients[i] = if i < other.len() { other[i] } else { Fe::ZERO };
    }
}

/// Copies a run of coefficients, and returns how many places count then.
pub(crate) fn copy_run(coefficients: &mut [Fe], run: &[Fe]) -> usize
    requires elements { AreElements run.now }
    requires room { length run.now ≤ length coefficients.old }
    ensures elements { AreElements coefficients.new }
    ensures same { SameCoefficients coefficients.new run.now }
    ensures within { result ≤ length coefficients.new }
    ensures below { HasDegreeBelow coefficients.new result }
{
    copy_all(coefficients, run);
    places_of(coefficients, run.len())
}

/// Multiplies by (x - a), if these places hold the product.
pub(crate) fn times_linear_all(coefficients: &mut [Fe], places: usize, a: Fe)
    requires elements { AreElements coefficients.old }
    requires within { places ≤ length coefficients.old }
    requires room { HasDegreeBelow coefficients.old (places - 1) }
    ensures elements { AreElements coefficients.new }
    ensures product { IsLinearMultiple coefficients.new coefficients.old a 0 }
    ensures below { HasDegreeBelow coefficients.new places }
{
    let mut previous = Fe::ZERO;
    for i in 0..places {
        let old = coefficients[i];
        coefficients[i] = previous.sub(a.mul(old));
        previous = old;
    }
}

/// Divides by (x - a), and returns the remainder.
pub(crate) fn divide_all(coefficients: &mut [Fe], places: usize, a: Fe) -> Fe
    requires elements { AreElements coefficients.old }
    requires within { places ≤ length coefficients.old }
    requires below { HasDegreeBelow coefficients.old places }
    ensures elements { AreElements coefficients.new }
    ensures remainder { result ≡ value coefficients.old a }
    ensures quotient { IsLinearMultiple coefficients.old coefficients.new a result }
    ensures below { HasDegreeBelow coefficients.new places }
{
    let mut carry = Fe::ZERO;
    for i in (0..places).rev() {
        let old = coefficients[i];
        coefficients[i] = carry;
        carry = old.add(a.mul(carry));
    }
    carry
}

/// Subtracts c · x^shift · other, and returns how many places count then.
pub(crate) fn take_off_all(
    coefficients: &mut [Fe],
    places: usize,
    c: Fe,
    shift: usize,
    other: &[Fe],
) -> usize
    requires elements { AreElements coefficients.old }
    requires within { places ≤ length coefficients.old }
    requires below { HasDegreeBelow coefficients.old places }
    requires room { (c ≡ 0) ⊎ HasDegreeBelow other.now (length coefficients.old - shift) }
    ensures elements { AreElements coefficients.new }
    ensures taken { TakesOff coefficients.old coefficients.new c shift other.now }
    ensures within { result ≤ length coefficients.new }
    ensures below { HasDegreeBelow coefficients.new result }
{
    let reach = shift.saturating_add(other.len()).min(coefficients.len());
    take_off_from(coefficients, c, shift, other);
    places_of(coefficients, places.max(reach))
}

fn take_off_from(coefficients: &mut [Fe], c: Fe, shift: usize, other: &[Fe])
    requires elements { AreElements coefficients.old }
    requires room { (c ≡ 0) ⊎ HasDegreeBelow other.now (length coefficients.old - shift) }
    ensures elements { AreElements coefficients.new }
    ensures taken { TakesOff coefficients.old coefficients.new c shift other.now }
{
    let room = coefficients.len().saturating_sub(shift);
    for i in 0..other.len().min(room) {
        let taken = c.mul(other[i]);
        coefficients[shift + i] = coefficients[shift + i].sub(taken);
    }
}
