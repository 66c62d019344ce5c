// Values and products by sums of products.
ghost use Rattle.std.specs.Prelude.{◌≡◌, ℕ, ◌<◌, ◌≤◌, ◌+◌, ◌-◌, ◌*◌, length, slice_index};
ghost use Rattle.field61.specs.Field.{field_sum, field_product, field_power, AreElements};
ghost use Rattle.field61.specs.declared.TheConstants.{MODULUS};
ghost use Rattle.poly61.specs.Poly.{value, HasDegreeBelow, SameCoefficients};
ghost use Rattle.poly61.specs.Blocks.{ArePowers, IsBlend, AddsProduct, product_at};

use crate::coefficients::places_of;
use field61::{Fe, sum_of_products, sum_of_two};

/// Makes them 1, x, .. x^31, and returns x^32.
pub fn fill_powers(powers: &mut [Fe], x: Fe) -> Fe
    requires { length powers.old ≡ 32 }
    ensures powers { ArePowers powers.new x }
    ensures top { result ≡ field_power x 32 }
    ensures below { result < MODULUS }
{
    x.know_element();
    powers[0] = Fe::ONE;
    powers[1] = x;
    for i in 2..powers.len() {
        powers[i] = powers[i / 2].mul(powers[i - i / 2]);
    }
    powers[31].mul(x)
}

/// The value at x of the polynomial of these places.
pub(crate) fn value_in_blocks(
    coefficients: &[Fe],
    places: usize,
    powers: &[Fe],
    top: Fe,
    x: Fe,
) -> Fe
    requires elements { AreElements coefficients.now }
    requires within { places ≤ length coefficients.now }
    requires below { HasDegreeBelow coefficients.now places }
    requires many { length powers.now ≡ 32 }
    requires powers { ArePowers powers.now x }
    requires top { top ≡ field_power x 32 }
    ensures value { result ≡ value coefficients.now x }
    ensures below { result < MODULUS }
{
    let whole = places / 32;
    let mut sum = sum_of_products(coefficients, 32 * whole, powers, 0, places - 32 * whole);
    for block in (0..whole).rev() {
        sum = sum_of_products(coefficients, 32 * block, powers, 0, 32).add(top.mul(sum));
    }
    sum
}

/// Makes it c · itself + d · other, and returns how many places count then.
pub(crate) fn blend_all(
    coefficients: &mut [Fe],
    places: usize,
    c: Fe,
    d: Fe,
    other: &[Fe],
    others: usize,
) -> usize
    requires elements { AreElements coefficients.old }
    requires within { places ≤ length coefficients.old }
    requires below { HasDegreeBelow coefficients.old places }
    requires other_below { HasDegreeBelow other.now others }
    requires room { others ≤ length coefficients.old }
    requires other_room { places ≤ length other.now }
    requires other_within { others ≤ length other.now }
    ensures elements { AreElements coefficients.new }
    ensures blend { IsBlend coefficients.old coefficients.new c d other.now }
    ensures within { result ≤ length coefficients.new }
    ensures below { HasDegreeBelow coefficients.new result }
{
    let reach = places.max(others);
    blend_places(coefficients, reach, c, d, other);
    places_of(coefficients, reach)
}

fn blend_places(coefficients: &mut [Fe], reach: usize, c: Fe, d: Fe, other: &[Fe])
    requires elements { AreElements coefficients.old }
    requires within { reach ≤ length coefficients.old }
    requires other { reach ≤ length other.now }
    ensures elements { AreElements coefficients.new }
    ensures blend { (i : ℕ) → i < reach → slice_index coefficients.new i
        ≡ field_sum (field_product (slice_index coefficients.old i) c)
        (field_product (slice_index other.now i) d) }
    ensures rest { (i : ℕ) → reach ≤ i → slice_index coefficients.new i
        ≡ slice_index coefficients.old i }
{
    for i in 0..reach {
        coefficients[i] = sum_of_two(coefficients[i], c, other[i], d);
    }
}

/// Writes the first n coefficients from the last to the first.
pub(crate) fn reverse_into(work: &mut [Fe], coefficients: &[Fe], n: usize)
    requires within { n ≤ length coefficients.now }
    requires room { n ≤ length work.old }
    ensures { (i : ℕ) → i < n → slice_index work.new i ≡ slice_index coefficients.now (n - 1 - i) }
{
    for i in 0..n {
        work[i] = coefficients[n - 1 - i];
    }
}

// The coefficient of x^t in the product. `reversed` holds the second one from its last place.
fn column(f: &[Fe], n: usize, g: &[Fe], m: usize, reversed: &[Fe], t: usize) -> Fe
    requires first { n ≤ length f.now }
    requires second { m ≤ length reversed.now }
    requires place { t + 1 < n + m }
    requires first_below { HasDegreeBelow f.now n }
    requires second_below { HasDegreeBelow g.now m }
    requires reversed { (i : ℕ) → i < m →
        slice_index reversed.now i ≡ slice_index g.now (m - 1 - i) }
    ensures product { result ≡ product_at f.now g.now t }
    ensures below { result < MODULUS }
{
    let low = (t + 1).saturating_sub(m);
    let high = n.min(t + 1);
    sum_of_products(f, low, reversed, m + low - (t + 1), high - low)
}

/// Adds the product of two polynomials, and returns how many places count then.
pub(crate) fn add_product_all(
    out: &mut [Fe],
    places: usize,
    f: &[Fe],
    n: usize,
    g: &[Fe],
    m: usize,
    work: &mut [Fe],
) -> usize
    requires elements { AreElements out.old }
    requires within { places ≤ length out.old }
    requires below { HasDegreeBelow out.old places }
    requires some { 0 < n }
    requires others { 0 < m }
    requires first { n ≤ length f.now }
    requires second { m ≤ length g.now }
    requires first_below { HasDegreeBelow f.now n }
    requires second_below { HasDegreeBelow g.now m }
    requires work { m ≤ length work.old }
    requires room { n + m - 1 ≤ length out.old }
    ensures elements { AreElements out.new }
    ensures product { AddsProduct out.old out.new f.now g.now }
    ensures within { result ≤ length out.new }
    ensures below { HasDegreeBelow out.new result }
{
    reverse_into(work, g, m);
    add_columns(out, f, n, g, m, work);
    places_of(out, places.max(n + m - 1))
}

fn add_columns(out: &mut [Fe], f: &[Fe], n: usize, g: &[Fe], m: usize, reversed: &[Fe])
    requires some { 0 < n }
    requires others { 0 < m }
    requires first { n ≤ length f.now }
    requires second { m ≤ length reversed.now }
    requires first_below { HasDegreeBelow f.now n }
    requires second_below { HasDegreeBelow g.now m }
    requires reversed { (i : ℕ) → i < m →
        slice_index reversed.now i ≡ slice_index g.now (m - 1 - i) }
    requires room { n + m - 1 ≤ length out.old }
    requires elements { AreElements out.old }
    ensures elements { AreElements out.new }
    ensures sum { (i : ℕ) → i < n + m - 1 →
        slice_index out.new i ≡ field_sum (slice_index out.old i) (product_at f.now g.now i) }
    ensures rest { (i : ℕ) → n + m - 1 ≤ i → slice_index out.new i ≡ slice_index out.old i }
{
    for t in 0..n + m - 1 {
        out[t] = out[t].add(column(f, n, g, m, reversed, t));
    }
}
