// Sums of products, reduced once for many of them.
ghost use Rattle.std.specs.Prelude.{◌≡◌, ◌<◌, ◌≤◌, ◌+◌, ◌*◌, ◌%◌, ◌^◌, ℕ, length, slice_index};
ghost use Rattle.field61.specs.declared.TheConstants.{MODULUS};
ghost use Rattle.field61.specs.Field.{field_sum, field_product};
ghost use Rattle.field61.specs.Sums.{plain_total, field_total};

use crate::element::Fe;

/// The sum a · b + c · d.
pub fn sum_of_two(a: Fe, b: Fe, c: Fe, d: Fe) -> Fe
    ensures sum { result ≡ field_sum (field_product a b) (field_product c d) }
    ensures below { result < MODULUS }
{
    let first = a.value() as u128 * b.value() as u128;
    let second = c.value() as u128 * d.value() as u128;
    Fe::of_total(first + second)
}

// The sum of at most 64 products.
fn few_products(a: &[Fe], from: usize, b: &[Fe], other: usize, n: usize) -> Fe
    requires few { n ≤ 64 }
    requires first { from + n ≤ length a.now }
    requires second { other + n ≤ length b.now }
    ensures sum { result ≡ field_total n (λ i.
        field_product (slice_index a.now (from + i)) (slice_index b.now (other + i))) }
    ensures below { result < MODULUS }
{
    let mut total: u128 = 0;
    for i in 0..n {
        total += a[from + i].value() as u128 * b[other + i].value() as u128;
    }
    Fe::of_total(total)
}

/// The sum of n products of the elements of the two slices from these places on.
pub fn sum_of_products(a: &[Fe], from: usize, b: &[Fe], other: usize, n: usize) -> Fe
    requires first { from + n ≤ length a.now }
    requires second { other + n ≤ length b.now }
    ensures sum { result ≡ field_total n (λ i.
        field_product (slice_index a.now (from + i)) (slice_index b.now (other + i))) }
    ensures below { result < MODULUS }
{
    let whole = n / 64;
    let mut sum = few_products(a, from + 64 * whole, b, other + 64 * whole, n - 64 * whole);
    for block in (0..whole).rev() {
        sum = few_products(a, from + 64 * block, b, other + 64 * block, 64).add(sum);
    }
    sum
}
