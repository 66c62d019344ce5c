//! Laws of the field, and why its modulus is prime. Each function does nothing: its clause is a
//! fact about the definitions that the other contracts cite.
ghost use Rattle.std.specs.Prelude.{◌≡◌, ◌⊎◌, ℕ, ◌+◌, ◌-◌, ◌*◌, ◌%◌, ◌^◌, ◌<◌, List, All, nat_eq, pos, ◌-ℤ◌};
ghost use Rattle.std.specs.List.{IsDistinct};
ghost use Rattle.std.specs.Int.{◌∣◌, int_rem_euclid};
ghost use Rattle.field61.specs.declared.TheConstants.{MODULUS};
ghost use Rattle.field61.specs.Field.{field_sum, field_difference, field_negative, field_product, field_power};
ghost use Rattle.field61.specs.Laws.{IsCommutativeRing, HasOneInverse};
ghost use Rattle.field61.specs.Prime.{IsPrime, HasWitness, product_of};

use crate::element::Fe;

/// The numbers that the names stand for. Its result is ZERO and ONE.
pub fn limits() -> (Fe, Fe)
    ensures modulus { MODULUS ≡ 2305843009213693951 }
    ensures zero { result.0 ≡ 0 }
    ensures one { result.1 ≡ 1 }
{
    (Fe::ZERO, Fe::ONE)
}

/// Fermat's little theorem.
pub fn fermat()
    ensures { (r a : ℕ) → IsPrime r → (r ∣ a → ⊥) → a ^ (r - 1) % r ≡ 1 }
{}

/// Pocklington's criterion, by distinct prime divisors of n - 1 whose product is about the root of
/// n or above it. That the modulus is prime is shown by it.
pub fn pocklington()
    ensures { (n : ℕ) (qs : List ℕ) → 1 < n → IsDistinct nat_eq qs → All (HasWitness n) qs →
        n < (product_of qs + 1) * (product_of qs + 1) → IsPrime n }
{}

/// The modulus is prime.
pub fn modulus_is_prime()
    ensures { IsPrime MODULUS }
{}

/// The numbers below the modulus are a commutative ring.
pub fn commutative_ring()
    ensures { IsCommutativeRing MODULUS field_sum field_product field_negative }
{}

/// They are a field: each of them but 0 has one inverse.
pub fn one_inverse()
    ensures { (a : ℕ) → a < MODULUS → (a ≡ 0 → ⊥) → HasOneInverse MODULUS field_product a }
{}

/// If a product is 0, one of its factors is.
pub fn no_zero_divisors()
    ensures { (a b : ℕ) → a < MODULUS → b < MODULUS → field_product a b ≡ 0 → (a ≡ 0) ⊎ (b ≡ 0) }
{}

/// A difference is the remainder of the difference of integers, and the sum with the negative.
pub fn differences()
    ensures below { (a b : ℕ) → field_difference a b < MODULUS }
    ensures integer { (a b : ℕ) →
        pos (field_difference a b) ≡ int_rem_euclid (pos a -ℤ pos b) (pos MODULUS) }
    ensures sum { (a b : ℕ) → field_difference a b ≡ field_sum a (field_negative b) }
{}

/// A power is a repeated product.
pub fn powers()
    ensures below { (a e : ℕ) → field_power a e < MODULUS }
    ensures zero { (a : ℕ) → field_power a 0 ≡ 1 }
    ensures next { (a e : ℕ) → field_power a (e + 1) ≡ field_product (field_power a e) a }
{}
