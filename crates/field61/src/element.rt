// The elements of the field, and their arithmetic.
ghost use Rattle.std.specs.Prelude.{◌≡◌, ◌<◌, ◌↔◌, ◌%◌, ℕ, length, slice_index, IsSome, IsNone, IfSome};
ghost use Rattle.field61.specs.declared.TheConstants.{MODULUS};
ghost use Rattle.field61.specs.Field.{field_sum, field_difference, field_negative, field_product, field_power, AreElements};

use crate::MODULUS;
use crate::fold::{folded, folded_sum, reduced};
use std::marker::Model;

/// A field element: a number below `MODULUS`.
#[derive(Clone, Copy, Debug, PartialEq, Eq, Hash, PartialOrd, Ord)]
pub struct Fe {
    value: u64,
}

impl Model for Fe {
    ghost use Rattle.std.specs.Prelude.{ℕ, ◌<◌};
    ghost use Rattle.field61.specs.declared.TheConstants.{MODULUS};

    ghost Value = { ℕ };

    ghost view = { λ a. a.value };

    ghost invariant = { λ a. a.value < MODULUS };

    ghost inverse = { λ n. record { value = n } };
}

#[tactic(auto, unfolding(crate::specs::Field::field_sum, crate::specs::Field::field_difference, crate::specs::Field::field_negative, crate::specs::Field::field_product, crate::specs::Field::field_power))]
impl Fe {
    pub const ZERO: Fe = Fe { value: 0 };

    pub const ONE: Fe = Fe { value: 1 };

    /// The element that is this number. `None` if the number is at or above the modulus, so
    /// that no element has a second spelling.
    pub fn new(n: u64) -> Option<Fe>
        ensures below { IsSome result ↔ (n < MODULUS) }
        ensures same { IfSome result (λ a. a ≡ n) }
    {
        if n < MODULUS {
            Some(Fe { value: n })
        } else {
            None
        }
    }

    /// The number.
    pub fn value(self) -> u64
        ensures same { result ≡ self }
        ensures below { result < MODULUS }
    {
        self.value
    }

    /// Makes it known in proofs that the number is below the modulus.
    pub fn know_element(self)
        ensures { self < MODULUS }
    {
        let _number = self.value();
    }

    pub fn add(self, other: Fe) -> Fe
        ensures sum { result ≡ field_sum self other }
        ensures below { result < MODULUS }
    {
        Fe {
            value: reduced(self.value + other.value),
        }
    }

    pub fn sub(self, other: Fe) -> Fe
        ensures difference { result ≡ field_difference self other }
        ensures below { result < MODULUS }
    {
        Fe {
            value: reduced(self.value + MODULUS - other.value),
        }
    }

    pub fn neg(self) -> Fe
        ensures negative { result ≡ field_negative self }
        ensures below { result < MODULUS }
    {
        Fe {
            value: reduced(MODULUS - self.value),
        }
    }

    pub fn mul(self, other: Fe) -> Fe
        ensures product { result ≡ field_product self other }
        ensures below { result < MODULUS }
    {
        Fe {
            value: folded(self.value as u128 * other.value as u128),
        }
    }

    // The remainder of a number.
    pub(crate) fn of_total(total: u128) -> Fe
        ensures same { result ≡ total % MODULUS }
        ensures below { result < MODULUS }
    {
        Fe {
            value: folded_sum(total),
        }
    }

    /// The power. Its exponent is a plain number, and 0 gives 1.
    pub fn pow(self, e: u64) -> Fe
        ensures power { result ≡ field_power self e }
        ensures below { result < MODULUS }
    {
        let mut power = Fe::ONE;
        let mut square = self;
        let mut rest = e;
        while rest > 0 {
            if rest % 2 == 1 {
                power = power.mul(square);
            }
            square = square.mul(square);
            rest /= 2;
        }
        power
    }

    /// The number whose product with this one is 1. `None` for 0 alone.
    pub fn inverse(self) -> Option<Fe>
        ensures none { IsNone result ↔ (self ≡ 0) }
        ensures inverse { IfSome result (λ other. field_product self other ≡ 1) }
        ensures below { IfSome result (λ other. other < MODULUS) }
    {
        if self.value == 0 {
            None
        } else {
            Some(self.pow(MODULUS - 2))
        }
    }
}

/// Makes it known in proofs that each number of a slice is below the modulus. A proof about
/// elements in a slice has no such bound before this call, which does nothing else.
pub fn know_elements(elements: &[Fe])
    ensures { AreElements elements.now }
{
    for element in elements {
        element.know_element();
    }
}
