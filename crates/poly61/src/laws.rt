//! Laws of polynomials. Each function does nothing: its clause is a fact about the definitions that
//! the other contracts cite.
ghost use Rattle.std.specs.Prelude.{◌≡◌, ℕ, ◌<◌, ◌≤◌, ◌+◌, List, length, slice_index, All};
ghost use Rattle.field61.specs.Field.{field_product, field_power, AreElements};
ghost use Rattle.field61.specs.declared.TheConstants.{MODULUS};
ghost use Rattle.field61.specs.Sums.{field_total};
ghost use Rattle.poly61.specs.Poly.{value, HasDegree, HasDegreeBelow, SameCoefficients, AreDistinct};
ghost use Rattle.poly61.specs.Vanishing.{vanishing_of, difference_product, IsVanishingMultiple};

/// The value at x is the sum of the c_i · x^i.
#[tactic(auto, using(crate::proofs::PolynomialLaws::value_is_sum))]
pub fn value_is_sum()
    ensures { (f : List ℕ) (x : ℕ) → AreElements f →
        value f x ≡ field_total (length f) (λ i.
        field_product (slice_index f i) (field_power x i)) }
{}

/// A nonzero polynomial of degree d has at most d roots.
#[tactic(auto, using(crate::proofs::PolynomialLaws::roots_are_few))]
pub fn roots_are_few()
    ensures { (f xs : List ℕ) (d : ℕ) → AreElements f → AreElements xs → AreDistinct xs →
        HasDegree f d →
        All (λ x. value f x ≡ 0) xs → length xs ≤ d }
{}

/// Two polynomials of degree below k that agree at k distinct points are equal.
#[tactic(auto, using(crate::proofs::PolynomialLaws::agreeing_are_equal))]
pub fn agreeing_are_equal()
    ensures { (f g xs : List ℕ) → AreElements f → AreElements g → AreElements xs → AreDistinct xs →
        HasDegreeBelow f (length xs) → HasDegreeBelow g (length xs) →
        All (λ x. value f x ≡ value g x) xs → SameCoefficients f g }
{}

/// The values determine the coefficients, if there are no more places than field elements.
#[tactic(auto, using(crate::proofs::PolynomialLaws::values_determine))]
pub fn values_determine()
    ensures { (f g : List ℕ) → AreElements f → AreElements g →
        HasDegreeBelow f MODULUS → HasDegreeBelow g MODULUS →
        ((x : ℕ) → x < MODULUS → value f x ≡ value g x) → SameCoefficients f g }
{}

/// The product of the (x - a) has at z the value of the product of the z - a.
#[tactic(auto, using(crate::proofs::Products::vanishing_value))]
pub fn vanishing_value()
    ensures { (xs : List ℕ) (z : ℕ) → value (vanishing_of xs) z ≡ difference_product xs z }
{}

/// The product of the (x - a) over n points has degree n, and its last coefficient is 1.
#[tactic(auto, using(crate::proofs::PolynomialLaws::vanishing_degree))]
pub fn vanishing_degree()
    ensures { (xs : List ℕ) → HasDegree (vanishing_of xs) (length xs)
        × (slice_index (vanishing_of xs) (length xs) ≡ 1) }
{}

/// The product of the (x - a) vanishes at each of the points.
#[tactic(auto, using(crate::proofs::PolynomialLaws::vanishing_vanishes))]
pub fn vanishing_vanishes()
    ensures { (xs : List ℕ) → All (λ x. value (vanishing_of xs) x ≡ 0) xs }
{}

/// A polynomial that vanishes at distinct points is a multiple of the product of the (x - a).
#[tactic(auto, using(crate::proofs::PolynomialLaws::vanishing_divides))]
pub fn vanishing_divides()
    ensures { (f xs : List ℕ) → AreElements f → AreElements xs → AreDistinct xs →
        All (λ x. value f x ≡ 0) xs → IsVanishingMultiple f xs }
{}
