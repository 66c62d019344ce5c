//! Laws of limbs. Each function does nothing: its clause is a fact about the definitions that the
//! other contracts cite.
ghost use Rattle.std.specs.Prelude.{◌≡◌, ◌≤◌, ◌↔◌, ℕ, List, length, Some, IsNone, IfSome};
ghost use Rattle.field61.specs.Field.{AreElements};
ghost use Rattle.poly61.specs.Poly.{AreDistinct};
ghost use Rattle.shamir_limbs.specs.KeyLine.{xs_of, values_at_zero, IsKeyLine, IsRecoveredFrom, AreSame};
ghost use Rattle.shamir_limbs.specs.Limbs.{limbs, key_bytes, IsKey, AreLimbs, HaveOneKey};
ghost use Rattle.shamir_limbs.specs.Search.{recovered_from, key_line_of};
ghost use Rattle.shamir_limbs.specs.declared.recovery.Recovered.{Recovered};
ghost use Rattle.shamir_limbs.specs.declared.share.Point.{Point};

/// The limbs of a key are in range, and give its 16 bytes back.
#[tactic(auto, using(crate::proofs::LimbLaws::limbs_come_back))]
pub fn limbs_come_back()
    ensures { (key : List ℕ) → IsKey key → AreLimbs (limbs key) × (key_bytes (limbs key) ≡ key) }
{}

/// No two keys have the same limbs.
#[tactic(auto, using(crate::proofs::LimbLaws::same_limbs))]
pub fn same_limbs()
    ensures { (a b : List ℕ) → IsKey a → IsKey b → limbs a ≡ limbs b → a ≡ b }
{}

/// Three numbers in range are the limbs of exactly one key.
pub fn one_key()
    ensures { (numbers : List ℕ) → length numbers ≡ 3 → AreLimbs numbers → HaveOneKey numbers }
{}

/// At most one triple of polynomials is a key line through points of distinct x.
pub fn one_key_line()
    ensures { (q0 q1 q2 r0 r1 r2 : List ℕ) (points : List Point) (k : ℕ) →
        AreElements (xs_of points) → AreDistinct (xs_of points) → k ≤ length points →
        IsKeyLine q0 q1 q2 points k → IsKeyLine r0 r1 r2 points k → AreSame q0 q1 q2 r0 r1 r2 }
{}

/// The search through all triples of polynomials of degree below k finds the key and the agreement
/// of the key line, and nothing exactly where there is none.
pub fn search_recovers()
    ensures found { (points : List Point) (k : ℕ) →
        IfSome (key_line_of points k) (λ r. (q0 : List ℕ) × (q1 : List ℕ) × (q2 : List ℕ)
        × IsKeyLine q0 q1 q2 points k × (r ≡ recovered_from q0 q1 q2 points)) }
    ensures only { (q0 q1 q2 : List ℕ) (points : List Point) (k : ℕ) → AreElements (xs_of points) →
        AreDistinct (xs_of points) → k ≤ length points →
        IsKeyLine q0 q1 q2 points k → key_line_of points k ≡ Some (recovered_from q0 q1 q2 points) }
    ensures none { (points : List Point) (k : ℕ) → IsNone (key_line_of points k)
        ↔ ¬ ((q0 : List ℕ) × (q1 : List ℕ) × (q2 : List ℕ) × IsKeyLine q0 q1 q2 points k) }
{}

/// Polynomials with the limbs of a key as their values at 0 give one key of 16 bytes and one
/// agreement.
pub fn one_recovered()
    ensures { (r : Recovered) (q0 q1 q2 : List ℕ) (points : List Point) → IsKey r.key.bytes →
        AreLimbs (values_at_zero q0 q1 q2) →
        IsRecoveredFrom r q0 q1 q2 points ↔ (r ≡ recovered_from q0 q1 q2 points) }
{}
