//! Laws of decoding. Each function does nothing: its clause is a fact about the definitions that
//! the other contracts cite.
ghost use Rattle.std.specs.Prelude.{◌≡◌, ◌↔◌, ℕ, ◌≤◌, List, length, IsNone, IfSome, IsSomeAnd};
ghost use Rattle.field61.specs.Field.{AreElements};
ghost use Rattle.poly61.specs.Poly.{SameCoefficients, AreDistinct};
ghost use Rattle.gao_decoder.specs.Decoding.{IsDecoded};
ghost use Rattle.gao_decoder.specs.Search.{decoding_of};

/// At most one polynomial is decoded.
pub fn one_decoded()
    ensures { (f g xs ys : List ℕ) (k : ℕ) → AreElements xs → AreDistinct xs →
        length xs ≡ length ys → k ≤ length xs →
        IsDecoded f xs ys k → IsDecoded g xs ys k → SameCoefficients f g }
{}

/// The search through all polynomials of degree below k finds the one that is decoded, and nothing
/// exactly where none is.
pub fn search_decodes()
    ensures found { (xs ys : List ℕ) (k : ℕ) →
        IfSome (decoding_of xs ys k) (λ f. (length f ≡ k) × IsDecoded f xs ys k) }
    ensures only { (f xs ys : List ℕ) (k : ℕ) → AreElements xs → AreDistinct xs →
        length xs ≡ length ys → k ≤ length xs →
        IsDecoded f xs ys k → IsSomeAnd (decoding_of xs ys k) (λ g. SameCoefficients g f) }
    ensures none { (xs ys : List ℕ) (k : ℕ) → IsNone (decoding_of xs ys k)
        ↔ ¬ ((f : List ℕ) × IsDecoded f xs ys k) }
{}
