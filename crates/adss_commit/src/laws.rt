//! Laws of what is derived. Each function does nothing: its clause is a fact about the definitions
//! that the other contracts cite.
ghost use Rattle.std.specs.Prelude.{◌≡◌, ◌≤◌, ◌+◌, ◌*◌, ◌↔◌, ℕ, List, length, Some, IsSome, IfSome};
ghost use Rattle.field61.specs.Field.{AreElements};
ghost use Rattle.shamir_limbs.specs.KeyLine.{AreDistinct};
ghost use Rattle.report_frame.specs.declared.version.Version.{Version};
ghost use Rattle.report_frame.specs.declared.head.Head.{Head};
ghost use Rattle.shamir_limbs.specs.KeyLine.{xs_of, agreement_of_all};
ghost use Rattle.shamir_limbs.specs.Search.{key_line_of};
ghost use Rattle.shamir_limbs.specs.declared.key.Key.{Key};
ghost use Rattle.shamir_limbs.specs.declared.share.Point.{Point};
ghost use Rattle.adss_commit.specs.declared.context.Context.{Context};
ghost use Rattle.adss_commit.specs.Derivation.{box_of, body_of, derived, context_head, context_named, polynomial, Opens, opened_value};

/// The box of a box is the value again.
#[tactic(auto, using(crate::proofs::Opening::box_twice))]
pub fn box_twice()
    ensures { (version : Version) (key value : List ℕ) →
        box_of version key (box_of version key value) ≡ value }
{}

/// The head of a context opens under the context's own key.
#[tactic(auto, using(crate::proofs::Opening::own_head_opens))]
pub fn own_head_opens()
    ensures { (c : Context) → Opens (derived c).key (context_head c) c.parent c.epoch c.level }
{}

/// The key line of points of which enough lie on the polynomials of a context gives the key of the
/// context, whatever the other points are.
#[tactic(auto, using(crate::proofs::Honest::own_key))]
pub fn own_key()
    ensures { (c : Context) (points : List Point) → 1 ≤ c.k → AreElements (xs_of points) →
        AreDistinct (xs_of points) → c.k ≤ length points →
        length points + c.k ≤ 2 * agreement_of_all (polynomial c 0) (polynomial c 1)
        (polynomial c 2) points →
        key_line_of points c.k ≡ Some (record {
          key = (derived c).key;
          agree = agreement_of_all (polynomial c 0) (polynomial c 1) (polynomial c 2) points;
        }) }
{}

/// The head of a context gives its value back under its own key.
#[tactic(auto, using(crate::proofs::Honest::own_value))]
pub fn own_value()
    ensures { (c : Context) → opened_value (derived c).key (context_head c) c.parent c.epoch c.level
        ≡ Some c.value }
{}

/// A value is opened exactly if its context gives the key, the tag and the check back.
#[tactic(auto, using(crate::proofs::Honest::opened_exactly))]
pub fn opened_exactly()
    ensures { (key : Key) (head : Head) (parent : List ℕ) (epoch level : ℕ) →
        (IsSome (opened_value key head parent epoch level) ↔ Opens key head parent epoch level)
        × IfSome (opened_value key head parent epoch level) (λ v. v
        ≡ box_of head.version key.bytes head.boxed) }
{}

/// Two heads of one version that open to one value under one threshold at one place are one head.
#[tactic(auto, using(crate::proofs::Honest::one_head))]
pub fn one_head()
    ensures { (p q : Key) (a b : Head) (parent : List ℕ) (epoch level : ℕ) (value : List ℕ) →
        opened_value p a parent epoch level ≡ Some value → opened_value q b parent epoch level
        ≡ Some value → a.version ≡ b.version → a.k ≡ b.k → a ≡ b }
{}

/// A body under its keystream twice is the body again.
#[tactic(auto, using(crate::proofs::Honest::body_twice))]
pub fn body_twice()
    ensures { (key nonce body : List ℕ) → body_of key nonce (body_of key nonce body) ≡ body }
{}
