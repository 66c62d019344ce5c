//! Laws of the reveal. Each function does nothing: its clause is a fact about the definitions that
//! the other contracts cite.
ghost use Rattle.std.specs.Prelude.{◌≡◌, ℕ, List, ◌++◌, ◌∷◌, ◌≤◌, All, ◌≢◌, [], length, AllPairs};
ghost use Rattle.star_io.specs.declared.record.Record.{Record};
ghost use Rattle.report_frame.specs.Laws.{InRange};
ghost use Rattle.adss_commit.specs.declared.context.Context.{Context};
ghost use Rattle.layer_walk.specs.declared.outcome.Outcome.TheVariants.{Opened};
ghost use Rattle.layer_walk.specs.Outcomes.{outcome_at};
ghost use Rattle.star_lists.specs.Elements.{EquallyOften};
ghost use Rattle.layer_walk.specs.Laws.{outside_of, reports, first_frames, honest, IsHonest, SameGroups, SameWalk, TellAlike, ExtrasAlike, RefuseAlike, by_number, one_or_none, AreByteRecords, IsRowAt, OnlyLacks};
ghost use Rattle.layer_walk.specs.Rows.{points_left, Row};
ghost use Rattle.layer_walk.specs.Reveal.{reveal_of, by_aux_index, by_index, by_path, first_frame, level_count, outer_of, outer_refusals, outer_rows, row_of};
ghost use Rattle.std.specs.List.{Contains, remove};
ghost use Rattle.std.specs.List.Sorted.{IsStrictlySortedBy};
ghost use Rattle.layer_walk.specs.declared.refusal.Why.{Why};
ghost use Rattle.layer_walk.specs.declared.refusal.Stage.TheVariants.{Outer};
ghost use Rattle.layer_walk.specs.declared.revealed.OpenedGroup.{OpenedGroup};
ghost use Rattle.layer_walk.specs.Levels.{rows_from};

/// Two opened groups of a reveal never have the same path.
pub fn paths_differ()
    ensures apart { (e : ℕ) (records : List Record) →
        AllPairs (λ (g h : OpenedGroup). g.path ≢ h.path) (reveal_of e records).groups }
    ensures rise { (e : ℕ) (records : List Record) →
        IsStrictlySortedBy by_path (reveal_of e records).groups }
{}

/// A record that is refused as a record changes nothing but its refusal and the numbers behind it.
pub fn outer_refusal_alone()
    ensures { (e : ℕ) (records : List Record) (i : ℕ) (why : Why) →
        Contains (reveal_of e records).refusals (record { index = i; stage = Outer; why = why }) →
        OnlyLacks (reveal_of e records) (reveal_of e (remove records i)) i why }
{}

/// The nonce, body and seal of one row change no group, no outcome, and nothing that another row
/// holds.
pub fn bodies_apart()
    ensures { (e l : ℕ) (xs : List Row) (r s : Row) (ys : List Row) → outside_of r ≡ outside_of s →
        SameGroups e l (xs ++ r ∷ ys) (xs ++ s ∷ ys) }
{}

/// Rows with the same parents and frames, each equally often, give the same groups, and again rows
/// with the same parents and frames, each equally often.
pub fn order_apart()
    ensures { (e l : ℕ) (xs ys : List Row) → EquallyOften (reports xs) (reports ys) →
        SameWalk e l xs ys }
{}

/// Records with the same frames, each equally often, tell the same groups, levels and number of
/// rows, and the same extra bytes of each level, each equally often. The same records in another
/// order have the same frames so, and refuse equally often for each stage and reason too.
pub fn records_apart()
    ensures told { (e : ℕ) (rs qs : List Record) →
        EquallyOften (first_frames e rs) (first_frames e qs) →
        TellAlike (reveal_of e rs) (reveal_of e qs) }
    ensures extras { (e : ℕ) (rs qs : List Record) →
        EquallyOften (first_frames e rs) (first_frames e qs) →
        ExtrasAlike (reveal_of e rs) (reveal_of e qs) }
    ensures frames { (e : ℕ) (rs qs : List Record) → EquallyOften rs qs →
        EquallyOften (first_frames e rs) (first_frames e qs) }
    ensures refusals { (e : ℕ) (rs qs : List Record) → EquallyOften rs qs →
        RefuseAlike (reveal_of e rs) (reveal_of e qs) }
{}

/// Honest points with at most (n - k) / 2 wrong ones open to the honest value.
pub fn honest_points()
    ensures { (c : Context) (rows : List Row) (row : Row) → 1 ≤ c.k →
        All (λ (r : Row). InRange r.frame) rows → IsHonest c rows row →
        outcome_at c.epoch c.level rows row ≡ Opened c.value (honest c (points_left rows row)) }
{}

/// Each row of each level is a frame of the epoch and that level, and there are no more levels than
/// a frame can name.
pub fn rows_framed()
    ensures frames { (e : ℕ) (records : List Record) → AreByteRecords records → (l : ℕ) →
        All (IsRowAt e l) (rows_from e (outer_rows e records) l) }
    ensures levels { (e : ℕ) (records : List Record) → AreByteRecords records →
        rows_from e (outer_rows e records) level_count ≡ [] }
{}

/// The numbers of the refusals rise strictly: a record is refused at most once. So do the numbers
/// of the rows of each level, and those of the extra bytes.
pub fn refused_once()
    ensures refusals { (e : ℕ) (records : List Record) →
        IsStrictlySortedBy by_index (reveal_of e records).refusals }
    ensures rows { (e : ℕ) (records : List Record) (l : ℕ) →
        IsStrictlySortedBy by_number (rows_from e (outer_rows e records) l) }
    ensures aux { (e : ℕ) (records : List Record) →
        IsStrictlySortedBy by_aux_index (reveal_of e records).aux }
{}

/// One more record puts its row or its refusal last.
pub fn one_more_record()
    ensures rows { (e : ℕ) (records : List Record) (r : Record) →
        outer_rows e (records ++ r ∷ [])
        ≡ outer_rows e records ++ one_or_none (row_of (length records) (first_frame e r)) }
    ensures refusals { (e : ℕ) (records : List Record) (r : Record) →
        outer_refusals e (records ++ r ∷ [])
        ≡ outer_refusals e records ++ one_or_none (outer_of (length records) (first_frame e r)) }
{}
