//! Worked examples of the definitions. Each function does nothing: its clauses are values that the
//! definitions give.
ghost use Rattle.std.specs.Prelude.{◌≡◌, ◌+◌, ℕ, List, [], ◌∷◌, map, replicate, Ok, Some, None};
ghost use Rattle.star_io.specs.declared.record.Record.TheVariants.{Whole, TooLong, CutLength, CutRecord};
ghost use Rattle.star_lists.specs.Ascending.{in_order};
ghost use Rattle.report_frame.specs.declared.fault.FaultKind.TheVariants.{TooLong as TooLongFrame, Truncated};
ghost use Rattle.report_frame.specs.declared.limits.TheConstants.{MAX_EXTRA};
ghost use Rattle.report_frame.specs.declared.version.Version.TheVariants.{One, Two};
ghost use Rattle.report_frame.specs.Reading.{decoded};
ghost use Rattle.tag_groups.specs.Left.{points_left_of};
ghost use Rattle.layer_walk.specs.declared.outcome.Outcome.TheVariants.{Opened, Few, NoLine, BadValue};
ghost use Rattle.layer_walk.specs.declared.refusal.Stage.TheVariants.{Outer};
ghost use Rattle.layer_walk.specs.declared.refusal.Why.TheVariants.{Frame, CutLength as CutLengthWhy, CutRecord as CutRecordWhy, WrongEpoch, WrongLevel, WrongVersion, BodyKind, BodyTail};
ghost use Rattle.layer_walk.specs.Bodies.{aux_in};
ghost use Rattle.layer_walk.specs.Examples.{point, step, told_at, plain_head, plain_parent, row_under, rows_shown, keys_with, frame_at};
ghost use Rattle.layer_walk.specs.Laws.{member_numbers};
ghost use Rattle.layer_walk.specs.Levels.{counts_of};
ghost use Rattle.layer_walk.specs.Members.{frame_for, inner_or_refused, opened_body};
ghost use Rattle.layer_walk.specs.Members.Next.{Refused, Last, Inner};
ghost use Rattle.layer_walk.specs.Reveal.{by_path, reveal_of};
ghost use Rattle.layer_walk.specs.Rows.{first_members, Row};

/// Of the points of a group, one that stands twice is left once, and points of one x that differ in
/// any limb of y are all gone. The x of those left rise.
pub fn points_left_shown()
    ensures { points_left_of (point 9 1 1 1 ∷ point 7 1 1 1 ∷ point 5 1 2 3 ∷ point 7 1 1 2 ∷ point
        5 1 2 3 ∷ point 6 1 1 1 ∷ point 6 1 2 1 ∷ point 8 1 1 1 ∷ point 8 2 1 1 ∷ point 2 4 5 6 ∷
        [])
        ≡ point 2 4 5 6 ∷ point 5 1 2 3 ∷ point 9 1 1 1 ∷ [] }
{}

/// Rows that differ in any part of parent or head stand in groups of their own, and nothing else
/// tells rows apart. The groups stand in the order of their first members.
pub fn groups_shown()
    ensures firsts { map (λ (r : Row). r.index) (first_members rows_shown)
        ≡ 3 ∷ 5 ∷ 6 ∷ 7 ∷ 8 ∷ 9 ∷ 10 ∷ 11 ∷ 12 ∷ 13 ∷ 14 ∷ [] }
    ensures members { member_numbers rows_shown (row_under plain_parent plain_head 0)
        ≡ 3 ∷ 4 ∷ 15 ∷ [] }
{}

/// Steps rise by value, then by threshold, then by version, and a path stands before each that
/// begins with it.
pub fn paths_shown()
    ensures { in_order by_path (
        told_at (step (1 ∷ []) 3 One ∷ [])
        ∷ told_at (step (1 ∷ []) 2 One ∷ step (1 ∷ []) 2 One ∷ [])
        ∷ told_at (step (2 ∷ []) 2 One ∷ [])
        ∷ told_at (step (1 ∷ []) 2 Two ∷ [])
        ∷ told_at (step (1 ∷ []) 2 One ∷ [])
        ∷ told_at (step (1 ∷ 0 ∷ []) 2 One ∷ [])
        ∷ told_at (step (1 ∷ []) 2 One ∷ step (9 ∷ []) 9 Two ∷ []) ∷ [])
        ≡ told_at (step (1 ∷ []) 2 One ∷ [])
        ∷ told_at (step (1 ∷ []) 2 One ∷ step (1 ∷ []) 2 One ∷ [])
        ∷ told_at (step (1 ∷ []) 2 One ∷ step (9 ∷ []) 9 Two ∷ [])
        ∷ told_at (step (1 ∷ []) 2 Two ∷ [])
        ∷ told_at (step (1 ∷ []) 3 One ∷ [])
        ∷ told_at (step (1 ∷ 0 ∷ []) 2 One ∷ [])
        ∷ told_at (step (2 ∷ []) 2 One ∷ []) ∷ [] }
{}

/// A plain body begins with the byte 0 or 1. Behind a 0 nothing stands in version 1, and at most
/// `MAX_EXTRA` bytes in version 2.
pub fn bodies_shown()
    ensures empty { opened_body (keys_with One) [] ≡ Refused BodyKind }
    ensures last { opened_body (keys_with One) (0 ∷ []) ≡ Last [] }
    ensures tail { opened_body (keys_with One) (0 ∷ 7 ∷ []) ≡ Refused BodyTail }
    ensures extra { opened_body (keys_with Two) (0 ∷ 7 ∷ 8 ∷ []) ≡ Last (7 ∷ 8 ∷ []) }
    ensures most { opened_body (keys_with Two) (0 ∷ replicate MAX_EXTRA 7)
        ≡ Last (replicate MAX_EXTRA 7) }
    ensures too_many { opened_body (keys_with Two) (0 ∷ replicate (MAX_EXTRA + 1) 7)
        ≡ Refused BodyTail }
    ensures kind { opened_body (keys_with Two) (2 ∷ 7 ∷ []) ≡ Refused BodyKind }
    ensures inner { (rest : List ℕ) → opened_body (keys_with One) (1 ∷ rest)
        ≡ inner_or_refused One (frame_for 5 2 (decoded rest)) }
    ensures told { aux_in 1 4 (Last (7 ∷ 8 ∷ []))
        ≡ Some (record { index = 4; level = 1; bytes = 7 ∷ 8 ∷ [] }) }
    ensures not_told { aux_in 1 4 (Last []) ≡ None }
{}

/// The epoch is asked first, then the level, and then the version.
pub fn frames_shown()
    ensures frame { inner_or_refused One (frame_for 5 2 (Ok (frame_at One 5 2)))
        ≡ Inner (frame_at One 5 2) }
    ensures epoch { inner_or_refused One (frame_for 5 2 (Ok (frame_at Two 6 3)))
        ≡ Refused WrongEpoch }
    ensures level { inner_or_refused One (frame_for 5 2 (Ok (frame_at Two 5 3)))
        ≡ Refused WrongLevel }
    ensures version { inner_or_refused One (frame_for 5 2 (Ok (frame_at Two 5 2)))
        ≡ Refused WrongVersion }
{}

/// The groups of a level are counted by how they came out, and a level with no group has no counts.
pub fn counts_shown()
    ensures counts { counts_of (NoLine ∷ Few ∷ BadValue ∷ Opened (1 ∷ []) 3 ∷ BadValue ∷ NoLine ∷
        BadValue ∷ NoLine ∷ BadValue ∷ Few ∷ [])
        ≡ record { opened = 1; few = 2; no_line = 3; bad_value = 4 } ∷ [] }
    ensures none { counts_of [] ≡ [] }
{}

/// Records that are no frames are refused in their order, each by what is wrong with it, and there
/// is no row and no level. Of no records nothing is told.
pub fn refusals_shown()
    ensures refused { reveal_of 1 (TooLong 5000 ∷ Whole [] ∷ CutRecord 9 3 ∷ CutLength 2 ∷ [])
        ≡ record {
          records = 4;
          rows = 0;
          groups = [];
          levels = [];
          refusals = record { index = 0; stage = Outer; why = Frame TooLongFrame }
              ∷ record { index = 1; stage = Outer; why = Frame Truncated }
              ∷ record { index = 2; stage = Outer; why = CutRecordWhy }
              ∷ record { index = 3; stage = Outer; why = CutLengthWhy } ∷ [];
          aux = [];
        } }
    ensures nothing { reveal_of 1 []
        ≡ record { records = 0; rows = 0; groups = []; levels = []; refusals = []; aux = [] } }
{}
