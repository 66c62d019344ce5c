//! Laws of groups and of the points left. Each function does nothing: its clause is a fact about
//! the definitions that the other contracts cite.
ghost use Rattle.std.specs.Prelude.{◌≡◌, ◌≤◌, List, ℕ, length, true};
ghost use Rattle.std.specs.List.{All, AllPairs, Contains, list_any};
ghost use Rattle.shamir_limbs.specs.KeyLine.{AreDistinct};
ghost use Rattle.shamir_limbs.specs.KeyLine.{xs_of};
ghost use Rattle.shamir_limbs.specs.declared.share.Point.{Point};
ghost use Rattle.tag_groups.specs.RowView.{RowView};
ghost use Rattle.tag_groups.specs.Grouped.{in_group, groups_of};
ghost use Rattle.tag_groups.specs.Left.{points_left_of};
ghost use Rattle.tag_groups.specs.Laws.{AreMembers, AreInside, AreApart, HasRow, IsLeft};
ghost use Rattle.star_lists.specs.Elements.{SameElements};

/// The members of each group are the places of exactly the rows with its parent and head.
#[tactic(auto, using(crate::proofs::GroupLaws::are_members, crate::proofs::GroupLaws::are_inside))]
pub fn members()
    ensures rows { (rows : List RowView) → All (AreMembers rows) (groups_of rows) }
    ensures inside { (rows : List RowView) → All (AreInside rows) (groups_of rows) }
{}

/// There is one group for each parent and head that occurs, and no other.
#[tactic(auto, using(crate::proofs::GroupLaws::are_apart, crate::proofs::GroupLaws::have_rows, crate::proofs::GroupLaws::has_group, crate::proofs::Grown::few_groups))]
pub fn one_group_for_each_key()
    ensures apart { (rows : List RowView) → AllPairs AreApart (groups_of rows) }
    ensures occurs { (rows : List RowView) → All (HasRow rows) (groups_of rows) }
    ensures found { (rows : List RowView) (row : RowView) → Contains rows row →
        list_any (in_group row) (groups_of rows) ≡ true }
    ensures few { (rows : List RowView) → length (groups_of rows) ≤ length rows }
{}

/// The points left are those that no member has with another y. They differ in x.
#[tactic(auto, using(crate::proofs::LeftLaws::distinct_left, crate::proofs::LeftLaws::few_left))]
pub fn points_left()
    ensures left { (points : List Point) (p : Point) → IsLeft points p }
    ensures distinct { (points : List Point) → AreDistinct (xs_of (points_left_of points)) }
    ensures few { (points : List Point) → length (points_left_of points) ≤ length points }
{}

/// Neither the order of points nor how often one occurs counts.
#[tactic(auto, using(crate::proofs::LeftLaws::same_left))]
pub fn same_points_left()
    ensures { (xs ys : List Point) → SameElements xs ys → points_left_of xs ≡ points_left_of ys }
{}
