// What a stream of records tells for an epoch.
use crate::auxiliary::Auxes;
use crate::path::Path;
use crate::refusal::Refusals;
use tag_groups::Listed;

/// An opened group.
#[derive(Debug, Drop, PartialEq, Eq)]
pub struct OpenedGroup {
    /// The steps to it, its own last.
    pub path: Path,
    /// How many points were left.
    pub points: u32,
    /// How many of them lie on the key's polynomials.
    pub agree: u32,
    /// How many reports it has.
    pub members: u32,
}

/// A list of opened groups.
pub type OpenedGroups = Listed<OpenedGroup>;

/// How many groups of a level came out in each way.
#[derive(Clone, Copy, Debug, PartialEq, Eq)]
pub struct LevelCount {
    pub opened: u32,
    pub few: u32,
    pub no_line: u32,
    pub bad_value: u32,
}

/// A list of counts, one for each level that has a row.
pub type LevelCounts = Listed<LevelCount>;

/// What a stream of records tells for an epoch.
#[derive(Drop)]
pub struct Revealed {
    /// The number of records.
    pub records: u32,
    /// The number of rows of level 0.
    pub rows: u32,
    /// The opened groups of all levels, in the order of their paths.
    pub groups: OpenedGroups,
    /// The counts of each level that has a row, the outermost first.
    pub levels: LevelCounts,
    /// The refusals, by the numbers of their records.
    pub refusals: Refusals,
    /// The extra bytes, by the numbers of their records.
    pub aux: Auxes,
}
