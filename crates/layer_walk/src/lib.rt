//! The walk over the layers of reports: how each group comes out, what its members hold, the level
//! after it, and what a stream of records tells for an epoch.
//!
//! `specs/` says all of it by functions of the records, in files that are read in this order: Rows,
//! Outcomes, Members, Bodies, Levels, Reveal. `laws` has what follows from them.
#![tactic(auto)]

mod auxiliary;
mod body;
pub mod examples;
mod group;
mod grouped;
mod held;
mod inner;
mod jobs;
mod keys;
pub mod laws;
mod level;
mod levels;
mod member;
mod outcome;
mod outer;
mod parents;
mod path;
mod refusal;
mod revealed;
mod revealing;
mod sorts;
mod tell;
mod walk;

pub use auxiliary::{Aux, Auxes};
pub use group::{GroupLine, GroupOut, open_group, open_group_line};
pub use grouped::{GroupedLevel, group_level};
pub use inner::{Inner, Inners};
pub use level::{Level, Parent, Parents, level_after, level_zero};
pub use outcome::Outcome;
pub use parents::group_path;
pub use path::{MAX_STEPS, Path, Step};
pub use refusal::{Refusal, Refusals, Stage, Why};
pub use revealed::{LevelCount, LevelCounts, OpenedGroup, OpenedGroups, Revealed};
pub use revealing::reveal;
pub use tag_groups::Rows;
pub use walk::Walk;
