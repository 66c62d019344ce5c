//! Rows of a level, their groups, and the points that are left of a group.
#![tactic(auto)]

mod group;
mod grouper;
mod groups;
mod key;
pub mod laws;
mod listed;
mod points;
mod recent;
mod row;

pub use group::{Group, Groups};
pub use grouper::{Grouped, Grouper};
pub use groups::group_rows;
pub use listed::Listed;
pub use points::{Points, points_left};
pub use row::{BadRow, HeadedRow, Row, Rows};
