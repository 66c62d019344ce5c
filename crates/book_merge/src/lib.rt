//! The books of several aggregators as one: their sum, whatever stands behind it, and the records
//! that it stands for.
//!
//! [`read_sum`] reads books one behind the other, and holds their sum and one book at a time.
//! [`records_of`] gives the records of a book. `laws` has what a book reveals.
#![tactic(auto)]

mod draining;
mod fault;
pub mod laws;
mod limits;
mod merging;
mod records;

pub use fault::{MergeError, MergeFault};
pub use limits::{MAX_BOOKS, MAX_BOOKS_BYTES};
pub use merging::read_sum;
pub use records::{BookRecords, records_of};
