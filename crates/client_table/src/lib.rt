//! Reading the tables of clients, rows of values and in version 2 of extra bytes, as
//! comma-separated text.
#![tactic(auto)]

pub mod laws;
mod read;
mod read2;
mod records;
mod row;

pub use read::{MAX_ROWS, TableError, read_table};
pub use read2::read_table2;

#[cfg(test)]
mod tests;
