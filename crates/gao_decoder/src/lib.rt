//! Unique decoding of a polynomial from points of which some are wrong, by a stopped remainder
//! sequence (Gao, "A new algorithm for decoding Reed-Solomon codes", 2003).
#![tactic(auto)]

mod choosing;
mod decoder;
mod halving;
pub mod laws;
mod problem;
mod sampling;
mod scratch;
mod sequence;
mod whole;

pub use decoder::{decode, decode_short, decode_through};
pub use scratch::Scratch;

#[cfg(test)]
mod tests_compare;
#[cfg(test)]
mod tests_table;
