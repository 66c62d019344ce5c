//! Numbers modulo the prime 2^61 - 1.
//!
//! The operations are those of a field: sum, difference and product are the remainders of the plain
//! ones, and each element but 0 has an inverse. `laws` says so for the crates above, which never
//! see a remainder.
#![tactic(auto)]

mod element;
mod fold;
pub mod laws;
mod sums;

pub use element::{Fe, know_elements};
pub use sums::{sum_of_products, sum_of_two};

/// The modulus, 2^61 - 1. It is prime.
pub const MODULUS: u64 = 2305843009213693951;

#[cfg(test)]
mod tests;
