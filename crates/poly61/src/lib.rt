//! Polynomials over the field of 2^61 - 1, in room that is reserved once.
//!
//! [`laws`] has what their contracts rest on: the value is the sum of the c_i · x^i, a nonzero
//! polynomial has no more roots than its degree, and values at enough points determine it.
#![tactic(auto)]

mod blocks;
mod coefficients;
pub mod laws;
mod poly;
mod product_room;

pub use blocks::fill_powers;
pub use poly::Poly;
pub use product_room::ProductRoom;

#[cfg(test)]
mod tests;
