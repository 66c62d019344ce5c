//! What the stream of a table reveals: the prefixes that enough of its rows begin with, if its
//! reports don't conflict with each other.
//!
//! `specs/` has the prefixes in Prefixes, the layers of a row's report in Layers, and in Clear what
//! two reports must not share; `laws` has what follows from them.
#![tactic(auto)]

mod clear;
mod counts;
mod derived;
mod expecting;
mod firsts;
mod fronts;
mod heads;
pub mod laws;
mod points;
mod prefixes;
mod sorted;

pub use clear::is_clear;
pub use expecting::expected;
