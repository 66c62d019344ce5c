//! What a report of one layer commits to, and all that is derived from it by hashes and keystreams.
#![tactic(auto)]

mod boxes;
mod context;
mod hash;
mod keys;
pub mod laws;
mod polynomials;
mod share;

pub use boxes::{box_value, open_value};
pub use context::{Context, Derived, derive};
pub use keys::{body_key, seal_key};
pub use polynomials::coefficients;
pub use share::share_of;

#[cfg(test)]
mod tests;
