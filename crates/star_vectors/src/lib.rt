//! The self test: computations whose outcome is known, by a standard or at sight, done and
//! compared.
#![tactic(auto)]

mod numbers;
mod outcome;
mod vectors;

pub use outcome::{Passed, SelfTestError, self_test};
