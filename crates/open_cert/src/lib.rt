//! The certificates of what a stream of records opens: one for each group that its reveal tells.
//!
//! [`laws`] has what an audit of a certificate says of the groups that it speaks of.
#![tactic(auto)]

mod certified;
mod certs;
pub mod laws;
mod numbers;
mod opened;
mod ordered;

pub use certs::{Certs, certs_of};
