//! One stream with reports of many epochs: what the reports of each epoch reveal, as if there were
//! no others.
//!
//! `specs/` says it by filters of the list of records, in files that are read in this order: Parts,
//! Epochs, Standing. `laws` has what follows.
#![tactic(auto)]

mod epochs_out;
pub mod laws;
mod part;
mod revealing;
mod sorting;
mod stray;
mod walk;
mod walks;

pub use epochs_out::EpochsOut;
pub use part::{EpochPart, EpochParts};
pub use stray::{Stray, Strays};
pub use walk::EpochWalk;
