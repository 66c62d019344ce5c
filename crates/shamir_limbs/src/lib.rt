//! Keys of 16 bytes, the three limbs of each, and its shares: points of three polynomials whose
//! values at 0 are the limbs.
#![tactic(auto)]

mod coefficients;
mod key;
mod key_work;
pub mod laws;
mod limb_work;
mod recovery;
mod share;
mod shares;

pub use coefficients::Coefficients;
pub use key::{Key, key_of, limbs_of};
pub use key_work::KeyWork;
pub use recovery::{KeyLine, Recovered, recover, recover_line, recover_short};
pub use share::{Point, share_at};

#[cfg(test)]
mod tests;
