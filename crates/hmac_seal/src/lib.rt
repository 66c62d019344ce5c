//! HMAC with SHA-256, the seal of a report (RFC 2104, blocks of 64 bytes).
#![tactic(auto)]

mod key;
mod seal;

pub use seal::{hmac, verify};

#[cfg(test)]
mod tests;
