//! The ChaCha20 keystream of RFC 8439.
#![tactic(auto)]

mod generator;
pub mod laws;
mod stream;

pub use stream::xor_stream;

#[cfg(test)]
mod tests;
