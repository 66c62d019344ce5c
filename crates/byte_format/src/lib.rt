//! Formats of bytes as data, and reading bytes by them. It has no code: `specs` has the words, and
//! `proofs` what holds of them.
#![tactic(auto)]
