//! Words and lemmas on lists, which the standard library lacks and several crates want. It has no
//! code: `specs` has the words, and `proofs` what holds of them.
#![tactic(auto)]
