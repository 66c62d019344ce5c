//! What the rule of the ticket word is about. No value of these types is kept when the program
//! runs.

use std::collections::LinkedList;

/// What one pass has done and may do.
pub struct PassView {
    /// The numbers that it drew, in the order of its draws.
    pub drawn: LinkedList<u64>,
    /// How often it found no number left.
    pub nones: u64,
    /// Its part of all workers.
    pub share: u64,
    /// It found no number left, or took in a pass that did.
    pub spent: bool,
    /// What the word held at its last draw, 0 before the first.
    pub found: u64,
    /// How many jobs its tickets have.
    pub jobs: u64,
}

/// What the tickets are made for, which no step changes.
#[derive(Drop)]
pub struct TicketsKey {
    pub jobs: u64,
    pub workers: u64,
}
