use crate::pass::Pass;

/// A job's number, and the value that answers it.
#[derive(Drop)]
pub struct Entry<X> {
    pub number: u64,
    pub out: X,
}

/// What workers bring back: their pass, and an entry for each number that it drew.
#[derive(Drop)]
pub(crate) struct Shift<X> {
    pub(crate) pass: Pass,
    pub(crate) entries: Vec<Entry<X>>,
}
