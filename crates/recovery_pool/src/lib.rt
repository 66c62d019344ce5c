//! Jobs on several threads.
//!
//! [`run_jobs`] hands the jobs of a [`Job`] to workers. A worker that is free draws the number of
//! the next job from one word that all of them share, the [`Tickets`], until none is left. What
//! always holds of that word is stated by `laws`, whatever the order of the steps.
#![tactic(auto)]

mod crew;
mod entry;
mod gate;
mod job;
pub mod laws;
mod limits;
mod order;
mod pass;
mod pass_view;
mod rule;
mod run;
mod tickets;

pub use gate::{Gate, NoGate};
pub use job::Job;
pub use limits::{MAX_JOBS, MAX_WORKERS};
pub use pass::Pass;
pub use run::run_jobs;
pub use tickets::{Ticket, Tickets};

#[cfg(test)]
mod tests;
