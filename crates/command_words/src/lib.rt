//! The words of the command line, and the commands that they ask for.
#![tactic(auto)]

mod books;
mod certify;
mod command;
mod epochs;
mod expect;
mod generate;
pub mod laws;
mod make;
mod numbers;
mod options;
mod reveal;
mod seed;
mod thresholds;
mod verb;
mod version;
mod words;
mod workers;

pub use command::{Command, WordsError, words_of};
pub use generate::{MAX_LIARS, MAX_REPORTS};
pub use seed::SEED_BYTES;
pub use thresholds::Thresholds;
pub use words::Words;
pub use workers::DEFAULT_WORKERS;

#[cfg(test)]
mod tests;
