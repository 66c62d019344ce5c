//! The client: reports of values, layer in layer, and streams of them.
#![tactic(auto)]

mod client;
mod front;
mod generator;
pub mod laws;
mod layer;
mod limits;
mod points;
mod reporter;
mod reports;
mod stream;

pub use client::Client;
pub use generator::gen_text;
pub use limits::{MAX_REPORT_ONE, MAX_REPORT_TWO, MAX_REPORTS, report_bytes};
pub use points::layer_points;
pub use report_frame::{Table, Table2};
pub use reports::{build, build_shifted, build2, write_report};
pub use stream::{make_text, make_text2};

#[cfg(test)]
mod tests;
