//! What a stream of records reveals, as printed text.
//!
//! `specs/` has the lines: Escape says how bytes are printed, Names how refusals are, Paths how the
//! way to an opened group is, and RevealText has the lines themselves, in their order.
#![tactic(auto)]

mod escape;
mod line;
mod lines;
mod names;
mod opened;
mod paths;
mod summary;
mod text;

pub use names::name_of_why;
pub use opened::open_lines;
pub use paths::push_step;
pub use summary::summary_of;
pub use text::text_of;
