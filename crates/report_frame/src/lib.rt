//! The frame of a report: its fields, its one spelling, and the one fault of bytes that are none.
#![tactic(auto)]

mod decode;
mod extra;
mod fault;
mod fields;
mod frame;
mod head;
pub mod laws;
mod limits;
mod parts;
mod places;
mod ranges;
mod report;
mod spell;
mod table;
mod table2;
mod value;
mod version;
mod view;

pub use decode::decode_view;
pub use extra::Extra;
pub use fault::{Fault, FaultKind};
pub use head::Head;
pub use limits::{
    CHECK_BYTES, FIXED_BYTES, FRONT_BYTES, MAGIC, MAX_EXTRA, MAX_FRAME_ONE, MAX_FRAME_TWO,
    MAX_LAYERS, MAX_LEVEL_ONE, MAX_LEVEL_TWO, MAX_THRESHOLD_ONE, MAX_THRESHOLD_TWO, MAX_VALUE,
    MIN_THRESHOLD, NONCE_BYTES, SEAL_BYTES, TAG_BYTES,
};
pub use report::Report;
pub use spell::{encode, encode_sealed_part};
pub use table::Table;
pub use table2::Table2;
pub use value::Value;
pub use version::Version;
pub use view::FrameView;

#[cfg(test)]
mod tests;
#[cfg(test)]
mod tests_round_trip;
