//! Where bytes come from and where they go, and the records of a stream of bytes.
//!
//! A [`Source`] and a [`Sink`] count their faults, so that a caller can tell a failed read from
//! the end of the input. A [`RecordReader`] takes one [`Record`] after the other from a source,
//! however the source cuts its bytes. [`feed`] hands the records of an input to a [`RecordTaker`] as
//! they come. [`read_records`] and [`read_bytes`] read an input whole.
#![tactic(auto)]

mod bytes;
mod failed;
mod filling;
mod input_error;
pub mod laws;
mod memory_sink;
mod memory_source;
mod no_memory;
mod read_record;
mod reader;
mod record;
mod sink;
mod source;
mod standard;
mod taker;
mod whole_input;
mod whole_stream;

pub use bytes::Bytes;
pub use failed::Failed;
pub use filling::fill;
pub use input_error::InputError;
pub use memory_sink::{FailAt, MemorySink};
pub use memory_source::MemorySource;
pub use no_memory::NoMemory;
pub use reader::{NextError, ReaderState, RecordReader};
pub use record::{MAX_RECORD_BYTES, MAX_RECORDS, Record};
pub use sink::Sink;
pub use source::Source;
pub use standard::{StdSink, StdSource};
pub use taker::RecordTaker;
pub use whole_input::read_bytes;
pub use whole_stream::{feed, read_records};

#[cfg(test)]
mod tests;
