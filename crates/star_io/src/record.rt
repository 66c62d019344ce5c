use crate::bytes::Bytes;

/// The length of the longest record that is kept, in bytes.
pub const MAX_RECORD_BYTES: u32 = 8192;

/// The most records of a stream that a command reads.
pub const MAX_RECORDS: u32 = 131_072;

/// What stands at one place of a stream.
///
/// A record is its length in four bytes, most significant first, and then that many bytes.
#[derive(Debug, Drop, PartialEq, Eq)]
pub enum Record {
    /// The bytes of a record of at most [`MAX_RECORD_BYTES`] bytes, without its length.
    Whole(Bytes),
    /// A longer record, whose `said` bytes were dropped.
    TooLong { said: u32 },
    /// The stream ends inside a length, after 1 to 3 bytes of it.
    CutLength { have: u32 },
    /// The stream ends inside a record, after `have` of its `said` bytes.
    CutRecord { said: u32, have: u32 },
}
