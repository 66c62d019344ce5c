// The numbers of the format.

/// The first bytes of a book.
pub const BOOK_MAGIC: [u8; 8] = *b"STARBOOK";

/// The version of the format, in the byte behind the magic.
pub const BOOK_VERSION: u8 = 1;

/// Where the first entry stands, in bytes from the front: behind magic, version, epoch, dropped
/// records and number of entries.
pub const HEADER_BYTES: usize = 21;

/// How many bytes of an entry stand before its frame: the count and the frame's length.
pub const ENTRY_HEAD_BYTES: usize = 6;
