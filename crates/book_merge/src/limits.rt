// How much is merged at most.

/// The most bytes of an input of books: as many as 131,072 entries of the longest frames have, and
/// the headers of 1,024 books.
pub const MAX_BOOKS_BYTES: u64 = 1_074_549_760;

/// No more books have so many bytes, since each has at least 21.
pub const MAX_BOOKS: u32 = 51_169_037;
