// The numbers that the format of frames states.

/// The first two bytes of a frame, the text `ST`, as a big-endian number.
pub const MAGIC: u16 = 0x5354;

/// The deepest level of a report of version 1. Levels count from 0.
pub const MAX_LEVEL_ONE: u8 = 7;

/// The deepest level of a report of version 2.
pub const MAX_LEVEL_TWO: u8 = 15;

/// The most layers of a report, of either version.
pub const MAX_LAYERS: usize = MAX_LEVEL_TWO as usize + 1;

/// The least threshold: how many distinct points open a group.
pub const MIN_THRESHOLD: u16 = 2;

/// The greatest threshold of version 1.
pub const MAX_THRESHOLD_ONE: u16 = 512;

/// The greatest threshold of version 2.
pub const MAX_THRESHOLD_TWO: u16 = 4096;

/// The bytes of a tag.
pub const TAG_BYTES: usize = 16;

/// The bytes of a check, the commitment of a group.
pub const CHECK_BYTES: usize = 32;

/// The most bytes of a value, and so of its box.
pub const MAX_VALUE: usize = 64;

/// The bytes of the nonce of a body.
pub const NONCE_BYTES: usize = 12;

/// The bytes of a seal, with which a frame ends.
pub const SEAL_BYTES: usize = 32;

/// The bytes before the length of the box.
pub const FRONT_BYTES: usize = 90;

/// The bytes of all that a frame has beside its box and its body.
pub const FIXED_BYTES: usize = FRONT_BYTES + 1 + NONCE_BYTES + 2 + SEAL_BYTES;

/// The most bytes of a frame of version 1.
pub const MAX_FRAME_ONE: usize = 4096;

/// The most bytes of a frame of version 2.
pub const MAX_FRAME_TWO: usize = 8192;

/// The most extra bytes in the last layer of a report of version 2.
pub const MAX_EXTRA: usize = 255;
