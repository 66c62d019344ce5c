// What an export returns. Faults are looked for in the order of their numbers.

/// What was asked for is written.
pub const DONE: u32 = 0;

/// The version is neither 1 nor 2.
pub const BAD_VERSION: u32 = 1;

/// The thresholds are not 1 to 8 numbers from 2 to 512, or in version 2 not 1 to 16 from 2 to 4096.
pub const BAD_THRESHOLDS: u32 = 2;

/// The cells are not those of one value of 1 to 64 bytes for each threshold.
pub const BAD_VALUES: u32 = 3;

/// There are more than 255 extra bytes, or any in version 1.
pub const BAD_EXTRA: u32 = 4;

/// The seed has other than 32 bytes.
pub const BAD_SEED: u32 = 5;

/// There is less room than the report is long.
pub const SMALL_BUFFER: u32 = 6;
