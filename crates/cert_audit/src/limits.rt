// The numbers that the format of certificates states.

/// The first eight bytes of a certificate, the text `STARCERT`, as a big-endian number.
pub const CERT_MAGIC: u64 = 0x5354_4152_4345_5254;

/// The format of certificates, which the byte behind the magic names.
pub const CERT_FORMAT: u8 = 1;

/// The most points of a certificate, as many as a stream has records.
pub const MAX_POINTS: u32 = 131_072;
