// Reading one field after the other.
ghost use Rattle.std.specs.Prelude.{◌≡◌, ◌-◌, ◌^◌, [], length, Some, IfOk};
ghost use Rattle.byte_format.specs.Format.Size.{OneByte, TwoBytes, FourBytes, EightBytes};
ghost use Rattle.report_frame.specs.declared.version.Version.TheVariants.{One, Two};
ghost use Rattle.byte_format.specs.Reading.{number_at, bytes_at, end_at};
ghost use Rattle.report_frame.specs.Reading.{Reads, frames};
ghost use Rattle.report_frame.specs.Versions.{version_number};

use crate::fault::{FaultKind, Misread};
use crate::limits::MAGIC;
use crate::places::VERSION_AT;
use crate::version::Version;
use field61::MODULUS;

/// So many bytes, and what follows them.
pub(crate) fn read_bytes(bytes: &[u8], at: usize, size: usize) -> Result<(&[u8], &[u8]), Misread>
    ensures found { Reads (λ x. (x.0.now, x.1.now)) result (bytes_at frames size at bytes.now) }
    ensures size { IfOk result (λ x. length x.0.now ≡ size) }
{
    if bytes.len() < size {
        return Err(Misread {
            kind: FaultKind::Truncated,
            at,
        });
    }
    Ok(bytes.split_at(size))
}

/// The same where the number of bytes is fixed.
pub(crate) fn read_array<const N: usize>(
    bytes: &[u8],
    at: usize,
) -> Result<(&[u8; N], &[u8]), Misread>
    ensures { Reads (λ x. (x.0.now, x.1.now)) result (bytes_at frames N at bytes.now) }
{
    match bytes.split_first_chunk::<N>() {
        Some((front, rest)) => Ok((front, rest)),
        None => Err(Misread {
            kind: FaultKind::Truncated,
            at,
        }),
    }
}

/// A number of one byte in its range.
pub(crate) fn read_u8(
    bytes: &[u8],
    at: usize,
    kind: FaultKind,
    low: u8,
    high: u8,
) -> Result<(u8, &[u8]), Misread>
    ensures { Reads (λ x. (x.0, x.1.now)) result (number_at frames OneByte kind low high at bytes.now) }
{
    let (front, rest) = read_bytes(bytes, at, 1)?;
    let n = front[0];
    if n < low || high < n {
        return Err(Misread { kind, at });
    }
    Ok((n, rest))
}

/// A number of two bytes in its range.
pub(crate) fn read_u16(
    bytes: &[u8],
    at: usize,
    kind: FaultKind,
    low: u16,
    high: u16,
) -> Result<(u16, &[u8]), Misread>
    ensures { Reads (λ x. (x.0, x.1.now)) result (number_at frames TwoBytes kind low high at bytes.now) }
{
    let (front, rest) = read_bytes(bytes, at, 2)?;
    let n = u16::from_be_bytes([front[0], front[1]]);
    if n < low || high < n {
        return Err(Misread { kind, at });
    }
    Ok((n, rest))
}

/// Any number of four bytes.
pub(crate) fn read_u32(bytes: &[u8], at: usize) -> Result<(u32, &[u8]), Misread>
    ensures { Reads (λ x. (
      x.0,
      x.1.now,
    )) result (number_at frames FourBytes FaultKind.Truncated 0 (2 ^ 32 - 1) at bytes.now) }
{
    let (front, rest) = read_bytes(bytes, at, 4)?;
    Ok((
        u32::from_be_bytes([front[0], front[1], front[2], front[3]]),
        rest,
    ))
}

/// A field element of eight bytes, not below `low`.
pub(crate) fn read_element(
    bytes: &[u8],
    at: usize,
    kind: FaultKind,
    low: u64,
) -> Result<(u64, &[u8]), Misread>
    ensures { Reads (λ x. (
      x.0,
      x.1.now,
    )) result (number_at frames EightBytes kind low (MODULUS - 1) at bytes.now) }
{
    let (front, rest) = read_bytes(bytes, at, 8)?;
    let n = u64::from_be_bytes([
        front[0], front[1], front[2], front[3], front[4], front[5], front[6], front[7],
    ]);
    if n < low || MODULUS <= n {
        return Err(Misread { kind, at });
    }
    Ok((n, rest))
}

/// What follows the magic.
pub(crate) fn skip_magic(bytes: &[u8]) -> Result<&[u8], Misread>
    ensures { Reads (λ rest.
        (MAGIC, rest.now)) result (number_at frames TwoBytes FaultKind.Magic MAGIC MAGIC 0 bytes.now) }
{
    let (_, rest) = read_u16(bytes, 0, FaultKind::Magic, MAGIC, MAGIC)?;
    Ok(rest)
}

/// The version, and what follows it.
pub(crate) fn read_version(bytes: &[u8]) -> Result<(Version, &[u8]), Misread>
    ensures { Reads (λ x. (version_number x.0, x.1.now)) result
        (number_at frames OneByte FaultKind.Version (version_number One) (version_number Two) VERSION_AT
        bytes.now) }
{
    let (front, rest) = read_bytes(bytes, VERSION_AT, 1)?;
    match Version::of(front[0]) {
        Some(version) => Ok((version, rest)),
        None => Err(Misread {
            kind: FaultKind::Version,
            at: VERSION_AT,
        }),
    }
}

/// Nothing may follow the seal.
pub(crate) fn read_end(bytes: &[u8], at: usize) -> Result<(), Misread>
    ensures { Reads (λ _. []) result (end_at frames (Some FaultKind.Trailing) at bytes.now) }
{
    match bytes {
        [] => Ok(()),
        [_, ..] => Err(Misread {
            kind: FaultKind::Trailing,
            at,
        }),
    }
}
