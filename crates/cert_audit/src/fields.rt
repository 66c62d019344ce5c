// Reading one field after the other.
ghost use Rattle.std.specs.Prelude.{◌≡◌, ◌-◌, ◌<◌, ◌≤◌, length, drop, IfOk};
ghost use Rattle.byte_format.specs.Format.Size.{OneByte, TwoBytes, FourBytes, EightBytes};
ghost use Rattle.byte_format.specs.Reading.{Gives, number_at, bytes_at};
ghost use Rattle.cert_audit.specs.Reading.{certs};
ghost use Rattle.cert_audit.specs.declared.kind.CertKind.TheVariants.{Range};

use crate::fault::CertFault;
use crate::kind::CertKind;
use field61::MODULUS;

/// So many bytes, and what follows them.
pub(crate) fn read_bytes(bytes: &[u8], at: u64, size: usize) -> Result<(&[u8], &[u8]), CertFault>
    ensures found { Gives (λ x. (x.0.now, x.1.now)) result (bytes_at certs size at bytes.now) }
    ensures size { IfOk result (λ x. length x.0.now ≡ size) }
    ensures long { IfOk result (λ _. size ≤ length bytes.now) }
    ensures rest { IfOk result (λ x. x.1.now ≡ drop size bytes.now) }
{
    if bytes.len() < size {
        return Err(CertFault {
            kind: CertKind::Truncated,
            at,
        });
    }
    Ok(bytes.split_at(size))
}

/// The same where the number of bytes is fixed.
pub(crate) fn read_array<const N: usize>(
    bytes: &[u8],
    at: u64,
) -> Result<(&[u8; N], &[u8]), CertFault>
    ensures { Gives (λ x. (x.0.now, x.1.now)) result (bytes_at certs N at bytes.now) }
{
    match bytes.split_first_chunk::<N>() {
        Some((front, rest)) => Ok((front, rest)),
        None => Err(CertFault {
            kind: CertKind::Truncated,
            at,
        }),
    }
}

/// A number of one byte in its range.
pub(crate) fn read_u8(
    bytes: &[u8],
    at: u64,
    kind: CertKind,
    low: u8,
    high: u8,
) -> Result<(u8, &[u8]), CertFault>
    ensures found { Gives (λ x.
        (x.0, x.1.now)) result (number_at certs OneByte kind low high at bytes.now) }
    ensures low { IfOk result (λ x. low ≤ x.0) }
    ensures high { IfOk result (λ x. x.0 ≤ high) }
{
    let (front, rest) = read_bytes(bytes, at, 1)?;
    let n = front[0];
    if n < low || high < n {
        return Err(CertFault { kind, at });
    }
    Ok((n, rest))
}

/// A number of two bytes in its range.
pub(crate) fn read_u16(
    bytes: &[u8],
    at: u64,
    low: u16,
    high: u16,
) -> Result<(u16, &[u8]), CertFault>
    ensures { Gives (λ x. (x.0, x.1.now)) result (number_at certs TwoBytes Range low high at bytes.now) }
{
    let (front, rest) = read_bytes(bytes, at, 2)?;
    let n = u16::from_be_bytes([front[0], front[1]]);
    if n < low || high < n {
        return Err(CertFault {
            kind: CertKind::Range,
            at,
        });
    }
    Ok((n, rest))
}

/// A number of four bytes that is at most `high`.
pub(crate) fn read_u32(bytes: &[u8], at: u64, high: u32) -> Result<(u32, &[u8]), CertFault>
    ensures { Gives (λ x. (x.0, x.1.now)) result (number_at certs FourBytes Range 0 high at bytes.now) }
{
    let (front, rest) = read_bytes(bytes, at, 4)?;
    let n = u32::from_be_bytes([front[0], front[1], front[2], front[3]]);
    if high < n {
        return Err(CertFault {
            kind: CertKind::Range,
            at,
        });
    }
    Ok((n, rest))
}

/// A number of eight bytes in its range.
pub(crate) fn read_u64(
    bytes: &[u8],
    at: u64,
    kind: CertKind,
    low: u64,
    high: u64,
) -> Result<(u64, &[u8]), CertFault>
    ensures found { Gives (λ x.
        (x.0, x.1.now)) result (number_at certs EightBytes kind low high at bytes.now) }
    ensures low { IfOk result (λ x. low ≤ x.0) }
    ensures high { IfOk result (λ x. x.0 ≤ high) }
    ensures long { IfOk result (λ _. 8 ≤ length bytes.now) }
    ensures rest { IfOk result (λ x. x.1.now ≡ drop 8 bytes.now) }
{
    let (front, rest) = read_bytes(bytes, at, 8)?;
    let n = u64::from_be_bytes([
        front[0], front[1], front[2], front[3], front[4], front[5], front[6], front[7],
    ]);
    if n < low || high < n {
        return Err(CertFault { kind, at });
    }
    Ok((n, rest))
}

/// A field number that isn't below `low`.
pub(crate) fn read_element(bytes: &[u8], at: u64, low: u64) -> Result<(u64, &[u8]), CertFault>
    ensures found { Gives (λ x.
        (x.0, x.1.now)) result (number_at certs EightBytes Range low (MODULUS - 1) at bytes.now) }
    ensures below { IfOk result (λ x. x.0 < MODULUS) }
    ensures long { IfOk result (λ _. 8 ≤ length bytes.now) }
    ensures rest { IfOk result (λ x. x.1.now ≡ drop 8 bytes.now) }
{
    read_u64(bytes, at, CertKind::Range, low, MODULUS - 1)
}
