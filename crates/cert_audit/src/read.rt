// Bytes as a certificate, or their fault.
ghost use Rattle.std.specs.Prelude.{◌≡◌, ◌≤◌, length, IfOk, IfErr};
ghost use Rattle.report_frame.specs.declared.limits.TheConstants.{MAX_VALUE};
ghost use Rattle.cert_audit.specs.Certificate.{BeginsWith};
ghost use Rattle.cert_audit.specs.Front.{head_of_front};
ghost use Rattle.cert_audit.specs.Laws.{IsFaultOf};
ghost use Rattle.cert_audit.specs.Reading.{Answers, reading};

use crate::cert::{Cert, CertPoints, Numbers, ReadCert};
use crate::fault::CertError;
use crate::front::{Front, read_front};
use crate::points::{read_numbers, read_points};
use report_frame::{Head, Value};
use std::alloc::Global;

/// The certificate that the bytes begin with, and how many of them it has: others may follow. Else
/// the one fault of the bytes.
pub fn read_cert(alloc: Global, bytes: &[u8]) -> Result<ReadCert, CertError>
    ensures read { Answers result (reading bytes.now) }

    // Ok comes exactly where the bytes begin with a certificate, and else there is this one fault.
    ensures found { IfOk result (λ r. BeginsWith r.cert r.used bytes.now) }
    ensures fault { IfErr result (IsFaultOf bytes.now) }
{
    let front = read_front(bytes)?;
    let n = front.points;
    let room = Vec::with_capacity(alloc, n as usize)?;
    let points = read_points(room, n, front.rest, front.at)?;
    let rest = &front.rest[32 * n as usize..];
    let at = front.at + 32 * n as u64;
    let m = 3 * front.start.k as u32;
    let room = Vec::with_capacity(alloc, m as usize)?;
    let numbers = read_numbers(room, m, rest, at)?;
    let cert = Cert {
        level: front.start.level,
        epoch: front.start.epoch,
        parent: *front.parent,
        head: head_of(&front),
        points: CertPoints::from_vec(points),
        numbers: Numbers::from_vec(numbers),
    };
    let used = at + 8 * m as u64;
    Ok(ReadCert { cert, used })
}

// The head among the fields before the points.
fn head_of(front: &Front<'_>) -> Head
    requires low { 1 ≤ length front.now.boxed.now }
    requires high { length front.now.boxed.now ≤ MAX_VALUE }
    ensures { result ≡ head_of_front front.now }
{
    Head {
        version: front.start.version,
        k: front.start.k,
        tag: *front.tag,
        check: *front.check,
        boxed: Value::of(front.boxed).unwrap(),
    }
}
