// The frame of a report.
ghost use Rattle.std.specs.Prelude.{◌≡◌, ◌++◌, ◌+◌, ◌-◌, Ok, length, IfOk};
ghost use Rattle.report_frame.specs.Frame.{IsFrame, frame, sealed_part, front_entries};
ghost use Rattle.byte_format.specs.Format.{spelling};
ghost use Rattle.report_frame.specs.Reading.{decoded};
ghost use Rattle.report_frame.specs.Report.{IsGood, fields_of_report};

use crate::limits::{FIXED_BYTES, FRONT_BYTES, MAGIC, SEAL_BYTES};
use crate::ranges::know_ranges;
use crate::report::Report;
use star_io::NoMemory;
use std::alloc::Global;

/// The frame of the report. Memory is reserved once, and each field is copied once.
pub fn encode(alloc: Global, report: &Report) -> Result<Vec<u8>, NoMemory>
    requires { IsGood report.now }
    ensures frame { IfOk result (λ bytes. IsFrame (fields_of_report report.now) bytes.items) }
    // What reads it back gives the same fields.
    ensures decoded { IfOk result (λ bytes. decoded bytes.items
        ≡ Ok (fields_of_report report.now)) }
    // The seal stands behind the part that it is made over.
    ensures sealed { IfOk result (λ bytes.
        bytes.items ≡ sealed_part (fields_of_report report.now) ++ report.now.seal) }
    ensures long { IfOk result (λ bytes.
        length bytes.items ≡ FIXED_BYTES + length report.now.head.boxed + length report.now.body) }
{
    know_ranges(report);
    let mut frame = encode_sealed_part(alloc, report)?;
    frame.extend_from_slice(&report.seal)?;
    Ok(frame)
}

/// The part of the report's frame that stands before the seal and that the seal is made over, with
/// room for the seal. It doesn't depend on the seal that the report has.
pub fn encode_sealed_part(alloc: Global, report: &Report) -> Result<Vec<u8>, NoMemory>
    requires { IsGood report.now }
    ensures part { IfOk result (λ bytes. bytes.items ≡ sealed_part (fields_of_report report.now)) }
    ensures long { IfOk result (λ bytes.
        length bytes.items ≡ FIXED_BYTES - SEAL_BYTES + length report.now.head.boxed + length
        report.now.body) }
{
    let boxed = report.head.boxed.as_slice();
    let body = report.body.as_slice();
    let mut frame = spell_front(alloc, report)?;
    frame.push(boxed.len() as u8)?;
    frame.extend_from_slice(boxed)?;
    frame.extend_from_slice(&report.nonce)?;
    frame.extend_from_slice(&(body.len() as u16).to_be_bytes())?;
    frame.extend_from_slice(body)?;
    Ok(frame)
}

// The fields before the length of the box, with room for the whole frame.
fn spell_front(alloc: Global, report: &Report) -> Result<Vec<u8>, NoMemory>
    requires { IsGood report.now }
    ensures front { IfOk result (λ bytes. bytes.items
        ≡ spelling frame (front_entries (fields_of_report report.now))) }
    ensures long { IfOk result (λ bytes. length bytes.items ≡ FRONT_BYTES) }
{
    let length = FIXED_BYTES + report.head.boxed.as_slice().len() + report.body.as_slice().len();
    let mut frame = Vec::with_capacity(alloc, length)?;
    frame.extend_from_slice(&MAGIC.to_be_bytes())?;
    frame.push(report.head.version.number())?;
    frame.push(report.level)?;
    frame.extend_from_slice(&report.epoch.to_be_bytes())?;
    frame.extend_from_slice(&report.head.k.to_be_bytes())?;
    frame.extend_from_slice(&report.x.value().to_be_bytes())?;
    frame.extend_from_slice(&report.y[0].value().to_be_bytes())?;
    frame.extend_from_slice(&report.y[1].value().to_be_bytes())?;
    frame.extend_from_slice(&report.y[2].value().to_be_bytes())?;
    frame.extend_from_slice(&report.head.tag)?;
    frame.extend_from_slice(&report.head.check)?;
    Ok(frame)
}
