// Reading the fields of a frame.
ghost use Rattle.std.specs.Prelude.{[]};
ghost use Rattle.report_frame.specs.Frame.{entries, frame, back};
ghost use Rattle.byte_format.specs.Reading.{read};
ghost use Rattle.report_frame.specs.Reading.{Reads, frames};
ghost use Rattle.report_frame.specs.Parts.{fields_of_parts, entries_of_front};

use crate::fault::{FaultKind, Misread};
use crate::fields::{
    read_array, read_bytes, read_element, read_end, read_u8, read_u16, read_u32, read_version,
    skip_magic,
};
use crate::limits::{CHECK_BYTES, MAX_VALUE, MIN_THRESHOLD, NONCE_BYTES, SEAL_BYTES, TAG_BYTES};
use crate::parts::{Front, Parts};
use crate::places::{
    BOX_AT, BOX_LENGTH_AT, CHECK_AT, EPOCH_AT, FIRST_SHARE_AT, LEVEL_AT, POINT_AT, SECOND_SHARE_AT,
    TAG_AT, THIRD_SHARE_AT, THRESHOLD_AT,
};

/// The fields of a frame, or the first fault, whatever its length.
#[tactic(auto, unfolding(byte_format::specs::Reading::read))]
pub(crate) fn read_frame(bytes: &[u8]) -> Result<Parts<'_>, Misread>
    ensures { Reads (λ p. entries (fields_of_parts p)) result (read frames frame 0 [] bytes.now) }
{
    let rest = skip_magic(bytes)?;
    let (version, rest) = read_version(rest)?;
    let (level, rest) = read_u8(rest, LEVEL_AT, FaultKind::Level, 0, version.max_level())?;
    let (epoch, rest) = read_u32(rest, EPOCH_AT)?;
    let high = version.max_threshold();
    let (k, rest) = read_u16(
        rest,
        THRESHOLD_AT,
        FaultKind::Threshold,
        MIN_THRESHOLD,
        high,
    )?;
    let (x, rest) = read_element(rest, POINT_AT, FaultKind::Point, 1)?;
    let (y0, rest) = read_element(rest, FIRST_SHARE_AT, FaultKind::Share, 0)?;
    let (y1, rest) = read_element(rest, SECOND_SHARE_AT, FaultKind::Share, 0)?;
    let (y2, rest) = read_element(rest, THIRD_SHARE_AT, FaultKind::Share, 0)?;
    let (tag, rest) = read_array::<TAG_BYTES>(rest, TAG_AT)?;
    let (check, rest) = read_array::<CHECK_BYTES>(rest, CHECK_AT)?;
    let front = Front {
        version,
        level,
        epoch,
        k,
        x,
        y0,
        y1,
        y2,
        tag,
        check,
    };
    read_back(front, rest)
}

// The fields from the box on.
#[tactic(auto, unfolding(byte_format::specs::Reading::read))]
fn read_back<'a>(front: Front<'a>, bytes: &'a [u8]) -> Result<Parts<'a>, Misread>
    ensures { Reads (λ p. entries (fields_of_parts p)) result
        (read frames back BOX_LENGTH_AT (entries_of_front front.entry) bytes.now) }
{
    let (size, rest) = read_u8(
        bytes,
        BOX_LENGTH_AT,
        FaultKind::BoxLength,
        1,
        MAX_VALUE as u8,
    )?;
    let (boxed, rest) = read_bytes(rest, BOX_AT, size as usize)?;
    let at = BOX_AT + usize::from(size);
    let (nonce, rest) = read_array::<NONCE_BYTES>(rest, at)?;
    let at = at + NONCE_BYTES;
    let (size, rest) = read_u16(rest, at, FaultKind::BodyLength, 1, u16::MAX)?;
    let at = at + 2;
    let (body, rest) = read_bytes(rest, at, size as usize)?;
    let at = at + usize::from(size);
    let (seal, rest) = read_array::<SEAL_BYTES>(rest, at)?;
    read_end(rest, at + SEAL_BYTES)?;
    Ok(Parts {
        front,
        boxed,
        nonce,
        body,
        seal,
    })
}
