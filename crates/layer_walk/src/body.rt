// What the body of one member holds.
ghost use Rattle.std.specs.Prelude.{◌≡◌, ◌≤◌, ◌+◌, length, IfOk};
ghost use Rattle.report_frame.specs.declared.limits.TheConstants.{MAX_LEVEL_TWO, MAX_FRAME_TWO};
ghost use Rattle.report_frame.specs.View.{fields_of};
ghost use Rattle.report_frame.specs.Reading.{decoded};
ghost use Rattle.layer_walk.specs.Members.{next_with, is_sealed, plain_body, opened_body, most_after_last, frame_for, inner_or_refused};
ghost use Rattle.layer_walk.specs.Held.{body_seen, last_or_refused};

use crate::auxiliary::Aux;
use crate::inner::Inner;
use crate::keys::Keys;
use crate::refusal::Why;
use chacha_stream::xor_stream;
use hmac_seal::verify;
use report_frame::{FrameView, MAX_EXTRA, Version, decode_view};
use star_io::{Bytes, NoMemory};
use std::alloc::Global;

/// What a body holds.
#[derive(Drop)]
pub(crate) enum Body {
    /// Nothing: its layer is the last.
    Last,
    /// Extra bytes: its layer is the last too.
    Extra(Aux),
    /// The report of the next level.
    Next(Inner),
    Refused(Why),
}

/// What the body of a member's frame holds. The room is written over.
#[tactic(auto, unfolding(crate::specs::Members::next_with))]
pub(crate) fn read_body(
    alloc: Global,
    keys: &Keys,
    index: u32,
    frame: &FrameView<'_>,
    room: &mut Vec<u8>,
) -> Result<Body, NoMemory>
    requires level { keys.now.level ≤ MAX_LEVEL_TWO }
    requires short { length (fields_of frame.now).body ≤ MAX_FRAME_TWO }
    ensures { IfOk result (λ body. body
        ≡ body_seen keys.now.level index (next_with keys.now (fields_of frame.now))) }
{
    if !is_sealed(&keys.seal, frame) {
        return Ok(Body::Refused(Why::Seal));
    }
    decrypt(&keys.body, frame, room)?;
    read_plain(alloc, keys, index, room.as_slice())
}

// Whether the seal is that of the frame under the key.
fn is_sealed(key: &[u8; 32], frame: &FrameView<'_>) -> bool
    ensures { result ≡ is_sealed key.now (fields_of frame.now) }
{
    verify(key, frame.sealed_part(), &frame.seal())
}

// Makes the room the plain body of the frame.
fn decrypt(key: &[u8; 32], frame: &FrameView<'_>, room: &mut Vec<u8>) -> Result<(), NoMemory>
    requires { length (fields_of frame.now).body ≤ MAX_FRAME_TWO }
    ensures { IfOk result (λ _. room.new.items ≡ plain_body key.now (fields_of frame.now)) }
{
    room.clear();
    room.extend_from_slice(frame.body())?;
    xor_stream(key, &frame.nonce(), 0, room);
    Ok(())
}

// What a plain body holds.
fn read_plain(alloc: Global, keys: &Keys, index: u32, plain: &[u8]) -> Result<Body, NoMemory>
    requires { keys.now.level ≤ MAX_LEVEL_TWO }
    ensures { IfOk result (λ body. body
        ≡ body_seen keys.now.level index (opened_body keys.now plain.now)) }
{
    match plain {
        [0, extra @ ..] => read_last(alloc, keys, index, extra),
        [1, inner @ ..] => read_inner(alloc, keys, index, inner),
        _ => Ok(Body::Refused(Why::BodyKind)),
    }
}

// How many bytes may stand behind the 0 of a last layer.
fn most_after_last(version: Version) -> usize
    ensures { result ≡ most_after_last version }
{
    match version {
        Version::One => 0,
        Version::Two => MAX_EXTRA,
    }
}

// What the bytes behind the 0 of a plain body are.
fn read_last(alloc: Global, keys: &Keys, index: u32, extra: &[u8]) -> Result<Body, NoMemory>
    ensures { IfOk result (λ body. body
        ≡ body_seen keys.now.level index (last_or_refused keys.now.version extra.now)) }
{
    if extra.len() > most_after_last(keys.version) {
        return Ok(Body::Refused(Why::BodyTail));
    }
    if extra.is_empty() {
        return Ok(Body::Last);
    }
    Ok(Body::Extra(Aux {
        index,
        level: keys.level,
        bytes: Bytes::of(alloc, extra)?,
    }))
}

// What the bytes behind the 1 of a plain body are.
fn read_inner(alloc: Global, keys: &Keys, index: u32, bytes: &[u8]) -> Result<Body, NoMemory>
    requires { keys.now.level ≤ MAX_LEVEL_TWO }
    ensures { IfOk result (λ body. body
        ≡ body_seen keys.now.level index
        (inner_or_refused keys.now.version
        (frame_for keys.now.epoch (keys.now.level + 1) (decoded bytes.now)))) }
{
    match decode_view(bytes) {
        Err(fault) => Ok(Body::Refused(Why::Frame(fault.kind))),
        Ok(frame) => {
            if frame.epoch() != keys.epoch {
                return Ok(Body::Refused(Why::WrongEpoch));
            }
            if frame.level() != keys.level + 1 {
                return Ok(Body::Refused(Why::WrongLevel));
            }
            if frame.version() != keys.version {
                return Ok(Body::Refused(Why::WrongVersion));
            }
            Ok(Body::Next(Inner {
                index,
                frame: Bytes::of(alloc, bytes)?,
            }))
        }
    }
}
