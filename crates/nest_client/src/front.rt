// What is before the body in a frame, and how it is encoded without allocating memory.
ghost use Rattle.std.specs.Prelude.{◌≡◌, ◌≤◌, ◌<◌, ◌+◌, ◌++◌, ◌^◌, length};
ghost use Rattle.byte_format.specs.Format.{spelling};
ghost use Rattle.report_frame.specs.Frame.{frame, front_entries};
ghost use Rattle.report_frame.specs.declared.limits.TheConstants.{FRONT_BYTES, NONCE_BYTES};
ghost use Rattle.nest_client.specs.Place.{before_body, body_start};
ghost use Rattle.nest_client.specs.Layout.{fields_of_front};

use arrayvec::ArrayVec;
use field61::Fe;
use report_frame::{FRONT_BYTES, Head, MAGIC, MAX_VALUE, NONCE_BYTES};

/// The most bytes before a body.
const MAX_BEFORE: usize = FRONT_BYTES + 1 + MAX_VALUE + NONCE_BYTES + 2;

/// What a frame says before its body.
#[derive(Debug, Drop)]
pub(crate) struct Front {
    pub(crate) level: u8,
    pub(crate) epoch: u32,
    pub(crate) head: Head,
    /// The point.
    pub(crate) x: Fe,
    /// The share.
    pub(crate) y: [Fe; 3],
    /// The nonce of the body's keystream.
    pub(crate) nonce: [u8; NONCE_BYTES],
}

/// The bytes before this body.
pub(crate) fn spell_before(front: &Front, body: &[u8]) -> ArrayVec<u8, MAX_BEFORE>
    requires { length body.now < 2 ^ 16 }
    ensures bytes { result.items ≡ before_body (fields_of_front front.now body.now) }
    ensures long { length result.items ≡ body_start (length front.now.head.boxed) }
{
    let boxed = front.head.boxed.as_slice();
    let mut bytes = spell_front(front, body);
    bytes.push(boxed.len() as u8);
    append(&mut bytes, boxed);
    append(&mut bytes, &front.nonce);
    append(&mut bytes, &(body.len() as u16).to_be_bytes());
    bytes
}

// The fields before the length of the box. The body counts for the proof alone.
fn spell_front(front: &Front, body: &[u8]) -> ArrayVec<u8, MAX_BEFORE>
    ensures front { result.items
        ≡ spelling frame (front_entries (fields_of_front front.now body.now)) }
    ensures long { length result.items ≡ FRONT_BYTES }
{
    let mut bytes = ArrayVec::new();
    append(&mut bytes, &MAGIC.to_be_bytes());
    bytes.push(front.head.version.number());
    bytes.push(front.level);
    append(&mut bytes, &front.epoch.to_be_bytes());
    append(&mut bytes, &front.head.k.to_be_bytes());
    append(&mut bytes, &front.x.value().to_be_bytes());
    append(&mut bytes, &front.y[0].value().to_be_bytes());
    append(&mut bytes, &front.y[1].value().to_be_bytes());
    append(&mut bytes, &front.y[2].value().to_be_bytes());
    append(&mut bytes, &front.head.tag);
    append(&mut bytes, &front.head.check);
    bytes
}

// Puts the bytes last.
fn append(bytes: &mut ArrayVec<u8, MAX_BEFORE>, more: &[u8])
    requires { length bytes.old.items + length more.now ≤ MAX_BEFORE }
    ensures items { bytes.new.items ≡ bytes.old.items ++ more.now }
    ensures long { length bytes.new.items ≡ length bytes.old.items + length more.now }
{
    bytes.try_extend_from_slice(more).unwrap();
}
