// The frame of one layer, made in place: its body is there already, as plain bytes.
ghost use Rattle.std.specs.Prelude.{◌≡◌, ◌≤◌, ◌<◌, ◌+◌, ◌-◌, ◌++◌, ◌^◌, length, take, drop, slice_range};
ghost use Rattle.hmac_seal.specs.Hmac.{hmac_sha256};
ghost use Rattle.report_frame.specs.Frame.{IsFrame, sealed_part};
ghost use Rattle.report_frame.specs.declared.limits.TheConstants.{FIXED_BYTES, MAX_FRAME_TWO, MAX_VALUE, MIN_THRESHOLD, SEAL_BYTES};
ghost use Rattle.report_frame.specs.Versions.{max_level, max_threshold, max_frame};
ghost use Rattle.adss_commit.specs.Derivation.{derived, body_of};
ghost use Rattle.nest_client.specs.Layout.{fields_of_front};
ghost use Rattle.nest_client.specs.Place.{body_in, body_start};
ghost use Rattle.nest_client.specs.Report.{frame_of, layer};

use crate::client::{nonce_of, point_of};
use crate::front::{Front, spell_before};
use crate::reporter::Reporter;
use adss_commit::{Context, Derived, body_key, box_value, seal_key, share_of};
use chacha_stream::xor_stream;
use field61::Fe;
use hmac_seal::hmac;
use report_frame::{FRONT_BYTES, Head, NONCE_BYTES, SEAL_BYTES, Value};

/// Makes the frame of a client's report of this context around the plain body that is already in
/// its place. The first number of the share is raised by the shift. The caller passes what is
/// derived from the context, since it has it.
pub(crate) fn write_layer(
    frame: &mut [u8],
    reporter: &Reporter,
    shift: Fe,
    context: &Context,
    derivation: &Derived,
)
    requires derivation { derivation.now ≡ derived context.now }
    requires level { context.now.level ≤ max_level context.now.version }
    requires layer { context.now.level < reporter.now.layers }
    requires k_low { MIN_THRESHOLD ≤ context.now.k }
    requires k_high { context.now.k ≤ max_threshold context.now.version }
    requires some { FIXED_BYTES + length context.now.value < length frame.old }
    requires short { length frame.old ≤ max_frame context.now.version }
    ensures bytes { frame.new
        ≡ frame_of (layer reporter.now.client shift context.now
        (body_in frame.old (length context.now.value))) }
    ensures frame { IsFrame (layer reporter.now.client shift context.now
        (body_in frame.old (length context.now.value))) frame.new }
{
    know_ranges(context);
    let version = context.version;
    let coins = reporter.coins_of(context.level);
    let x = point_of(&coins);
    let nonce = nonce_of(&coins);
    let [y0, y1, y2] = share_of(context, &derivation.key, x);
    let front = Front {
        level: context.level,
        epoch: context.epoch,
        head: Head {
            version,
            k: context.k,
            tag: derivation.tag,
            check: derivation.check,
            boxed: box_value(version, &derivation.key, &context.value),
        },
        x,
        y: [y0.add(shift), y1, y2],
        nonce,
    };
    let body_key = body_key(version, &derivation.key);
    let seal_key = seal_key(version, &derivation.key);
    write_around(frame, &front, &body_key, &seal_key);
}

// Says what the types of a context's fields say of their values. It does nothing when it runs: its
// clauses make known what a caller need not state.
fn know_ranges(context: &Context)
    ensures epoch { context.now.epoch < 2 ^ 32 }
    ensures low { 1 ≤ length context.now.value }
    ensures high { length context.now.value ≤ MAX_VALUE }
{
    let _epoch = context.epoch;
    let _value = context.value.as_slice();
}

/// Where the body begins in a frame around this value or its box.
pub(crate) fn body_start(value: &Value) -> usize
    ensures { result ≡ body_start (length value.now) }
{
    FRONT_BYTES + 1 + value.as_slice().len() + NONCE_BYTES + 2
}

// Makes the frame around the plain body: the body goes under the keystream of the one key, and the
// other makes the seal.
fn write_around(frame: &mut [u8], front: &Front, body_key: &[u8; 32], seal_key: &[u8; 32])
    requires long { body_start (length front.now.head.boxed) + SEAL_BYTES ≤ length frame.old }
    requires short { length frame.old ≤ MAX_FRAME_TWO }
    ensures { let body = body_of body_key.now front.now.nonce
        (body_in frame.old (length front.now.head.boxed)) in
        let part = sealed_part (fields_of_front front.now body) in frame.new
        ≡ part ++ hmac_sha256 seal_key.now part }
{
    let start = body_start(&front.head.boxed);
    let end = frame.len() - SEAL_BYTES;
    encrypt_part(frame, start, end, body_key, &front.nonce);
    let before = spell_before(front, &frame[start..end]);
    put_first(frame, before.as_slice());
    put_seal(frame, seal_key);
}

// Encrypts the bytes between two places.
fn encrypt_part(
    frame: &mut [u8],
    start: usize,
    end: usize,
    key: &[u8; 32],
    nonce: &[u8; NONCE_BYTES],
)
    requires places { start ≤ end }
    requires within { end ≤ length frame.old }
    requires short { length frame.old ≤ MAX_FRAME_TWO }
    ensures { frame.new ≡ take start frame.old
        ++ (body_of key.now nonce.now (slice_range frame.old start end) ++ drop end frame.old) }
{
    xor_stream(key, nonce, 0, &mut frame[start..end]);
}

// Puts the bytes first, in place of as many.
fn put_first(frame: &mut [u8], bytes: &[u8])
    requires { length bytes.now ≤ length frame.old }
    ensures { frame.new ≡ bytes.now ++ drop (length bytes.now) frame.old }
{
    frame[..bytes.len()].copy_from_slice(bytes);
}

// Appends the seal of what is before it.
fn put_seal(frame: &mut [u8], key: &[u8; 32])
    requires { SEAL_BYTES ≤ length frame.old }
    ensures { let part = take (length frame.old - SEAL_BYTES) frame.old in frame.new
        ≡ part ++ hmac_sha256 key.now part }
{
    let end = frame.len() - SEAL_BYTES;
    let seal = hmac(key, &frame[..end]);
    frame[end..].copy_from_slice(&seal);
}
