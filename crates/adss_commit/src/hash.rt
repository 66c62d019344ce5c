// The labelled hash: SHA-256 over the label of a version, one byte for the kind of what is derived,
// and a text.
ghost use Rattle.std.specs.Prelude.{◌≡◌, take};
ghost use Rattle.std.specs.Int.{w8, to_be_bytes};
ghost use Rattle.adss_commit.specs.Derivation.{label, hashed, context_bytes};

use crate::context::Context;
use report_frame::Version;
use sha2::{Digest, Sha256};
use shamir_limbs::Key;

/// The label under which all is hashed that belongs to a version.
fn label(version: Version) -> [u8; 8]
    ensures { result ≡ label version }
{
    match version {
        Version::One => *b"STARNEST",
        Version::Two => *b"STARNES2",
    }
}

/// The hash over a context, under the label of its version.
pub(crate) fn hashed_context(kind: u8, context: &Context) -> [u8; 32]
    ensures { result ≡ hashed (label context.now.version) kind (context_bytes context.now) }
{
    let value = context.value.as_slice();
    let mut hasher = Sha256::new();
    hasher.update(&label(context.version));
    hasher.update(&[kind]);
    hasher.update(&context.parent);
    hasher.update(&context.epoch.to_be_bytes());
    hasher.update(&one_byte(context.level));
    hasher.update(&context.k.to_be_bytes());
    hasher.update(&one_byte(value.len() as u8));
    hasher.update(value);
    hasher.finalize()
}

/// The hash over a key, under the label of this version.
#[tactic(auto, unfolding(crate::specs::Derivation::hashed))]
pub(crate) fn hashed_key(version: Version, kind: u8, key: &Key) -> [u8; 32]
    ensures { result ≡ hashed (label version) kind key.now.bytes }
{
    let mut hasher = Sha256::new();
    hasher.update(&label(version));
    hasher.update(&[kind]);
    hasher.update(&key.bytes);
    hasher.finalize()
}

// The byte of a number.
fn one_byte(n: u8) -> [u8; 1]
    ensures { result ≡ to_be_bytes w8 n }
{
    [n]
}

/// The first 16 bytes.
pub(crate) fn first_half(digest: &[u8; 32]) -> [u8; 16]
    ensures { result ≡ take 16 digest.now }
{
    let mut half = [0u8; 16];
    half.copy_from_slice(&digest[..16]);
    half
}
