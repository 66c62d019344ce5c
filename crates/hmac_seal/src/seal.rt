// HMAC-SHA-256, and whether a seal is that of its message.
ghost use Rattle.std.specs.Prelude.{◌≡◌, ◌↔◌, ◌++◌, IsTrue};
ghost use Rattle.hmac_seal.specs.Hmac.{hmac_sha256};
ghost use Rattle.sha2.specs.Sha256.{sha256};

use crate::key::{block_key, padded_with};
use sha2::{Digest, Sha256};

/// The pad of the inner hash, `ipad`.
const INNER_PAD: u8 = 0x36;

/// The pad of the outer hash, `opad`.
const OUTER_PAD: u8 = 0x5c;

/// HMAC-SHA-256 of the message under the key.
///
/// The key may have any length. One of more than 64 bytes is hashed first.
#[tactic(auto, unfolding(crate::specs::Hmac::hmac_sha256))]
pub fn hmac(key: &[u8], message: &[u8]) -> [u8; 32]
    ensures { result ≡ hmac_sha256 key.now message.now }
{
    let block = block_key(key);
    let inner = sha256_of_both(&padded_with(INNER_PAD, block), message);
    sha256_of_both(&padded_with(OUTER_PAD, block), &inner)
}

/// Whether the seal is the message's under the key.
///
/// The time that it takes may depend on the first byte that differs.
pub fn verify(key: &[u8], message: &[u8], seal: &[u8; 32]) -> bool
    ensures { IsTrue result ↔ (seal.now ≡ hmac_sha256 key.now message.now) }
{
    hmac(key, message) == *seal
}

// SHA-256 of two parts as one message.
fn sha256_of_both(first: &[u8], second: &[u8]) -> [u8; 32]
    ensures { result ≡ sha256 (first.now ++ second.now) }
{
    let mut hasher = Sha256::new();
    hasher.update(first);
    hasher.update(second);
    hasher.finalize()
}
