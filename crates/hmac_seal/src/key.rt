// The key as one block, and the block with a pad.
ghost use Rattle.std.specs.Prelude.{◌≡◌, ◌++◌, ◌-◌, ◌≤◌, length, replicate};
ghost use Rattle.hmac_seal.specs.Hmac.{block_key, padded_with};
ghost use Rattle.hmac_seal.specs.declared.key.TheConstants.{BLOCK_BYTES};

use sha2::{Digest, Sha256};

/// The bytes of a block of SHA-256.
pub(crate) const BLOCK_BYTES: usize = 64;

// The key as one block: a longer one is hashed first.
#[tactic(auto, unfolding(crate::specs::Hmac::block_key))]
pub(crate) fn block_key(key: &[u8]) -> [u8; BLOCK_BYTES]
    ensures { result ≡ block_key key.now }
{
    if key.len() <= BLOCK_BYTES {
        zero_filled(key)
    } else {
        zero_filled(&Sha256::digest(key))
    }
}

// The bytes, padded with zeros to one block.
fn zero_filled(front: &[u8]) -> [u8; BLOCK_BYTES]
    requires { length front.now ≤ BLOCK_BYTES }
    ensures { result ≡ front.now ++ replicate (BLOCK_BYTES - length front.now) 0 }
{
    let mut block = [0; BLOCK_BYTES];
    'copy: for place in 0..front.len() {
        block[place] = front[place];
    }
    block
}

// The exclusive or of each byte of the block with the pad.
pub(crate) fn padded_with(pad: u8, mut block: [u8; BLOCK_BYTES]) -> [u8; BLOCK_BYTES]
    ensures { result ≡ padded_with pad block }
{
    'pad: for place in 0..BLOCK_BYTES {
        block[place] ^= pad;
    }
    block
}
