// The share of a context at a point. Its coefficients are not held: they are read from the
// keystream, block by block from the last, and go into the values at once.
ghost use Rattle.std.specs.Prelude.{◌≡◌, ◌≤◌, ◌<◌, ◌-◌, ◌*◌, ◌+◌, length, take};
ghost use Rattle.chacha_stream.specs.Keystream.{keystream};
ghost use Rattle.report_frame.specs.Versions.{max_threshold};
ghost use Rattle.report_frame.specs.declared.limits.TheConstants.{MAX_THRESHOLD_TWO};
ghost use Rattle.shamir_limbs.specs.Coefficients.{values};
ghost use Rattle.adss_commit.specs.Derivation.{context_key, polynomials, values_from, zero_nonce};

use crate::context::{Context, coin_key};
use crate::polynomials::number_at;
use chacha_stream::xor_stream;
use field61::Fe;
use shamir_limbs::{Key, limbs_of};

/// The bytes of the three coefficients of one power of x.
const POWER_BYTES: usize = 24;

/// The powers of x whose coefficients are read at once.
const BLOCK_POWERS: usize = 64;

/// Their bytes.
const BLOCK_BYTES: usize = POWER_BYTES * BLOCK_POWERS;

/// The share of a context at x: the values there of its three polynomials. The key is that of the
/// context, which then isn't hashed again. It takes no memory.
pub fn share_of(context: &Context, key: &Key, x: Fe) -> [Fe; 3]
    requires low { 1 ≤ context.now.k }
    requires high { context.now.k ≤ max_threshold context.now.version }
    requires key { key.now.bytes ≡ context_key context.now }
    ensures { result ≡ values (polynomials context.now) x }
{
    let powers = context.k as usize - 1;
    let [first, second, third] = values_behind(&coin_key(context), powers, x);
    let [a, b, c] = limbs_of(key);
    [
        a.add(x.mul(first)),
        b.add(x.mul(second)),
        c.add(x.mul(third)),
    ]
}

// The values of the three polynomials without their constant terms, divided by x.
fn values_behind(key: &[u8; 32], powers: usize, x: Fe) -> [Fe; 3]
    requires { powers < MAX_THRESHOLD_TWO }
    ensures { result ≡ values_from key.now 0 powers x }
{
    let mut behind = [Fe::ZERO; 3];
    let count = (powers + BLOCK_POWERS - 1) / BLOCK_POWERS;
    'turns: for done in 0..count {
        behind = values_from_block(key, count - 1 - done, powers, x, behind);
    }
    behind
}

// The same from the first power of a block on, if `behind` has them from the next block on.
fn values_from_block(key: &[u8; 32], block: usize, powers: usize, x: Fe, behind: [Fe; 3]) -> [Fe; 3]
    requires within { BLOCK_POWERS * block < powers }
    requires few { powers < MAX_THRESHOLD_TWO }
    requires behind { behind
        ≡ values_from key.now (BLOCK_POWERS * (block + 1)) (powers - BLOCK_POWERS * (block + 1)) x }
    ensures { result ≡ values_from key.now (BLOCK_POWERS * block) (powers - BLOCK_POWERS * block) x }
{
    let count = (powers - BLOCK_POWERS * block).min(BLOCK_POWERS);
    let coins = coins_of_block(key, block, count);
    let mut sums = behind;
    'powers: for done in 0..count {
        let place = POWER_BYTES * (count - 1 - done);
        sums = [
            number_at(&coins, place).add(x.mul(sums[0])),
            number_at(&coins, place + 8).add(x.mul(sums[1])),
            number_at(&coins, place + 16).add(x.mul(sums[2])),
        ];
    }
    sums
}

// The coins of the first powers of a block. What follows them is 0.
fn coins_of_block(key: &[u8; 32], block: usize, count: usize) -> [u8; BLOCK_BYTES]
    requires count { count ≤ BLOCK_POWERS }
    requires few { block < MAX_THRESHOLD_TWO }
    ensures { take (POWER_BYTES * count) result
        ≡ keystream key.now zero_nonce 0 (BLOCK_BYTES * block) (POWER_BYTES * count) }
{
    let mut coins = [0; BLOCK_BYTES];
    xor_stream(
        key,
        &[0; 12],
        (BLOCK_BYTES / 64 * block) as u32,
        &mut coins[..POWER_BYTES * count],
    );
    coins
}
