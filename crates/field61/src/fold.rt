// Remainders modulo 2^61 - 1 with no division.
ghost use Rattle.std.specs.Prelude.{◌≡◌, ◌*◌, ◌%◌, ◌<◌};

use crate::MODULUS;

/// The remainder of a number below twice the modulus.
pub(crate) fn reduced(total: u64) -> u64
    requires { total < 2 * MODULUS }
    ensures { result ≡ total % MODULUS }
{
    if total < MODULUS {
        total
    } else {
        total - MODULUS
    }
}

/// The remainder of a product of two numbers below the modulus. 2^61 is 1 modulo it, so the bits
/// from 61 up are added to those below.
pub(crate) fn folded(product: u128) -> u64
    requires { product < MODULUS * MODULUS }
    ensures { result ≡ product % MODULUS }
{
    let low = (product & MODULUS as u128) as u64;
    let high = (product >> 61) as u64;
    reduced(low + high)
}

/// The remainder of any number of 128 bits.
pub(crate) fn folded_sum(total: u128) -> u64
    ensures { result ≡ total % MODULUS }
{
    let low = (total & MODULUS as u128) as u64;
    let middle = ((total >> 61) & MODULUS as u128) as u64;
    let high = (total >> 122) as u64;
    let sum = low + middle + high;
    reduced((sum & MODULUS) + (sum >> 61))
}
