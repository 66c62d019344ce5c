// The polynomials of a context.
ghost use Rattle.std.specs.Prelude.{◌≡◌, ◌+◌, ◌≤◌, ◌%◌, ◌^◌, length, drop, IfOk};
ghost use Rattle.byteorder.specs.Endian.{big_number};
ghost use Rattle.chacha_stream.specs.Keystream.{keystream};
ghost use Rattle.field61.specs.declared.TheConstants.{MODULUS};
ghost use Rattle.report_frame.specs.Versions.{max_threshold};
ghost use Rattle.adss_commit.specs.Derivation.{context_key, polynomials, zero_nonce};

use crate::context::{Context, coin_key, context_key};
use byteorder::{BigEndian, ByteOrder};
use chacha_stream::xor_stream;
use field61::Fe;
use shamir_limbs::{Coefficients, Key};
use star_io::NoMemory;
use std::alloc::Global;

/// The three polynomials of a context. Its shares are their values.
pub fn coefficients(alloc: Global, context: &Context) -> Result<Coefficients, NoMemory>
    requires low { 1 ≤ context.now.k }
    requires high { context.now.k ≤ max_threshold context.now.version }
    ensures { IfOk result (λ c. c ≡ polynomials context.now) }
{
    coefficients_of(alloc, context, &context_key(context))
}

// The same by the key of the context.
fn coefficients_of(alloc: Global, context: &Context, key: &Key) -> Result<Coefficients, NoMemory>
    requires low { 1 ≤ context.now.k }
    requires high { context.now.k ≤ max_threshold context.now.version }
    requires key { key.now.bytes ≡ context_key context.now }
    ensures { IfOk result (λ c. c ≡ polynomials context.now) }
{
    let k = context.k as usize;
    let mut made = Coefficients::of(alloc, key, k)?;
    let bytes = stream_bytes(alloc, &coin_key(context), 24 * (k - 1))?;
    'powers: for i in 1..k {
        let place = 24 * (i - 1);
        made.set(0, i, number_at(&bytes, place));
        made.set(1, i, number_at(&bytes, place + 8));
        made.set(2, i, number_at(&bytes, place + 16));
    }
    Ok(made)
}

// The first n bytes of the keystream of a key.
fn stream_bytes(alloc: Global, key: &[u8; 32], n: usize) -> Result<Vec<u8>, NoMemory>
    requires { n ≤ 2 ^ 38 }
    ensures bytes { IfOk result (λ v. v.items ≡ keystream key.now zero_nonce 0 0 n) }
    ensures long { IfOk result (λ v. length v.items ≡ n) }
{
    let mut bytes = vec![in alloc; 0u8; n]?;
    xor_stream(key, &[0; 12], 0, &mut bytes);
    Ok(bytes)
}

// The low 61 bits of the big-endian number at this place. The modulus, the one such number that is
// no field element, counts as 0.
pub(crate) fn number_at(bytes: &[u8], place: usize) -> Fe
    requires { place + 8 ≤ length bytes.now }
    ensures { result ≡ big_number 8 (drop place bytes.now) % 2 ^ 61 % MODULUS }
{
    let number = BigEndian::read_u64(&bytes[place..]) % (1 << 61);
    Fe::new(number).unwrap_or(Fe::ZERO)
}
