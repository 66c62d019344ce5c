// The vectors, computed.
ghost use Rattle.std.specs.Prelude.{◌≡◌, ◌+◌, ◌*◌, ◌^◌, ◌≤◌, IfOk};
ghost use Rattle.chacha_stream.specs.Keystream.{keystream};
ghost use Rattle.star_vectors.specs.Vectors.{filled_up, vectors, sha256_abc, hmac_case_1, hmac_case_2, keystream_block, keystream_of_zeros, key_limbs, decoded_line};

use crate::numbers::{decoded, element, spelled};
use chacha_stream::xor_stream;
use hmac_seal::hmac;
use sha2::{Digest, Sha256};
use shamir_limbs::{Key, limbs_of};
use star_io::NoMemory;
use std::alloc::Global;

/// A computation that was done. Fewer bytes than 32 are filled up with zeros at the end.
#[derive(Clone, Copy, Debug)]
pub(crate) struct Vector {
    pub number: u8,
    pub got: [u8; 32],
    /// What a standard states, or what can be seen without computing.
    pub wanted: [u8; 32],
}

/// The vectors in order.
#[tactic(auto, unfolding(crate::specs::Vectors::vectors))]
pub(crate) fn vectors(alloc: Global) -> Result<[Vector; 7], NoMemory>
    ensures { IfOk result (λ all. all ≡ vectors) }
{
    Ok([
        sha256_abc(),
        hmac_case_1(),
        hmac_case_2(),
        keystream_block(),
        keystream_of_zeros(),
        key_limbs(),
        decoded_line(alloc)?,
    ])
}

#[tactic(auto, unfolding(crate::specs::Vectors::sha256_abc))]
fn sha256_abc() -> Vector
    ensures { result ≡ sha256_abc }
{
    Vector {
        number: 1,
        got: Sha256::digest(b"abc"),
        wanted: *b"\xba\x78\x16\xbf\x8f\x01\xcf\xea\x41\x41\x40\xde\x5d\xae\x22\x23\xb0\x03\x61\xa3\x96\x17\x7a\x9c\xb4\x10\xff\x61\xf2\x00\x15\xad",
    }
}

#[tactic(auto, unfolding(crate::specs::Vectors::hmac_case_1))]
fn hmac_case_1() -> Vector
    ensures { result ≡ hmac_case_1 }
{
    Vector {
        number: 2,
        got: hmac(&[0x0b; 20], b"Hi There"),
        wanted: *b"\xb0\x34\x4c\x61\xd8\xdb\x38\x53\x5c\xa8\xaf\xce\xaf\x0b\xf1\x2b\x88\x1d\xc2\x00\xc9\x83\x3d\xa7\x26\xe9\x37\x6c\x2e\x32\xcf\xf7",
    }
}

#[tactic(auto, unfolding(crate::specs::Vectors::hmac_case_2))]
fn hmac_case_2() -> Vector
    ensures { result ≡ hmac_case_2 }
{
    Vector {
        number: 3,
        got: hmac(b"Jefe", b"what do ya want for nothing?"),
        wanted: *b"\x5b\xdc\xc1\x46\xbf\x60\x75\x4e\x6a\x04\x24\x26\x08\x95\x75\xc7\x5a\x00\x3f\x08\x9d\x27\x39\x83\x9d\xec\x58\xb9\x64\xec\x38\x43",
    }
}

#[tactic(auto, unfolding(crate::specs::Vectors::keystream_block))]
fn keystream_block() -> Vector
    ensures { result ≡ keystream_block }
{
    Vector {
        number: 4,
        got: first_bytes(
            b"\x00\x01\x02\x03\x04\x05\x06\x07\x08\x09\x0a\x0b\x0c\x0d\x0e\x0f\x10\x11\x12\x13\x14\x15\x16\x17\x18\x19\x1a\x1b\x1c\x1d\x1e\x1f",
            b"\x00\x00\x00\x09\x00\x00\x00\x4a\x00\x00\x00\x00",
            1,
            16,
        ),
        wanted: *b"\x10\xf1\xe7\xe4\xd1\x3b\x59\x15\x50\x0f\xdd\x1f\xa3\x20\x71\xc4\0\0\0\0\0\0\0\0\0\0\0\0\0\0\0\0",
    }
}

#[tactic(auto, unfolding(crate::specs::Vectors::keystream_of_zeros))]
fn keystream_of_zeros() -> Vector
    ensures { result ≡ keystream_of_zeros }
{
    Vector {
        number: 5,
        got: first_bytes(&[0; 32], &[0; 12], 0, 20),
        wanted: *b"\x76\xb8\xe0\xad\xa0\xf1\x3d\x90\x40\x5d\x6a\xe5\x53\x86\xbd\x28\xbd\xd2\x19\xb8\0\0\0\0\0\0\0\0\0\0\0\0",
    }
}

#[tactic(auto, unfolding(crate::specs::Vectors::key_limbs))]
fn key_limbs() -> Vector
    ensures { result ≡ key_limbs }
{
    let key = Key {
        bytes: *b"\x00\x01\x02\x03\x04\x05\x06\x07\x08\x09\x0a\x0b\x0c\x0d\x0e\x0f",
    };
    Vector {
        number: 6,
        got: spelled(&limbs_of(&key)),
        wanted: *b"\0\0\0\x01\x02\x03\x04\x05\0\0\0\x06\x07\x08\x09\x0a\0\0\0\x0b\x0c\x0d\x0e\x0f\0\0\0\0\0\0\0\0",
    }
}

#[tactic(auto, unfolding(crate::specs::Vectors::decoded_line))]
fn decoded_line(alloc: Global) -> Result<Vector, NoMemory>
    ensures { IfOk result (λ vector. vector ≡ decoded_line) }
{
    let xs = [element(1), element(2), element(3), element(4)];
    let ys = [element(5), element(7), element(9), element(100)];
    let got = decoded(alloc, &xs, &ys)?;
    Ok(Vector {
        number: 7,
        got,
        wanted: *b"\0\0\0\0\0\0\0\x03\0\0\0\0\0\0\0\x02\0\0\0\0\0\0\0\0\0\0\0\0\0\0\0\0",
    })
}

// The first bytes of a keystream.
fn first_bytes(key: &[u8; 32], nonce: &[u8; 12], counter: u32, length: usize) -> [u8; 32]
    requires fits { length ≤ 32 }
    requires blocks { 64 * counter + length ≤ 2 ^ 38 }
    ensures { result ≡ filled_up (keystream key.now nonce.now counter 0 length) }
{
    let mut bytes = [0; 32];
    xor_stream(key, nonce, counter, &mut bytes[..length]);
    bytes
}
