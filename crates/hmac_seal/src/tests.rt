use crate::{hmac, verify};
use std::test::*;

// Cases 1 and 2 of RFC 4231.
#[test]
fn the_standard_cases(rt: HostRuntime) {
    let cases: [(&[u8], &[u8], [u8; 32]); 2] = [
        (
            &[0x0b; 20],
            b"Hi There",
            *b"\xb0\x34\x4c\x61\xd8\xdb\x38\x53\x5c\xa8\xaf\xce\xaf\x0b\xf1\x2b\x88\x1d\xc2\x00\xc9\x83\x3d\xa7\x26\xe9\x37\x6c\x2e\x32\xcf\xf7",
        ),
        (
            b"Jefe",
            b"what do ya want for nothing?",
            *b"\x5b\xdc\xc1\x46\xbf\x60\x75\x4e\x6a\x04\x24\x26\x08\x95\x75\xc7\x5a\x00\x3f\x08\x9d\x27\x39\x83\x9d\xec\x58\xb9\x64\xec\x38\x43",
        ),
    ];
    for (key, message, wanted) in cases {
        assert_eq!(rt; hmac(key, message), wanted);
        assert!(rt; verify(key, message, &wanted));
        assert!(rt; !verify(key, message, &hmac(message, key)));
    }
}

// Seals that Python's hmac gives: a key of a block is taken as it is, and a longer one hashed.
#[test]
fn keys_of_every_kind_of_length(rt: HostRuntime) {
    let mut key = [0; 200];
    for place in 0..200usize {
        key[place] = (5 * place % 256) as u8;
    }
    let cases: [(usize, [u8; 32]); 5] = [
        (
            0,
            *b"\x81\x5e\x05\xce\x65\x28\x4e\x23\x58\xcc\x8b\x29\x38\xf2\x2f\x53\xe2\xf2\xd3\xdf\x16\x70\xf4\x20\x41\x47\x48\x1c\x35\xc0\x85\x3b",
        ),
        (
            63,
            *b"\xf0\x62\xec\x18\xb3\xbb\x1d\x9b\x85\x0e\xf8\xbc\x5d\x97\x2a\xc2\x8b\x93\x5e\x9d\xef\x62\x93\xf7\x4d\x51\xe8\x97\x3a\xa6\x49\x06",
        ),
        (
            64,
            *b"\x15\x89\x59\xa4\xd1\x81\x72\x16\xad\x9d\x98\x66\xc5\x6d\x8d\xa1\x07\x09\xa2\x36\xca\xb6\xf2\x03\x05\x41\x01\xcb\xd0\x81\x66\x90",
        ),
        (
            65,
            *b"\x0a\x8a\xe0\x3b\xe6\xc8\x54\xfd\x90\x24\x66\xdf\x5b\xe6\x71\xb0\x11\x2a\x78\xee\x98\x79\x49\x45\x8a\x69\xd0\xe8\x2f\x64\xf6\xcc",
        ),
        (
            200,
            *b"\xa9\x25\xf6\x95\xdf\xc1\x1b\x82\xe8\xc2\xfa\x9d\xd4\xe8\x8d\xcd\xa8\x60\x1c\x92\xfb\x6f\x23\x43\x7b\x85\xf9\x33\x39\x62\xb4\x7d",
        ),
    ];
    for (length, wanted) in cases {
        assert_eq!(rt; hmac(&key[..length], b"message under a key"), wanted);
    }
}

// A seal counts to its last byte.
#[test]
fn a_seal_that_differs_anywhere_is_refused(rt: HostRuntime) {
    let seal = hmac(b"key", b"message");
    for place in 0..32usize {
        let mut other = seal;
        other[place] ^= 1;
        assert!(rt; !verify(b"key", b"message", &other));
    }
}
