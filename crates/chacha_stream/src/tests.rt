use crate::xor_stream;

// The numbers from `first` on, each `step` above the one before, modulo 256.
fn numbers<const N: usize>(first: u8, step: u8) -> [u8; N] {
    let mut bytes = [0; N];
    let mut next = first;
    for place in 0..N {
        bytes[place] = next;
        next = next.wrapping_add(step);
    }
    bytes
}

// The first bytes of the keystream.
#[test]
fn the_keystream_is_that_of_the_standard(rt: HostRuntime) {
    let mut block = [0; 16];
    let nonce = b"\x00\x00\x00\x09\x00\x00\x00\x4a\x00\x00\x00\x00";
    xor_stream(&numbers(0, 1), nonce, 1, &mut block);
    assert_eq!(rt;
        block,
        *b"\x10\xf1\xe7\xe4\xd1\x3b\x59\x15\x50\x0f\xdd\x1f\xa3\x20\x71\xc4"
    );

    let mut block = [0; 20];
    xor_stream(&[0; 32], &[0; 12], 0, &mut block);
    assert_eq!(rt;
        block,
        *b"\x76\xb8\xe0\xad\xa0\xf1\x3d\x90\x40\x5d\x6a\xe5\x53\x86\xbd\x28\xbd\xd2\x19\xb8"
    );
}

// Bytes that Python's package cryptography gives.
#[test]
fn each_word_of_the_nonce_counts_and_so_does_the_last_block(rt: HostRuntime) {
    let key = numbers(0, 1);
    let nonce = b"\xf0\x01\x02\x03\x84\x05\x06\x07\x08\x09\x0a\xfb";
    let mut block = [0; 64];
    xor_stream(&key, nonce, 0xffff_ffff, &mut block);
    assert_eq!(rt; &block[..8], b"\x1f\xac\x99\xfd\xad\x6a\xea\xd5".as_slice());
    assert_eq!(rt;
        &block[56..],
        b"\xc2\xcc\xd4\xf8\xf8\x93\xfa\x8a".as_slice()
    );

    let mut text = numbers::<300>(3, 7);
    xor_stream(&key, nonce, 7, &mut text);
    let wanted: [(usize, &[u8; 8]); 4] = [
        (0, b"\x13\xe5\xff\xe1\xc0\xb4\x1f\x0b"),
        (60, b"\xba\xa8\xc9\xa8\x77\x3b\x62\xac"),
        (250, b"\x8f\x4f\x61\x17\x27\x8f\x9d\x96"),
        (292, b"\x41\xd4\xd8\xbd\x91\xf9\x6a\x75"),
    ];
    for (place, part) in wanted {
        assert_eq!(rt; &text[place..place + 8], part.as_slice());
    }
}
