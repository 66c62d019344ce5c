use super::*;
use crate::status::{BAD_EXTRA, BAD_THRESHOLDS, BAD_VALUES, BAD_VERSION};

// The values are those of an implementation in Python with hashlib and the package cryptography.

#[test]
fn every_byte_of_a_report(rt: HostRuntime) {
    let mut out = [0xaa; 150];
    let mut written = 77;
    let status = star_client_report(
        2,
        b"\x03red",
        &[2],
        b"abc",
        1,
        &[0; 32],
        0,
        &mut out,
        &mut written,
    );
    assert_eq!(rt; status, DONE);
    assert_eq!(rt; written, 144);
    let (report, rest) = out.split_at(144);
    assert_eq!(rt;
        report,
        (b"\x53\x54\x02\x00\x00\x00\x00\x01\x00\x02\x06\xb8\xe0\xad\xa0\xf1\x3d\x91\x16\x8f\xea\xc4\x68\x7b\xf6\x69\x0f\xab\xbd\x6c\xe8\xb4\x7a\x72\x05\x34\x68\x8d\x03\x55\xae\xf7\x46\x4e\x22\x87\xd2\x0d\x26\x77\x0e\xde\xe5\x77\x42\xee\x5c\x68\xdb\xe4\xec\x28\x69\x1f\x79\xc3\x0b\xca\x79\x72\x59\xd3\x8c\x93\xc3\x60\x86\x43\xa3\xa9\x09\xb1\x4d\x30\xc0\x90\x63\xf4\x87\x13\x03\xd0\x7d\x4d\x40\x5d\x6a\xe5\x53\x86\xbd\x28\xbd\xd2\x19\xb8\x00\x04\xa6\x35\x62\x71\xd2\x3d\x64\x1d\xb8\xc7\xf2\xd7\x93\xed\xdc\x53\xcb\xa4\x4f\xbf\x73\x8e\xf2\x70\xd5\xa4\x79\xd4\xb1\x9d\x4a\x6d\xe8\x7a\xbe\xa3").as_slice()
    );
    assert_eq!(rt; rest, [0xaa; 6].as_slice());
}

// Version, cells, thresholds, extra bytes, length of the seed and of the buffer, and the status.
type Row = (
    u32,
    &'static [u8],
    &'static [u16],
    &'static [u8],
    usize,
    usize,
    u32,
);

const FAULTY: [Row; 6] = [
    (3, b"\x01a", &[2], b"", 32, 139, BAD_VERSION),
    (1, b"\x01a", &[513], b"", 32, 139, BAD_THRESHOLDS),
    (2, b"\x02a", &[4096], b"", 32, 139, BAD_VALUES),
    (1, b"\x01a", &[2], b"x", 32, 140, BAD_EXTRA),
    (2, b"\x01a", &[2], b"x", 31, 140, BAD_SEED),
    (2, b"\x01a", &[2], b"x", 32, 139, SMALL_BUFFER),
];

#[test]
fn what_is_wrong_first(rt: HostRuntime) {
    for (version, cells, thresholds, extra, seed, room, wanted) in FAULTY {
        let seeds = [7; 32];
        let mut buffer = [0xaa; 140];
        let (seed, _) = seeds.split_at(seed.min(32));
        let (out, _) = buffer.split_at_mut(room.min(140));
        let mut written = 77;
        let status = star_client_report(
            version,
            cells,
            thresholds,
            extra,
            1,
            seed,
            0,
            out,
            &mut written,
        );
        assert_eq!(rt; status, wanted);
        assert_eq!(rt; written, 77);
    }
    let mut length = 0;
    assert_eq!(rt;
        star_client_length(1, b"\x01a\x02bc", &[2, 3], b"", &mut length),
        DONE
    );
    assert_eq!(rt; length, 279);
}
