use super::*;
use field61::Fe;
use report_frame::{Extra, Value};
use sha2::{Digest, Sha256};
use star_io::NoMemory;

// All values are those of an implementation in Python with hashlib and the package cryptography.

fn text_value(text: &[u8]) -> Value {
    Value::of(text).unwrap_or_default()
}

// The numbers from `first` on, modulo 256.
fn counted<const N: usize>(first: u8) -> [u8; N] {
    let mut bytes = [0; N];
    let mut next = first;
    for place in 0..N {
        bytes[place] = next;
        next = next.wrapping_add(1);
    }
    bytes
}

// Value j of the row of n values. Those of the longest row have 64 bytes.
fn value_of(longest: u8, n: u8, j: u8) -> Value {
    let bytes = counted::<64>(n.wrapping_mul(31).wrapping_add(j.wrapping_mul(7)));
    let length = if n == longest {
        64
    } else {
        1 + 9 * (8 * usize::from(n) + usize::from(j)) % 64
    };
    let (value, _) = bytes.split_at(length.min(64));
    text_value(value)
}

const THRESHOLDS: [u16; 16] = [
    2, 3, 20, 512, 5, 7, 100, 2, 4096, 513, 2, 4000, 3, 30, 9, 1000,
];

// The digest of the reports of one layer, of two and so on, and the length of the last.
#[test]
fn one_to_eight_layers(rt: HostRuntime) -> Result<(), NoMemory> {
    let mut hasher = Sha256::new();
    let mut last = 0;
    for n in 1..=8u8 {
        let values = [
            value_of(8, n, 0),
            value_of(8, n, 1),
            value_of(8, n, 2),
            value_of(8, n, 3),
            value_of(8, n, 4),
            value_of(8, n, 5),
            value_of(8, n, 6),
            value_of(8, n, 7),
        ];
        let layers = usize::from(n);
        let frame = build(
            rt.alloc(),
            &values[..layers],
            &THRESHOLDS[..layers],
            4000000000,
            &counted(0),
            1000000 * u32::from(n),
        )?;
        hasher.update(frame.as_slice());
        last = frame.len();
    }
    assert_eq!(rt; last, 1616);
    assert_eq!(rt;
        hasher.finalize(),
        *b"\x03\xa9\xbc\x7c\x2f\xed\x68\xab\xf1\xbc\x1b\x27\x60\xb9\x56\x55\x37\x94\xbc\x7e\xaa\xdf\x99\x70\x07\x2c\x5e\x48\x4e\x52\xda\x0d"
    );
    Ok(())
}

// How many extra bytes there are, how long the report of sixteen layers then is, and the hash of
// all reports.
const WITH_EXTRA_BYTES: [(usize, usize, [u8; 32]); 3] = [
    (
        0,
        3232,
        *b"\x49\x7b\xfb\x47\x9b\x85\x74\xfa\x8c\x9c\x88\x8f\xfb\x65\xf4\x96\x9b\x54\xb9\xd4\x56\x2a\x4d\xbf\x53\x86\xce\x2c\x60\xf5\xf4\xf6",
    ),
    (
        1,
        3233,
        *b"\x44\x5a\xa5\x11\xdc\x48\xc8\xcf\x4c\x26\xde\xeb\x7b\xc7\x9a\x8d\xfb\x60\x91\x7b\x48\xfd\x58\x91\x65\xbb\xbe\x56\x33\x77\xbf\xe9",
    ),
    (
        255,
        3487,
        *b"\x60\xf6\x85\xfe\xfb\xf2\xeb\xa4\xec\x7a\x4b\x4e\x05\xf3\x88\xc4\xdb\x2b\xfe\x04\x93\xe0\x07\x4b\x7f\xe6\xab\x82\x59\xea\x54\xf9",
    ),
];

// The same in version 2, with no, one and as many extra bytes as there may be.
#[test]
fn one_to_sixteen_layers_with_extra_bytes(rt: HostRuntime) -> Result<(), NoMemory> {
    for (length, longest, digest) in WITH_EXTRA_BYTES {
        let bytes = counted::<255>(7);
        let (extra, _) = bytes.split_at(length.min(255));
        let extra = Extra::of(extra).unwrap_or_default();
        let mut hasher = Sha256::new();
        let mut last = 0;
        for n in 1..=16u8 {
            let values = [
                value_of(16, n, 0),
                value_of(16, n, 1),
                value_of(16, n, 2),
                value_of(16, n, 3),
                value_of(16, n, 4),
                value_of(16, n, 5),
                value_of(16, n, 6),
                value_of(16, n, 7),
                value_of(16, n, 8),
                value_of(16, n, 9),
                value_of(16, n, 10),
                value_of(16, n, 11),
                value_of(16, n, 12),
                value_of(16, n, 13),
                value_of(16, n, 14),
                value_of(16, n, 15),
            ];
            let layers = usize::from(n);
            let frame = build2(
                rt.alloc(),
                &values[..layers],
                &THRESHOLDS[..layers],
                4000000000,
                &extra,
                &counted(0),
                1000000 * u32::from(n),
            )?;
            hasher.update(frame.as_slice());
            last = frame.len();
        }
        assert_eq!(rt; last, longest);
        assert_eq!(rt; hasher.finalize(), digest);
    }
    Ok(())
}

#[test]
fn every_byte_of_a_report_with_extra_bytes(rt: HostRuntime) -> Result<(), NoMemory> {
    let red = [text_value(b"red")];
    let extra = Extra::of(b"abc").unwrap_or_default();
    let frame = build2(rt.alloc(), &red, &[2], 1, &extra, &[0; 32], 0)?;
    assert_eq!(rt;
        frame.as_slice(),
        (b"\x53\x54\x02\x00\x00\x00\x00\x01\x00\x02\x06\xb8\xe0\xad\xa0\xf1\x3d\x91\x16\x8f\xea\xc4\x68\x7b\xf6\x69\x0f\xab\xbd\x6c\xe8\xb4\x7a\x72\x05\x34\x68\x8d\x03\x55\xae\xf7\x46\x4e\x22\x87\xd2\x0d\x26\x77\x0e\xde\xe5\x77\x42\xee\x5c\x68\xdb\xe4\xec\x28\x69\x1f\x79\xc3\x0b\xca\x79\x72\x59\xd3\x8c\x93\xc3\x60\x86\x43\xa3\xa9\x09\xb1\x4d\x30\xc0\x90\x63\xf4\x87\x13\x03\xd0\x7d\x4d\x40\x5d\x6a\xe5\x53\x86\xbd\x28\xbd\xd2\x19\xb8\x00\x04\xa6\x35\x62\x71\xd2\x3d\x64\x1d\xb8\xc7\xf2\xd7\x93\xed\xdc\x53\xcb\xa4\x4f\xbf\x73\x8e\xf2\x70\xd5\xa4\x79\xd4\xb1\x9d\x4a\x6d\xe8\x7a\xbe\xa3").as_slice()
    );
    let frame = build2(rt.alloc(), &red, &[2], 1, &Extra::default(), &[0; 32], 0)?;
    assert_eq!(rt; frame.len(), 141);
    Ok(())
}

#[test]
fn a_share_raised_by_the_greatest_shift(rt: HostRuntime) -> Result<(), NoMemory> {
    let values = [text_value(b"red"), text_value(b"blue")];
    let shift = Fe::ZERO.sub(Fe::ONE);
    let frame = build_shifted(rt.alloc(), &values, &[2, 3], 1, &[0; 32], 5, shift)?;
    assert_eq!(rt; frame.len(), 283);
    assert_eq!(rt;
        Sha256::digest(frame.as_slice()),
        *b"\xbf\x4b\xa7\xcb\x79\x1f\x53\x4b\x87\x73\x7a\xcf\xf9\x94\x6f\xf2\x2b\x5b\xf2\xaf\x37\x25\xcc\xe0\x7e\xaa\x30\x98\x56\x87\xa8\x3a"
    );
    Ok(())
}

#[test]
fn the_text_of_a_table(rt: HostRuntime) -> Result<(), NoMemory> {
    let mut table = Table::new(rt.alloc());
    table.add_row(&[
        text_value(b"red"),
        text_value(b"blue"),
        text_value(&[b'x'; 64]),
    ])?;
    table.add_row(&[text_value(b"red"), text_value(b"green"), text_value(b"y")])?;
    assert_eq!(rt; table.len(), 2);
    assert!(rt; table.row(1)[1] == text_value(b"green"));
    let text = make_text(rt.alloc(), &table, &[2, 3, 512], 4000000000, &counted(0))?;
    assert_eq!(rt; text.len(), 916);
    assert_eq!(rt;
        Sha256::digest(text.as_slice()),
        *b"\x2d\xee\x5c\x49\x40\x49\x08\x7e\x92\xbf\xb7\x6b\x6c\x41\x1d\x3c\x44\x44\xb8\xab\x01\xd8\x77\xa9\xbe\xac\x40\xfb\x5b\x9c\x37\xce"
    );
    Ok(())
}

#[test]
fn the_text_of_a_table_with_extra_bytes(rt: HostRuntime) -> Result<(), NoMemory> {
    let mut table = Table2::new(rt.alloc());
    let first = Extra::of(b"first").unwrap_or_default();
    table.add_row(
        &[
            text_value(b"red"),
            text_value(b"blue"),
            text_value(&[b'x'; 64]),
        ],
        &first,
    )?;
    table.add_row(
        &[text_value(b"red"), text_value(b"green"), text_value(b"y")],
        &Extra::default(),
    )?;
    let text = make_text2(rt.alloc(), &table, &[2, 3, 4096], 4000000000, &counted(0))?;
    assert_eq!(rt; text.len(), 921);
    assert_eq!(rt;
        Sha256::digest(text.as_slice()),
        *b"\xa1\x4d\x6f\xac\x5e\xcd\xdd\xd2\x85\x04\x59\xef\xb8\xe7\x85\x58\x10\xd5\x72\xef\x0e\x8a\x68\xab\xff\x1c\x28\x92\xfb\x70\x95\xee"
    );
    Ok(())
}

#[test]
fn two_hundred_reports_with_liars(rt: HostRuntime) -> Result<(), NoMemory> {
    let text = gen_text(rt.alloc(), 7, 200, 10)?;
    assert_eq!(rt; text.len(), 56847);
    assert_eq!(rt;
        Sha256::digest(text.as_slice()),
        *b"\x7f\xb2\xb3\xc2\x06\xe1\xdf\xff\x34\x71\xa9\x6e\x36\x98\x09\xcc\x47\xe8\xd2\xe8\x96\x34\xb3\x1d\x0c\xac\x9c\xbb\x9b\xcb\x13\x9a"
    );
    Ok(())
}

#[test]
fn a_liar_differs_in_one_share_and_the_seal(rt: HostRuntime) -> Result<(), NoMemory> {
    let liar = gen_text(rt.alloc(), 0, 1, 100)?;
    let honest = gen_text(rt.alloc(), 0, 1, 0)?;
    assert_eq!(rt; liar.len(), 284);
    assert_eq!(rt; honest.len(), 284);
    let mut place = 0u32;
    let mut differ = 0u32;
    for (a, b) in liar.iter().zip(honest.iter()) {
        if a != b {
            assert!(rt; (22..30).contains(&place) || place >= 252, "byte {place}");
            differ = differ.saturating_add(1);
        }
        place = place.saturating_add(1);
    }
    assert!(rt; differ > 0);
    Ok(())
}
