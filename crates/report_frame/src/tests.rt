use super::*;
use field61::Fe;

const FRONT: &[u8; 18] = b"ST\x01\x00\x00\x00\x00\x01\x00\x02\x00\x00\x00\x00\x00\x00\x00\x01";

// The shortest frame: level 0, epoch 1, k 2 and x 1, with a box and a body of one byte each. All
// other fields are 0.
fn shortest() -> [u8; 139] {
    let mut bytes = [0; 139];
    bytes[..18].copy_from_slice(FRONT);
    bytes[90] = 1;
    bytes[105] = 1;
    bytes
}

// The shortest frame with other bytes at this place.
fn changed(at: usize, change: &[u8]) -> [u8; 139] {
    let mut bytes = shortest();
    for (place, byte) in bytes.iter_mut().skip(at).zip(change) {
        *place = *byte;
    }
    bytes
}

fn fault_of(bytes: &[u8]) -> Option<(FaultKind, u32)> {
    let fault = decode_view(bytes).err()?;
    Some((fault.kind, fault.at))
}

#[test]
fn names_the_first_fault(rt: HostRuntime) {
    let modulus = 0x1fff_ffff_ffff_ffff_u64.to_be_bytes();
    let greatest = 0x1fff_ffff_ffff_fffe_u64.to_be_bytes();
    let cases: [(usize, &[u8], Option<(FaultKind, u32)>); 28] = [
        (0, &[], None),
        (0, &[0x54], Some((FaultKind::Magic, 0))),
        (2, &[0], Some((FaultKind::Version, 2))),
        (2, &[3], Some((FaultKind::Version, 2))),
        (2, &[2], None),
        (2, &[2, 15], None),
        (2, &[2, 16], Some((FaultKind::Level, 3))),
        (2, &[2, 0, 0, 0, 0, 1, 16, 0], None),
        (
            2,
            &[2, 0, 0, 0, 0, 1, 16, 1],
            Some((FaultKind::Threshold, 8)),
        ),
        (3, &[8], Some((FaultKind::Level, 3))),
        (3, &[7], None),
        (8, &[0, 1], Some((FaultKind::Threshold, 8))),
        (8, &[2, 1], Some((FaultKind::Threshold, 8))),
        (8, &[2, 0], None),
        (10, &[0; 8], Some((FaultKind::Point, 10))),
        (10, &modulus, Some((FaultKind::Point, 10))),
        (10, &greatest, None),
        (18, &modulus, Some((FaultKind::Share, 18))),
        (26, &modulus, Some((FaultKind::Share, 26))),
        (34, &modulus, Some((FaultKind::Share, 34))),
        (18, &greatest, None),
        (26, &greatest, None),
        (34, &greatest, None),
        (90, &[0], Some((FaultKind::BoxLength, 90))),
        (90, &[65], Some((FaultKind::BoxLength, 90))),
        (104, &[0, 0], Some((FaultKind::BodyLength, 104))),
        (104, &[0, 2], Some((FaultKind::Truncated, 108))),
        (104, &[255, 255], Some((FaultKind::Truncated, 106))),
    ];
    for (at, change, fault) in cases {
        assert_eq!(rt; fault_of(&changed(at, change)), fault, "{change:?} at {at}");
    }
}

#[test]
fn names_the_fault_of_an_end(rt: HostRuntime) {
    let frame = shortest();
    let (shorter, _) = frame.split_at(138);
    let mut longer = [0; 140];
    longer[..139].copy_from_slice(&frame);
    assert_eq!(rt; fault_of(&[]), Some((FaultKind::Truncated, 0)));
    assert_eq!(rt; fault_of(shorter), Some((FaultKind::Truncated, 107)));
    assert_eq!(rt; fault_of(&longer), Some((FaultKind::Trailing, 139)));
}

// A frame of this version with a box of 64 bytes and a body of so many, and zeros behind it.
fn with_longest_box(version: u8, body: u16) -> [u8; 8193] {
    let mut bytes = [0; 8193];
    bytes[..18].copy_from_slice(FRONT);
    bytes[2] = version;
    bytes[90] = 64;
    bytes[167..169].copy_from_slice(&body.to_be_bytes());
    bytes
}

// The first bytes, so many where there are as many.
fn front(bytes: &[u8], count: usize) -> &[u8] {
    if count <= bytes.len() {
        &bytes[..count]
    } else {
        bytes
    }
}

#[test]
fn reads_at_most_so_many_bytes(rt: HostRuntime) {
    let first = with_longest_box(1, 3895);
    assert_eq!(rt; fault_of(front(&first, 4096)), None);
    assert_eq!(rt;
        fault_of(front(&first, 4097)),
        Some((FaultKind::TooLong, 4096))
    );
    let second = with_longest_box(2, 7991);
    assert_eq!(rt; fault_of(front(&second, 8192)), None);
    assert_eq!(rt; fault_of(&second), Some((FaultKind::TooLong, 8192)));
}

#[test]
fn too_many_bytes_of_version_1_come_first(rt: HostRuntime) {
    let mut bytes = [0; 8193];
    assert_eq!(rt; fault_of(&bytes[..4097]), Some((FaultKind::Magic, 0)));
    bytes[..3].copy_from_slice(b"ST\x01");
    assert_eq!(rt; fault_of(&bytes[..4096]), Some((FaultKind::Threshold, 8)));
    assert_eq!(rt; fault_of(&bytes[..4097]), Some((FaultKind::TooLong, 4096)));
    assert_eq!(rt; fault_of(&bytes[..8192]), Some((FaultKind::TooLong, 4096)));
    assert_eq!(rt; fault_of(&bytes), Some((FaultKind::TooLong, 8192)));
}

#[test]
fn shows_each_field(rt: HostRuntime) -> Result<(), Fault> {
    let mut bytes = [0; 142];
    bytes[..18].copy_from_slice(
        b"ST\x01\x03\x01\x02\x03\x04\x00\x0a\x00\x00\x00\x00\x00\x00\x00\x05",
    );
    bytes[25] = 6;
    bytes[33] = 7;
    bytes[41] = 8;
    bytes[42..58].fill(0x11);
    bytes[58..90].fill(0x22);
    bytes[90..93].copy_from_slice(b"\x02FR");
    bytes[93..105].fill(0x33);
    bytes[105..110].copy_from_slice(b"\x00\x03abc");
    bytes[110..].fill(0x44);
    let view = decode_view(&bytes)?;
    assert_eq!(rt; view.version(), Version::One);
    assert_eq!(rt; view.level(), 3);
    assert_eq!(rt; view.epoch(), 0x01020304);
    assert_eq!(rt; view.k(), 10);
    assert_eq!(rt; view.x().value(), 5);
    assert_eq!(rt; view.y().map(Fe::value), [6, 7, 8]);
    let head = view.head();
    assert_eq!(rt; head.version, Version::One);
    assert_eq!(rt; head.k, 10);
    assert_eq!(rt; head.tag, [0x11; 16]);
    assert_eq!(rt; head.check, [0x22; 32]);
    assert_eq!(rt; head.boxed.as_slice(), b"FR".as_slice());
    assert_eq!(rt; view.boxed(), b"FR".as_slice());
    assert_eq!(rt; view.nonce(), [0x33; 12]);
    assert_eq!(rt; view.body(), b"abc".as_slice());
    assert_eq!(rt; view.sealed_part(), &bytes[..110]);
    assert_eq!(rt; view.seal(), [0x44; 32]);
    Ok(())
}
