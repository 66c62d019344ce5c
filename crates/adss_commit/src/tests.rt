use super::*;
use field61::Fe;
use report_frame::{Head, Value, Version};
use shamir_limbs::{Key, share_at};
use star_io::NoMemory;

// Version, each byte of the parent, epoch, level, k and the length of the value.
type Place = (Version, u8, u32, u8, u16, u8);

// A context with all bytes of the parent alike. Value byte i of n is n + 7 i, modulo 256.
fn context_of((version, parent, epoch, level, k, n): Place) -> Context {
    let mut bytes = [0; 64];
    let mut next = n;
    for byte in bytes.iter_mut() {
        *byte = next;
        next = next.wrapping_add(7);
    }
    let (value, _) = bytes.split_at(usize::from(n).min(64));
    Context {
        version,
        parent: [parent; 32],
        epoch,
        level,
        k,
        value: Value::of(value).unwrap_or_default(),
    }
}

// The first 8 bytes as a number. Zeros follow fewer.
fn front(bytes: &[u8]) -> u64 {
    let mut eight = [0; 8];
    for (place, byte) in eight.iter_mut().zip(bytes) {
        *place = *byte;
    }
    u64::from_be_bytes(eight)
}

// A context; then the fronts of key, tag, check,
// box, body key and seal key, and the share at 1234567890123456789. The values are those of an
// implementation in Python with hashlib and the package cryptography.
type Row = (Place, [u64; 6], [u64; 3]);

const DERIVED: [Row; 6] = [
    (
        (Version::One, 0, 1, 0, 2, 1),
        [
            0x312b26cc5876bcf9,
            0x61a9a54cf86e33f5,
            0xe6bc63c46f71446d,
            0xae00000000000000,
            0x334bda47186afa68,
            0x017bc456816be138,
        ],
        [904454914962009119, 2092882332378066761, 1689399037956362463],
    ),
    (
        (Version::One, 7, 7, 1, 20, 17),
        [
            0xa04fd34a9daeb7ae,
            0xd031b22ac8b48d52,
            0x118674ba013bd159,
            0xcf3aafeb105e554b,
            0x2bf3b499d9763965,
            0x9e04fd3e6a291a87,
        ],
        [959629471210534120, 1105633317032621660, 1746737952022132491],
    ),
    (
        (Version::One, 255, 4294967295, 7, 512, 64),
        [
            0xde0feed6ef3ff393,
            0xe3ed004117edbef0,
            0xa195d04e6c047b0e,
            0x339525462267df3a,
            0xba639b59963f8439,
            0x53c07fbe3a23efff,
        ],
        [
            2297793262569116253,
            1352850954783082589,
            1029203442642489772,
        ],
    ),
    (
        (Version::Two, 0, 1, 0, 2, 1),
        [
            0x793c0bae029f94ba,
            0x8d899295805b3c34,
            0x747143fef3995ef0,
            0x4800000000000000,
            0xe9decd432396c810,
            0xa2719acb8ea0f847,
        ],
        [1706667478345264891, 602584368266187856, 838095791769010021],
    ),
    (
        (Version::Two, 7, 7, 8, 513, 17),
        [
            0x85cb24978ad686a3,
            0x5ee6f58ebf3840af,
            0x33fd3a11ad122e8e,
            0x0f746050aaccb915,
            0x40f7b16e8917e7ec,
            0xa8037f056ea6aea8,
        ],
        [
            1579033374991493568,
            1419883161179802309,
            1351375202400792382,
        ],
    ),
    (
        (Version::Two, 255, 4294967295, 15, 4096, 64),
        [
            0xe5543e3c8a8ac3f2,
            0x07d960c89244a8e5,
            0x5a3c0d3d7cbbedf9,
            0xc07950ab922348bd,
            0x257f930a23511c80,
            0x32711e25edd15135,
        ],
        [1328166852125956298, 1759172060472858313, 383195917781408749],
    ),
];

#[test]
fn what_is_derived_from_contexts_of_both_versions(rt: HostRuntime) -> Result<(), NoMemory> {
    let x = Fe::new(1234567890123456789).unwrap_or(Fe::ZERO);
    for (place, fronts, y) in DERIVED {
        let context = context_of(place);
        let version = context.version;
        assert!(rt; 1 <= context.k && context.k <= version.max_threshold());
        let derived = derive(&context);
        let boxed = box_value(version, &derived.key, &context.value);
        let made = [
            front(&derived.key.bytes),
            front(&derived.tag),
            front(&derived.check),
            front(boxed.as_slice()),
            front(&body_key(version, &derived.key)),
            front(&seal_key(version, &derived.key)),
        ];
        assert_eq!(rt; made, fronts);
        let polynomials = coefficients(rt.alloc(), &context)?;
        assert_eq!(rt; share_at(&polynomials, x).map(Fe::value), y);
        assert_eq!(rt; share_of(&context, &derived.key, x).map(Fe::value), y);
        let head = Head {
            version,
            k: context.k,
            tag: derived.tag,
            check: derived.check,
            boxed,
        };
        let opened = open_value(
            &derived.key,
            &head,
            &context.parent,
            context.epoch,
            context.level,
        );
        assert_eq!(rt; opened, Some(context.value));
    }
    Ok(())
}
