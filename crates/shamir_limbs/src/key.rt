// Keys, and the limbs that they consist of.
ghost use Rattle.std.specs.Prelude.{◌≡◌, ◌<◌, ◌↔◌, slice_index, IsSome, IfSome};
ghost use Rattle.std.specs.Int.{w64, from_be_bytes};
ghost use Rattle.shamir_limbs.specs.Limbs.{limbs, key_bytes, AreLimbs};

use field61::Fe;

/// A key that is shared.
#[derive(Clone, Copy, Debug, PartialEq, Eq)]
pub struct Key {
    pub bytes: [u8; 16],
}

/// The limbs of the key: its bytes 0..6, 6..11 and 11..16, each as a big-endian number.
pub fn limbs_of(key: &Key) -> [Fe; 3]
    ensures { result ≡ limbs key.now.bytes }
{
    let b = key.bytes;
    [
        limb([0, 0, b[0], b[1], b[2], b[3], b[4], b[5]]),
        limb([0, 0, 0, b[6], b[7], b[8], b[9], b[10]]),
        limb([0, 0, 0, b[11], b[12], b[13], b[14], b[15]]),
    ]
}

fn limb(bytes: [u8; 8]) -> Fe
    requires first { slice_index bytes 0 ≡ 0 }
    requires second { slice_index bytes 1 ≡ 0 }
    ensures { result ≡ from_be_bytes w64 bytes }
{
    Fe::new(u64::from_be_bytes(bytes)).unwrap()
}

/// The one key with these limbs. `None` where a number has more bits than its limb: 48, 40 and 40.
pub fn key_of(numbers: &[Fe; 3]) -> Option<Key>
    ensures found { IsSome result ↔ AreLimbs numbers.now }
    ensures limbs { IfSome result (λ key. limbs key.bytes ≡ numbers.now) }
    ensures bytes { IfSome result (λ key. key.bytes ≡ key_bytes numbers.now) }
{
    let [first, second, third] = *numbers;
    if first.value() >= 1 << 48 || second.value() >= 1 << 40 || third.value() >= 1 << 40 {
        return None;
    }
    let a = first.value().to_be_bytes();
    let b = second.value().to_be_bytes();
    let c = third.value().to_be_bytes();
    Some(Key {
        bytes: [
            a[2], a[3], a[4], a[5], a[6], a[7], b[3], b[4], b[5], b[6], b[7], c[3], c[4], c[5],
            c[6], c[7],
        ],
    })
}
