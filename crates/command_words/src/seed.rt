// The seed of the command line.
ghost use Rattle.std.specs.Prelude.{◌≡◌};
ghost use Rattle.command_words.specs.Seed.{seed_of};

use hex::FromHex;

/// The bytes of a seed.
pub const SEED_BYTES: usize = 32;

/// The bytes of a text of 64 hexadecimal digits, in either case.
pub fn seed_of(text: &str) -> Option<[u8; SEED_BYTES]>
    ensures { result ≡ seed_of text.now }
{
    <[u8; SEED_BYTES]>::from_hex(text).ok()
}
