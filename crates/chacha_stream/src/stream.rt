// Encrypting and decrypting by the keystream.
ghost use Rattle.std.specs.Prelude.{◌≡◌, ◌+◌, ◌*◌, ◌^◌, ◌≤◌, length};
ghost use Rattle.chacha_stream.specs.Keystream.{keystream, xor_bytes};

use crate::generator::generator;
use rand_core::utils::NextWord;

/// Encrypts the bytes in place, or decrypts them: each becomes its exclusive or with the keystream.
///
/// The first byte meets the first byte of block `counter`. A block has 64 bytes, and the condition
/// says that the keystream doesn't run past the last one, number 2^32 - 1.
pub fn xor_stream(key: &[u8; 32], nonce: &[u8; 12], counter: u32, bytes: &mut [u8])
    requires { 64 * counter + length bytes.old ≤ 2 ^ 38 }
    ensures { bytes.new ≡ xor_bytes bytes.old
        (keystream key.now nonce.now counter 0 (length bytes.old)) }
{
    let mut words = generator(key, nonce, counter);
    let whole = bytes.len() / 4;
    'words: for number in 0..whole {
        let word = words.next_word().to_le_bytes();
        xor_word(&mut bytes[4 * number..4 * number + 4], &word);
    }
    if bytes.len() % 4 > 0 {
        let word = words.next_word().to_le_bytes();
        xor_word(&mut bytes[4 * whole..], &word);
    }
}

// Each byte becomes its exclusive or with the byte of the word at its place.
#[inline]
fn xor_word(bytes: &mut [u8], word: &[u8; 4])
    requires { length bytes.old ≤ 4 }
    ensures { bytes.new ≡ xor_bytes bytes.old word.now }
{
    'bytes: for place in 0..bytes.len() {
        bytes[place] ^= word[place];
    }
}
