// The generator of rand_chacha, set to a block of the keystream.
ghost use Rattle.std.specs.Prelude.{◌≡◌, ◌+◌, ◌*◌, ◌^◌, ◌≤◌, ◌<◌};
ghost use Rattle.chacha_stream.specs.Generator.{generator_at};
ghost use Rattle.chacha_stream.specs.Keystream.{nonce_word, first_word};

use rand_chacha::ChaCha20Rng;
use rand_core::SeedableRng;

// A word of the nonce.
#[tactic(auto, unfolding(crate::specs::Keystream::nonce_word))]
fn nonce_word(nonce: &[u8; 12], number: usize) -> u32
    requires { number < 3 }
    ensures { result ≡ nonce_word nonce.now number }
{
    let start = 4 * number;
    u32::from_le_bytes([
        nonce[start],
        nonce[start + 1],
        nonce[start + 2],
        nonce[start + 3],
    ])
}

// The generator that gives the first word of block `counter` next.
#[tactic(auto, unfolding(crate::specs::Keystream::stream_number, crate::specs::Keystream::first_word))]
pub(crate) fn generator(key: &[u8; 32], nonce: &[u8; 12], counter: u32) -> ChaCha20Rng
    ensures value { result ≡ generator_at key.now nonce.now counter 0 }
    ensures bound { first_word nonce.now counter + 2 ^ 36 ≤ 16 * counter + 2 ^ 68 }
{
    let high_counter = u128::from(nonce_word(nonce, 0));
    let low_stream = u64::from(nonce_word(nonce, 1));
    let high_stream = u64::from(nonce_word(nonce, 2));
    let mut words = ChaCha20Rng::from_seed(*key);
    words.set_stream(low_stream + (high_stream << 32));
    words.set_word_pos(16 * (u128::from(counter) + (high_counter << 32)));
    words
}
