// A client, and what its coins choose.
ghost use Rattle.std.specs.Prelude.{◌≡◌};
ghost use Rattle.nest_client.specs.Report.{client_nonce, point_of, nonce_of};

use byteorder::{BigEndian, ByteOrder};
use field61::Fe;
use report_frame::{NONCE_BYTES, Version};

/// Who reports, when, and in which version.
///
/// A seed and a number make one report: another report needs another seed or number.
#[derive(Clone, Copy, Debug)]
pub struct Client {
    pub version: Version,
    pub epoch: u32,
    /// What the coins of all clients are derived from.
    pub seed: [u8; 32],
    /// Which of them this one is.
    pub number: u32,
}

/// The bytes of coins that choose a point.
const POINT_COINS: usize = 8;

/// The bytes of coins that a layer uses: those of the point, and then the nonce.
pub(crate) const LAYER_COINS: usize = POINT_COINS + NONCE_BYTES;

/// The nonce of the keystream that belongs to this client.
pub(crate) fn client_nonce(number: u32) -> [u8; NONCE_BYTES]
    ensures { result ≡ client_nonce number }
{
    let b = number.to_le_bytes();
    [0, 0, 0, 0, b[0], b[1], b[2], b[3], 0, 0, 0, 0]
}

/// The point that the coins choose, which is never 0.
pub(crate) fn point_of(coins: &[u8; LAYER_COINS]) -> Fe
    ensures { result ≡ point_of coins.now }
{
    Fe::new(1 + BigEndian::read_u64(coins) % (1 << 60)).unwrap()
}

/// The nonce that the coins choose.
pub(crate) fn nonce_of(coins: &[u8; LAYER_COINS]) -> [u8; NONCE_BYTES]
    ensures { result ≡ nonce_of coins.now }
{
    let mut nonce = [0u8; NONCE_BYTES];
    nonce.copy_from_slice(&coins[POINT_COINS..]);
    nonce
}
