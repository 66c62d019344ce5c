// A client with its coins.
ghost use Rattle.std.specs.Prelude.{◌≡◌, ◌≤◌, ◌<◌, ◌*◌, length, take};
ghost use Rattle.chacha_stream.specs.Keystream.{keystream};
ghost use Rattle.report_frame.specs.declared.limits.TheConstants.{MAX_LAYERS, MAX_EXTRA};
ghost use Rattle.report_frame.specs.Versions.{max_layers};
ghost use Rattle.nest_client.specs.Report.{client_nonce, coins};
ghost use Rattle.nest_client.specs.declared.client.TheConstants.{LAYER_COINS};

use crate::client::{Client, LAYER_COINS, client_nonce};
use chacha_stream::xor_stream;
use report_frame::{Extra, MAX_LAYERS};

/// The coins of the most layers.
const ALL_COINS: usize = LAYER_COINS * MAX_LAYERS;

/// A client that reports so many layers and these extra bytes, with the coins of all layers. They
/// are drawn once.
#[derive(Drop)]
pub(crate) struct Reporter {
    pub(crate) client: Client,
    pub(crate) layers: usize,
    pub(crate) extra: Extra,
    pub(crate) coins: [u8; ALL_COINS],
    ghost few: { layers ≤ max_layers client.version },
    ghost short: { length extra ≤ MAX_EXTRA },
    ghost drawn: { take (LAYER_COINS * layers) coins
        ≡ keystream client.seed (client_nonce client.number) 0 0 (LAYER_COINS * layers) },
}

impl Reporter {
    /// The client with its coins.
    pub(crate) fn of(client: Client, layers: usize, extra: Extra) -> Reporter
        requires { layers ≤ max_layers client.version }
        ensures client { result.client ≡ client }
        ensures layers { result.layers ≡ layers }
        ensures extra { result.extra ≡ extra }
    {
        // This makes known how many extra bytes there may be.
        let _extra = extra.as_slice();
        let coins = draw_coins(&client, layers);
        Reporter {
            client,
            layers,
            extra,
            coins,
        }
    }

    /// The coins of a layer.
    pub(crate) fn coins_of(&self, level: u8) -> [u8; LAYER_COINS]
        requires { level < self.now.layers }
        ensures { result ≡ coins self.now.client level }
    {
        let start = LAYER_COINS * level as usize;
        let mut coins = [0; LAYER_COINS];
        coins.copy_from_slice(&self.coins[start..start + LAYER_COINS]);
        coins
    }
}

// The coins of so many layers. What follows them is 0.
fn draw_coins(client: &Client, layers: usize) -> [u8; ALL_COINS]
    requires { layers ≤ MAX_LAYERS }
    ensures { take (LAYER_COINS * layers) result
        ≡ keystream client.now.seed (client_nonce client.now.number) 0 0 (LAYER_COINS * layers) }
{
    let mut coins = [0; ALL_COINS];
    let nonce = client_nonce(client.number);
    xor_stream(&client.seed, &nonce, 0, &mut coins[..LAYER_COINS * layers]);
    coins
}
