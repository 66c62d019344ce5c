// The points that a client's coins choose.
ghost use Rattle.std.specs.Prelude.{◌≡◌, ◌≤◌, ◌<◌, ℕ, slice_index};
ghost use Rattle.report_frame.specs.declared.version.Version.{Version};
ghost use Rattle.report_frame.specs.declared.version.Version.TheVariants.{One};
ghost use Rattle.report_frame.specs.Versions.{max_layers};
ghost use Rattle.nest_client.specs.Report.{client_of, coins, point_of};

use crate::client::{Client, point_of};
use crate::reporter::Reporter;
use field61::Fe;
use report_frame::{Extra, MAX_LAYERS, Version};

/// The x of each layer of a client's report, that of layer 0 first, whatever its version, epoch and
/// values are. Zeros follow those of the layers.
pub fn layer_points(seed: &[u8; 32], client: u32, layers: usize) -> [Fe; MAX_LAYERS]
    requires { layers ≤ max_layers One }
    ensures { (version : Version) (epoch l : ℕ) → l < layers →
        slice_index result l ≡ point_of (coins (client_of version epoch seed.now client) l) }
{
    let sender = Client {
        version: Version::One,
        epoch: 0,
        seed: *seed,
        number: client,
    };
    let reporter = Reporter::of(sender, layers, Extra::default());
    let mut points = [Fe::ZERO; MAX_LAYERS];
    'layers: for level in 0..layers {
        points[level] = point_of(&reporter.coins_of(level as u8));
    }
    points
}
