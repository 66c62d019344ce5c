// The thresholds of a command.
ghost use Rattle.std.specs.Prelude.{◌≡◌, ◌<◌, ◌≤◌, ◌++◌, ◌∷◌, [], length, IfSome};
ghost use Rattle.command_words.specs.Thresholds.{thresholds_of};
ghost use Rattle.report_frame.specs.Thresholds.{AreThresholds};
ghost use Rattle.report_frame.specs.Versions.{max_layers};
ghost use Rattle.report_frame.specs.declared.limits.TheConstants.{MAX_LAYERS};

use crate::numbers::number_in;
use arrayvec::ArrayVec;
use report_frame::{MAX_LAYERS, MAX_LEVEL_ONE, MAX_LEVEL_TWO, MIN_THRESHOLD, Version};
use std::marker::Model;

/// A threshold for each of at most 16 layers, held in place.
#[derive(Clone, Debug, Drop, PartialEq, Eq)]
pub struct Thresholds {
    numbers: ArrayVec<u16, MAX_LAYERS>,
}

impl Model for Thresholds {
    ghost use Rattle.std.specs.Prelude.{ℕ, ◌≤◌, List, length};
    ghost use Rattle.report_frame.specs.declared.limits.TheConstants.{MAX_LAYERS};

    ghost Value = { List ℕ };

    ghost view = { λ t. t.numbers.items };

    ghost invariant = { λ t. length t.numbers.items ≤ MAX_LAYERS };

    ghost inverse = { λ d. record { numbers = record { items = d } } };
}

impl Thresholds {
    /// No thresholds.
    pub fn new() -> Thresholds
        ensures { result ≡ [] }
    {
        Thresholds {
            numbers: ArrayVec::new(),
        }
    }

    /// Puts a threshold last.
    pub fn push(&mut self, threshold: u16)
        requires { length self.old < MAX_LAYERS }
        ensures { self.new ≡ self.old ++ threshold ∷ [] }
    {
        self.numbers.push(threshold);
    }

    /// The thresholds, that of layer 0 first.
    pub fn as_slice(&self) -> &[u16]
        ensures value { result.now ≡ self.now }
        ensures few { length self.now ≤ MAX_LAYERS }
    {
        self.numbers.as_slice()
    }
}

/// The thresholds of a text, where its parts between commas are thresholds of this version, and no
/// more than a report of it has layers.
pub fn thresholds_of(version: Version, text: &str) -> Option<Thresholds>
    ensures thresholds { result ≡ thresholds_of version text.now }
    ensures good { IfSome result (AreThresholds version) }
{
    let most = max_layers(version);
    let high = version.max_threshold();
    let mut thresholds = Thresholds::new();
    for part in text.split(',') {
        if thresholds.as_slice().len() == most {
            return None;
        }
        let threshold = number_in(part, u32::from(MIN_THRESHOLD), u32::from(high))?;
        thresholds.push(threshold as u16);
    }
    Some(thresholds)
}

// The most layers of a report of this version.
fn max_layers(version: Version) -> usize
    ensures layers { result ≡ max_layers version }
    ensures room { result ≤ MAX_LAYERS }
{
    match version {
        Version::One => usize::from(MAX_LEVEL_ONE) + 1,
        Version::Two => usize::from(MAX_LEVEL_TWO) + 1,
    }
}
