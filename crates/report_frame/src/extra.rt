ghost use Rattle.std.specs.Prelude.{◌≡◌, ◌↔◌, ◌≤◌, [], length, IsSome, IfSome};

use crate::limits::MAX_EXTRA;
use arrayvec::ArrayVec;
use std::marker::Model;

/// The extra bytes of the last layer of a report of version 2: 0 to 255 of them, held in place.
#[derive(Clone, Debug, Drop, PartialEq, Eq, PartialOrd, Ord)]
pub struct Extra {
    bytes: ArrayVec<u8, MAX_EXTRA>,
}

impl Model for Extra {
    ghost use Rattle.std.specs.Prelude.{ℕ, ◌≤◌, List, length};
    ghost use Rattle.report_frame.specs.declared.limits.TheConstants.{MAX_EXTRA};

    ghost Value = { List ℕ };

    ghost view = { λ e. e.bytes.items };

    ghost invariant = { λ e. length e.bytes.items ≤ MAX_EXTRA };

    ghost inverse = { λ d. record { bytes = record { items = d } } };
}

/// No bytes.
impl Default for Extra {
    ghost use Rattle.std.specs.Prelude.{◌≡◌, []};

    ghost is_default = { λ e. e ≡ [] };

    fn default() -> Extra {
        Extra {
            bytes: ArrayVec::new(),
        }
    }
}

impl Extra {
    /// These bytes as extra bytes, where there are at most 255 of them.
    pub fn of(bytes: &[u8]) -> Option<Extra>
        ensures found { IsSome result ↔ length bytes.now ≤ MAX_EXTRA }
        ensures bytes { IfSome result (λ e. e ≡ bytes.now) }
    {
        let held = ArrayVec::try_from(bytes).ok()?;
        Some(Extra { bytes: held })
    }

    /// The bytes.
    pub fn as_slice(&self) -> &[u8]
        ensures bytes { result.now ≡ self.now }
        ensures high { length self.now ≤ MAX_EXTRA }
    {
        self.bytes.as_slice()
    }

    /// The same bytes once more. It takes no memory.
    pub fn copy(&self) -> Extra
        ensures { result ≡ self.now }
    {
        Extra::of(self.as_slice()).unwrap()
    }
}
