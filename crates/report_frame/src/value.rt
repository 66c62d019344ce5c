ghost use Rattle.std.specs.Prelude.{◌≡◌, ◌↔◌, ◌≤◌, length, IsSome, IfSome};

use crate::limits::MAX_VALUE;
use arrayvec::ArrayVec;
use std::marker::Model;

/// The value of an attribute, or its box: 1 to 64 bytes, held in place.
#[derive(Clone, Debug, Drop, PartialEq, Eq, PartialOrd, Ord)]
pub struct Value {
    bytes: ArrayVec<u8, MAX_VALUE>,
}

impl Model for Value {
    ghost use Rattle.std.specs.Prelude.{ℕ, ◌≤◌, List, length};
    ghost use Rattle.report_frame.specs.declared.limits.TheConstants.{MAX_VALUE};

    ghost Value = { List ℕ };

    ghost view = { λ v. v.bytes.items };

    ghost invariant = { λ v. (1 ≤ length v.bytes.items) × (length v.bytes.items ≤ MAX_VALUE) };

    ghost inverse = { λ d. record { bytes = record { items = d } } };
}

/// The one byte 0.
impl Default for Value {
    ghost use Rattle.std.specs.Prelude.{◌≡◌, [], ◌∷◌};

    ghost is_default = { λ v. v ≡ 0 ∷ [] };

    fn default() -> Value {
        let mut bytes = ArrayVec::new();
        bytes.push(0);
        Value { bytes }
    }
}

impl Value {
    /// These bytes as a value, where there are 1 to 64 of them.
    pub fn of(bytes: &[u8]) -> Option<Value>
        ensures found { IsSome result ↔ ((1 ≤ length bytes.now) × (length bytes.now ≤ MAX_VALUE)) }
        ensures value { IfSome result (λ v. v ≡ bytes.now) }
    {
        if bytes.is_empty() {
            return None;
        }
        let held = ArrayVec::try_from(bytes).ok()?;
        Some(Value { bytes: held })
    }

    /// The bytes.
    pub fn as_slice(&self) -> &[u8]
        ensures value { result.now ≡ self.now }
        ensures low { 1 ≤ length self.now }
        ensures high { length self.now ≤ MAX_VALUE }
    {
        self.bytes.as_slice()
    }

    /// The same value once more. It takes no memory.
    pub fn copy(&self) -> Value
        ensures { result ≡ self.now }
    {
        Value::of(self.as_slice()).unwrap()
    }
}
