// The result of a self test.
ghost use Rattle.std.specs.Prelude.{◌≡◌, ◌≢◌, Err};
ghost use Rattle.star_vectors.specs.Vectors.{vectors};
ghost use Rattle.star_vectors.specs.Comparison.{first_differing, outcome_of};
ghost use Rattle.star_vectors.specs.declared.outcome.SelfTestError.TheVariants.{NoMemory};

use crate::vectors::vectors;
use star_io::NoMemory;
use std::alloc::Global;

/// All vectors gave what they must.
#[derive(Clone, Copy, Debug, PartialEq, Eq)]
pub struct Passed {
    /// How many vectors there are.
    pub count: u8,
}

/// Why the self test isn't passed.
#[derive(Clone, Copy, Debug, PartialEq, Eq)]
pub enum SelfTestError {
    /// A vector gave other bytes than it must, and none before it did. Fewer bytes than 32 are
    /// filled up with zeros at the end.
    Vector {
        /// Which vector it is, counted from 1.
        number: u8,
        got: [u8; 32],
        wanted: [u8; 32],
    },
    NoMemory,
}

impl From<NoMemory> for SelfTestError {
    ghost from_gives = { λ _ e. e ≡ NoMemory };

    fn from(_: NoMemory) -> SelfTestError {
        SelfTestError::NoMemory
    }
}

/// Computes the vectors, and compares them in order.
pub fn self_test(alloc: Global) -> Result<Passed, SelfTestError>
    ensures { result ≢ Err SelfTestError.NoMemory → result ≡ outcome_of (first_differing vectors) }
{
    let vectors = vectors(alloc)?;
    for vector in &vectors {
        if vector.got != vector.wanted {
            return Err(SelfTestError::Vector {
                number: vector.number,
                got: vector.got,
                wanted: vector.wanted,
            });
        }
    }
    Ok(Passed {
        count: vectors.len() as u8,
    })
}
