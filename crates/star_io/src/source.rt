ghost use Rattle.std.specs.Prelude.{Option, List, ℕ};
ghost use Rattle.std.specs.Io.{ReadsAtMost};
ghost use Rattle.std.specs.Io.KnownBytes.{ReadConsumes};
ghost use Rattle.star_io.specs.Faults.{HasCause};

use crate::failed::Failed;

/// Where bytes come from.
///
/// A count of faults never falls. It goes up to 2^64 - 1, and one that stands there counts as
/// risen in each call.
pub trait Source {
    /// The bytes left, where the source tells them.
    ghost left: { Self → Option (List ℕ) };

    /// The count of faults.
    ghost faults: { Self → ℕ };

    /// Takes the next bytes into the front of `into`, and says how many.
    ///
    /// `Ok(0)` is the end of the input, unless `into` is empty. An `Err` takes nothing.
    fn take(&mut self, into: &mut [u8]) -> Result<usize, Failed>
        ensures bound { ReadsAtMost result into.new }
        ensures bytes { ReadConsumes (left self.old) (left self.new) result into.new }
        ensures cause { HasCause (faults self.old) (faults self.new) result };
}
