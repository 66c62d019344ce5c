ghost use Rattle.std.specs.Prelude.{Option, List, ℕ};
ghost use Rattle.star_io.specs.Faults.{HasCause};
ghost use Rattle.star_io.specs.Told.{Tells};

use crate::failed::Failed;

/// Where bytes go.
///
/// Its count of faults is as that of a [`Source`].
pub trait Sink {
    /// The bytes that the sink was told so far, where it tells them.
    ghost told: { Self → Option (List ℕ) };

    /// The count of faults.
    ghost faults: { Self → ℕ };

    /// Tells the whole piece. An `Err` tells a front of it, which may be empty.
    fn put(&mut self, piece: &[u8]) -> Result<(), Failed>
        ensures bytes { Tells (told self.old) (told self.new) piece.now result }
        ensures cause { HasCause (faults self.old) (faults self.new) result };
}
