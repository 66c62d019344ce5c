ghost use Rattle.std.specs.Prelude.{◌≡◌, Some};
ghost use Rattle.std.specs.Io.{ReadsAtMost};
ghost use Rattle.std.specs.Io.KnownBytes.{ReadConsumes};
ghost use Rattle.star_io.specs.Faults.{HasCause};

use star_io::{Failed, Source};
use std::marker::Model;

/// A source over bytes in memory, seen as the bytes left. It never fails, and shows so: its count
/// of faults is 0 whatever was taken.
#[derive(Drop)]
pub(crate) struct StreamSource<'a> {
    left: &'a [u8],
}

impl<'a> Model for StreamSource<'a> {
    ghost use Rattle.std.specs.Prelude.{ℕ, List};

    ghost Value = { List ℕ };

    ghost view = { λ s. s.left.now };
}

impl<'a> StreamSource<'a> {
    /// A source of these bytes.
    pub(crate) fn new(bytes: &'a [u8]) -> StreamSource<'a>
        ensures { result ≡ bytes.now }
    {
        StreamSource { left: bytes }
    }
}

impl<'a> Source for StreamSource<'a> {
    ghost left = { λ s. Some s };

    ghost faults = { λ _. 0 };

    fn take(&mut self, into: &mut [u8]) -> Result<usize, Failed>
        ensures bound { ReadsAtMost result into.new }
        ensures bytes { ReadConsumes (Some self.old) (Some self.new) result into.new }
        ensures cause { HasCause 0 0 result }
    {
        let count = into.len().min(self.left.len());
        let (given, left) = self.left.split_at(count);
        into[..count].copy_from_slice(given);
        self.left = left;
        Ok(count)
    }
}
