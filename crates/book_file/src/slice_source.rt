ghost use Rattle.std.specs.Prelude.{◌≡◌, Some};

use star_io::{Failed, Source};

/// The bytes of a slice as a source. No take fails.
#[derive(Drop)]
pub(crate) struct SliceSource<'a> {
    left: &'a [u8],
}

impl<'a> SliceSource<'a> {
    pub(crate) fn new(bytes: &'a [u8]) -> SliceSource<'a>
        ensures { result.left.now ≡ bytes.now }
    {
        SliceSource { left: bytes }
    }
}

impl Source for SliceSource<'_> {
    ghost left = { λ s. Some s.left.now };

    ghost faults = { λ _. 0 };

    fn take(&mut self, into: &mut [u8]) -> Result<usize, Failed> {
        let count = into.len().min(self.left.len());
        let (given, rest) = self.left.split_at(count);
        into[..count].copy_from_slice(given);
        self.left = rest;
        Ok(count)
    }
}
