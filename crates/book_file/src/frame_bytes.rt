ghost use Rattle.std.specs.Prelude.{◌≡◌, IfOk, nat_eq};
ghost use Rattle.std.proofs.Common.{rules};
ghost use Rattle.std.specs.Cmp.{partial_order_from_own_ties};
ghost use Rattle.std.specs.Cmp.Lexicographic.{pointwise, slice_cmp};
ghost use Rattle.std.specs.Cmp.Rules.{comparing};
ghost use Rattle.std.specs.Ordering.{nat_cmp, as_partial_cmp};

use star_io::NoMemory;
use std::alloc::Global;
use std::cmp::Ordering;
use std::marker::Model;

/// The bytes of a frame, in the order of lists of bytes: the first byte that differs decides, and a
/// proper prefix comes first.
#[derive(Debug, Drop)]
pub struct FrameBytes {
    items: Vec<u8>,
}

impl Model for FrameBytes {
    ghost use Rattle.std.specs.Prelude.{List, ℕ};

    ghost Value = { List ℕ };

    ghost view = { λ b. b.items.items };
}

impl FrameBytes {
    /// A copy of the bytes.
    pub(crate) fn of(alloc: Global, bytes: &[u8]) -> Result<FrameBytes, NoMemory>
        ensures { IfOk result (λ b. b ≡ bytes.now) }
    {
        let items = Vec::from_slice(alloc, bytes)?;
        Ok(FrameBytes { items })
    }

    /// The bytes of a `Vec`, which is kept as it is.
    pub(crate) fn from_vec(items: Vec<u8>) -> FrameBytes
        ensures { result ≡ items.items }
    {
        FrameBytes { items }
    }

    /// The bytes.
    pub fn as_slice(&self) -> &[u8]
        ensures { result.now ≡ self.now }
    {
        self.items.as_slice()
    }
}

impl PartialEq for FrameBytes {
    ghost eq = { pointwise nat_eq };

    ghost laws = { Prim.search (comparing, rules) };

    fn eq(&self, other: &FrameBytes) -> bool {
        self.as_slice() == other.as_slice()
    }
}

impl Eq for FrameBytes {
    ghost laws = { Prim.search (comparing, rules) };
}

impl PartialOrd for FrameBytes {
    ghost partial_cmp = { as_partial_cmp (slice_cmp nat_cmp) };

    ghost laws = { partial_order_from_own_ties (Prim.search (comparing, rules)) (Prim.search (comparing, rules)) };

    fn partial_cmp(&self, other: &FrameBytes) -> Option<Ordering> {
        Some(self.cmp(other))
    }
}

impl Ord for FrameBytes {
    ghost cmp = { slice_cmp nat_cmp };

    ghost total = { Prim.search (comparing, rules) };

    ghost matches_partial_cmp = { Prim.search (comparing, rules) };

    ghost matches_eq = { Prim.search (comparing, rules) };

    fn cmp(&self, other: &FrameBytes) -> Ordering {
        self.as_slice().cmp(other.as_slice())
    }
}
