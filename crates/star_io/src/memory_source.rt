// A source for tests, over memory.
ghost use Rattle.std.specs.Prelude.{◌≡◌, length, max, slice_index_or, Some};
ghost use Rattle.std.specs.Io.{ReadsAtMost};
ghost use Rattle.std.specs.Io.KnownBytes.{ReadConsumes};
ghost use Rattle.star_io.specs.Faults.{HasCause};
ghost use Rattle.star_io.specs.MemorySource.{faults_of, fails_at, TakesFromMemory};

use crate::failed::Failed;
use crate::source::Source;
use std::marker::Model;

/// A source over bytes in memory, whose takes are cut and fail where it is told so.
///
/// Calls of `take` are numbered from 0. The number stays at 2^64 - 1 once it is there, and from
/// then on no call fails.
#[derive(Debug, Drop)]
pub struct MemorySource {
    bytes: Vec<u8>,
    at: usize,
    cuts: Vec<usize>,
    fails: Vec<u64>,
    calls: u64,
}

impl Model for MemorySource {
    ghost use Rattle.std.specs.Prelude.{◌≤◌, length, drop};
    ghost use Rattle.star_io.specs.MemorySource.{SourceState};

    ghost Value = { SourceState };

    ghost view = { λ s. record {
      left = drop s.at s.bytes.items;
      cuts = s.cuts.items;
      fails = s.fails.items;
      calls = s.calls;
    } };

    ghost invariant = { λ s. s.at ≤ length s.bytes.items };
}

impl MemorySource {
    /// A source of these bytes.
    ///
    /// Call `c` gives at most `cuts[c]` bytes, where a cut of 0 counts as 1 and there is no cut
    /// past the end of `cuts`. The calls whose numbers stand in `fails` fail.
    pub fn new(bytes: Vec<u8>, cuts: Vec<usize>, fails: Vec<u64>) -> MemorySource
        ensures { result ≡
            record { left = bytes.items; cuts = cuts.items; fails = fails.items; calls = 0 } }
    {
        MemorySource {
            bytes,
            at: 0,
            cuts,
            fails,
            calls: 0,
        }
    }

    /// The bytes left.
    pub fn left(&self) -> &[u8]
        ensures { result.now ≡ self.now.left }
    {
        let (_, left) = self.bytes.split_at(self.at);
        left
    }

    /// The number of calls of `take` so far.
    pub fn calls(&self) -> u64
        ensures { result ≡ self.now.calls }
    {
        self.calls
    }
}

impl Source for MemorySource {
    ghost left = { λ s. Some s.left };

    ghost faults = { λ s. faults_of s.fails s.calls };

    fn take(&mut self, into: &mut [u8]) -> Result<usize, Failed>
        ensures bound { ReadsAtMost result into.new }
        ensures bytes { ReadConsumes (Some self.old.left) (Some self.new.left) result into.new }
        ensures cause { HasCause (faults_of self.old.fails self.old.calls)
            (faults_of self.new.fails self.new.calls) result }
        ensures memory { TakesFromMemory self.old self.new (length into.new) result }
    {
        let call = self.calls;
        let fails = is_failing(&self.fails, call);
        self.calls = call.saturating_add(1);
        if fails {
            return Err(Failed);
        }
        let cut = cut_at(&self.cuts, call, into.len());
        let (_, left) = self.bytes.split_at(self.at);
        let count = cut.min(into.len()).min(left.len());
        let (given, _) = left.split_at(count);
        into[..count].copy_from_slice(given);
        self.at += count;
        Ok(count)
    }
}

fn is_failing(fails: &[u64], call: u64) -> bool
    ensures { result ≡ fails_at fails.now call }
{
    call < u64::MAX && fails.contains(&call)
}

// How many bytes a call gives at most, where there is this much room.
fn cut_at(cuts: &[usize], call: u64, room: usize) -> usize
    ensures { result ≡ max 1 (slice_index_or cuts.now call room) }
{
    match cuts.get(call as usize) {
        Some(cut) => (*cut).max(1),
        None => room.max(1),
    }
}
