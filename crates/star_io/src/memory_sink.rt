// A sink for tests, over memory.
ghost use Rattle.std.specs.Prelude.{◌≡◌, [], Some, IfOk};
ghost use Rattle.star_io.specs.Faults.{HasCause};
ghost use Rattle.star_io.specs.MemorySink.{named, PutsInMemory};
ghost use Rattle.star_io.specs.Told.{Tells};

use crate::failed::Failed;
use crate::no_memory::NoMemory;
use crate::sink::Sink;
use std::alloc::Global;
use std::marker::Model;

/// A call of `put` that fails, and how many bytes of its piece it takes at most.
#[derive(Clone, Copy, Debug, PartialEq, Eq)]
pub struct FailAt {
    pub call: u64,
    pub after: usize,
}

/// A sink over memory that was reserved, whose puts fail where it is told so.
///
/// Calls of `put` are numbered from 0. The number stays at 2^64 - 1 once it is there.
#[derive(Debug, Drop)]
pub struct MemorySink {
    told: Vec<u8>,
    room: usize,
    fails: Vec<FailAt>,
    calls: u64,
    faults: u64,
}

impl Model for MemorySink {
    ghost use Rattle.std.specs.Prelude.{◌≤◌, vec_len, vec_capacity};
    ghost use Rattle.star_io.specs.MemorySink.{SinkState};

    ghost Value = { SinkState };

    ghost view = { λ s. record {
      told = s.told.items;
      room = s.room;
      fails = s.fails.items;
      calls = s.calls;
      faults = s.faults;
    } };

    ghost invariant = { λ s. (vec_len s.told ≤ s.room) × (s.room ≤ vec_capacity s.told) };
}

impl MemorySink {
    /// A sink with room for `room` bytes. `put` takes no memory.
    ///
    /// A `put` fails where an entry of `fails` names its call, or where its piece is longer than
    /// the room left. It then takes as many bytes as fit, in a named call at most `after` of the
    /// first entry that names it.
    pub fn new(alloc: Global, room: usize, fails: Vec<FailAt>) -> Result<MemorySink, NoMemory>
        ensures { IfOk result (λ s. s ≡
            record { told = []; room = room; fails = fails.items; calls = 0; faults = 0 }) }
    {
        let told = Vec::with_capacity(alloc, room)?;
        Ok(MemorySink {
            told,
            room,
            fails,
            calls: 0,
            faults: 0,
        })
    }

    /// What the sink was told.
    pub fn told(&self) -> &[u8]
        ensures { result.now ≡ self.now.told }
    {
        self.told.as_slice()
    }
}

impl Sink for MemorySink {
    ghost told = { λ s. Some s.told };

    ghost faults = { λ s. s.faults };

    fn put(&mut self, piece: &[u8]) -> Result<(), Failed>
        ensures bytes { Tells (Some self.old.told) (Some self.new.told) piece.now result }
        ensures cause { HasCause self.old.faults self.new.faults result }
        ensures memory { PutsInMemory self.old self.new piece.now result }
    {
        let call = self.calls;
        self.calls = call.saturating_add(1);
        let left = self.room - self.told.len();
        let after = after_of(&self.fails, call);
        let count = piece.len().min(left).min(after.unwrap_or(piece.len()));
        let (front, _) = piece.split_at(count);
        self.told.extend_from_slice(front).unwrap();
        if after.is_some() || piece.len() > left {
            self.faults = self.faults.saturating_add(1);
            return Err(Failed);
        }
        Ok(())
    }
}

// How many bytes a call takes at most that is named. The first entry counts.
fn after_of(fails: &[FailAt], call: u64) -> Option<usize>
    ensures { result ≡ named fails.now call }
{
    fails
        .iter()
        .find(|entry| entry.call == call)
        .map(|entry| entry.after)
}
