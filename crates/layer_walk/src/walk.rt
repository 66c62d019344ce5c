// Records that are taken as they come, and the walk over what they hold.
ghost use Rattle.std.specs.Prelude.{◌≡◌, ◌≤◌, ◌<◌, ◌+◌, ◌-◌, ◌^◌, ◌++◌, ◌∷◌, [], List, IfOk, OnOk, OnErr};
ghost use Rattle.star_io.specs.declared.record.Record.{Record};
ghost use Rattle.recovery_pool.specs.declared.limits.TheConstants.{MAX_WORKERS};
ghost use Rattle.layer_walk.specs.Reveal.{reveal_of};
ghost use Rattle.layer_walk.specs.Standing.{StandsFor};

use crate::grouped::with_groups;
use crate::level::first_parents;
use crate::levels::told_from;
use crate::outer::first_row;
use crate::refusal::{Refusal, Refusals, Stage};
use crate::revealed::Revealed;
use recovery_pool::Gate;
use star_io::{NoMemory, Record, RecordTaker};
use std::alloc::Global;
use std::marker::Model;
use std::thread::Threads;
use tag_groups::Grouper;

/// The records of a stream that were taken so far, for one epoch. Of a record that is refused only
/// its refusal is kept.
#[derive(Drop)]
pub struct Walk {
    alloc: Global,
    epoch: u32,
    taken: u32,
    rows: Grouper,
    refusals: Refusals,
}

impl Model for Walk {
    ghost use Rattle.layer_walk.specs.Seen.{WalkView};

    ghost Value = { WalkView };

    ghost view = { λ w. record {
      epoch = w.epoch;
      taken = w.taken;
      rows = w.rows;
      refusals = w.refusals;
    } };

    ghost use Rattle.std.specs.Prelude.{◌≡◌, ◌≤◌, List};
    ghost use Rattle.star_io.specs.declared.record.Record.{Record};
    ghost use Rattle.layer_walk.specs.Standing.{IsWalk};

    ghost invariant = { λ w.
        IsWalk (record {
          epoch = w.epoch;
          taken = w.taken;
          rows = w.rows;
          refusals = w.refusals;
        }) };
}

impl Walk {
    /// No records yet. It takes no memory.
    pub fn new(alloc: Global, epoch: u32) -> Walk
        ensures epoch { result.epoch ≡ epoch }
        ensures taken { result.taken ≡ 0 }
        ensures stands { StandsFor result [] }
    {
        Walk {
            alloc,
            epoch,
            taken: 0,
            rows: Grouper::new(alloc),
            refusals: Refusals::new(alloc),
        }
    }

    /// How many records were taken.
    pub fn taken(&self) -> u32
        ensures count { result ≡ self.now.taken }
        ensures few { self.now.taken < 2 ^ 32 }
    {
        self.taken
    }

    /// Takes the next record. After `NoMemory` the walk is as before, and the record is dropped.
    pub fn take(&mut self, item: Record) -> Result<(), NoMemory>
        requires { self.old.taken < 2 ^ 32 - 1 }
        ensures epoch { self.new.epoch ≡ self.old.epoch }
        ensures taken { OnOk result (self.new.taken ≡ self.old.taken + 1) }
        ensures stands { OnOk result ((records : List Record) → StandsFor self.old records →
            StandsFor self.new (records ++ item ∷ [])) }
        ensures kept { OnErr result (self.new ≡ self.old) }
    {
        let index = self.taken;
        match first_row(index, item, self.epoch) {
            Ok(row) => self.rows.add_headed(row)?,
            Err(why) => self.refusals.push(Refusal {
                index,
                stage: Stage::Outer,
                why,
            })?,
        }
        self.taken += 1;
        Ok(())
    }

    /// What the records that were taken tell for the epoch. The groups of each level are opened by
    /// so many workers, group i as job i of that level, and each passes the gate first.
    pub fn finish<R: Threads + Sync, G: Gate>(
        self,
        rt: &R,
        workers: u32,
        gate: &G,
    ) -> Result<Revealed, NoMemory>
        requires { (1 ≤ workers) × (workers ≤ MAX_WORKERS) }
        ensures { (records : List Record) → StandsFor self records →
            IfOk result (λ told. told ≡ reveal_of self.epoch records) }
    {
        let Walk {
            alloc,
            epoch,
            taken,
            rows,
            refusals,
        } = self;
        let first = with_groups(0, epoch, first_parents(alloc)?, rows);
        let count = first.level.rows.len() as u32;
        let told = told_from(rt, alloc, first, refusals, workers, gate)?;
        told.in_order(taken, count)
    }
}

impl RecordTaker for Walk {
    ghost use Rattle.std.specs.Prelude.{◌≡◌, ◌-◌, ◌^◌};
    ghost use Rattle.layer_walk.specs.Standing.{StandsFor};

    ghost most = { 2 ^ 32 - 1 };

    ghost taken = { λ w. w.taken };

    ghost stands = { λ w epoch records. (w.epoch ≡ epoch) × StandsFor w records };

    fn take_next(&mut self, item: Record) -> Result<(), NoMemory> {
        self.take(item)
    }
}
