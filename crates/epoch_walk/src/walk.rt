// Records of many epochs that are taken as they arrive, and what they reveal.
ghost use Rattle.std.specs.Prelude.{◌≡◌, ◌≤◌, ◌<◌, ◌+◌, ◌-◌, ◌^◌, ◌++◌, ◌∷◌, [], List, IfOk, OnOk, OnErr};
ghost use Rattle.star_io.specs.declared.record.Record.{Record};
ghost use Rattle.recovery_pool.specs.declared.limits.TheConstants.{MAX_WORKERS};
ghost use Rattle.epoch_walk.specs.Epochs.{epochs_told};
ghost use Rattle.epoch_walk.specs.Standing.{StandsFor};

use crate::epochs_out::EpochsOut;
use crate::revealing::parts_of;
use crate::sorting::epoch_of;
use crate::stray::{Strays, keep};
use crate::walks::hand;
use layer_walk::Walk;
use recovery_pool::Gate;
use star_io::{NoMemory, Record, RecordTaker};
use std::alloc::Global;
use std::collections::BTreeMap;
use std::marker::Model;
use std::thread::Threads;

/// The records of a stream that were taken so far, each in the walk of its epoch. Of a record that
/// is no report of level 0 only why is kept.
#[derive(Drop)]
pub struct EpochWalk {
    alloc: Global,
    taken: u32,
    walks: BTreeMap<u32, Walk>,
    strays: Strays,
}

impl Model for EpochWalk {
    ghost use Rattle.epoch_walk.specs.Seen.{EpochWalkView};

    ghost Value = { EpochWalkView };

    ghost view = { λ w. record { taken = w.taken; walks = w.walks.entries; strays = w.strays } };

    ghost use Rattle.epoch_walk.specs.Standing.{IsEpochWalk};

    ghost invariant = { λ w.
        IsEpochWalk (record { taken = w.taken; walks = w.walks.entries; strays = w.strays }) };
}

impl EpochWalk {
    /// No records yet. It takes no memory.
    pub fn new(alloc: Global) -> EpochWalk
        ensures taken { result.taken ≡ 0 }
        ensures stands { StandsFor result [] }
    {
        EpochWalk {
            alloc,
            taken: 0,
            walks: BTreeMap::new(alloc),
            strays: Strays::new(alloc),
        }
    }

    /// Takes the next record. After `NoMemory` the walk is as before, and the record is dropped.
    ///
    /// The frame is decoded once to find its epoch, and once more by the walk of that epoch.
    pub fn take(&mut self, item: Record) -> Result<(), NoMemory>
        requires { self.old.taken < 2 ^ 32 - 1 }
        ensures taken { OnOk result (self.new.taken ≡ self.old.taken + 1) }
        ensures stands { OnOk result ((records : List Record) → StandsFor self.old records →
            StandsFor self.new (records ++ item ∷ [])) }
        ensures kept { OnErr result (self.new ≡ self.old) }
    {
        let index = self.taken;
        match epoch_of(&item) {
            Ok(epoch) => hand(self.alloc, &mut self.walks, epoch, item)?,
            Err(why) => keep(&mut self.strays, index, why)?,
        }
        self.taken += 1;
        Ok(())
    }

    /// What the records that were taken reveal: for each epoch what its reports reveal, as if there
    /// were no others. The groups of each level are opened by so many workers, and each passes the
    /// gate first.
    pub fn finish<R: Threads + Sync, G: Gate>(
        self,
        rt: &R,
        workers: u32,
        gate: &G,
    ) -> Result<EpochsOut, NoMemory>
        requires { (1 ≤ workers) × (workers ≤ MAX_WORKERS) }
        ensures { (records : List Record) → StandsFor self records →
            IfOk result (λ told. told ≡ epochs_told records) }
    {
        let EpochWalk {
            alloc,
            taken,
            walks,
            strays,
        } = self;
        let parts = parts_of(rt, alloc, walks, workers, gate)?;
        Ok(EpochsOut {
            records: taken,
            parts,
            strays,
        })
    }
}

impl RecordTaker for EpochWalk {
    ghost use Rattle.std.specs.Prelude.{◌-◌, ◌^◌};
    ghost use Rattle.epoch_walk.specs.Standing.{StandsFor};

    ghost most = { 2 ^ 32 - 1 };

    ghost taken = { λ w. w.taken };

    ghost stands = { λ w _ records. StandsFor w records };

    fn take_next(&mut self, item: Record) -> Result<(), NoMemory> {
        self.take(item)
    }
}
