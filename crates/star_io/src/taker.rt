ghost use Rattle.std.specs.Prelude.{◌≡◌, ◌<◌, ◌+◌, ◌++◌, ◌∷◌, [], ℕ, List, OnOk};
ghost use Rattle.star_io.specs.declared.record.Record.{Record};

use crate::no_memory::NoMemory;
use crate::record::Record;

/// What takes the records of a stream as they come.
pub trait RecordTaker {
    /// The most records that it can take.
    ghost most: { ℕ };

    /// How many records it took.
    ghost taken: { Self → ℕ };

    /// It took this list of records, for this epoch. What has no epoch of its own took it for each.
    ghost stands: { Self → ℕ → List Record → Type 0 };

    /// Takes the next record.
    fn take_next(&mut self, item: Record) -> Result<(), NoMemory>
        requires { taken self.old < most }
        ensures taken { OnOk result (taken self.new ≡ taken self.old + 1) }
        ensures stands { OnOk result ((epoch : ℕ) (records : List Record) →
            stands self.old epoch records → stands self.new epoch (records ++ item ∷ [])) };
}

impl RecordTaker for Vec<Record> {
    ghost use Rattle.std.specs.Prelude.{◌≡◌, ◌^◌, length};

    ghost most = { 2 ^ 32 };

    ghost taken = { λ v. length v.items };

    ghost stands = { λ v _ records. v.items ≡ records };

    fn take_next(&mut self, item: Record) -> Result<(), NoMemory> {
        self.push(item)?;
        Ok(())
    }
}
