// What follows from the definitions. The functions do nothing when they run.
ghost use Rattle.std.specs.Prelude.{◌≡◌, ◌==◌, ◌↔◌, ◌<◌, ℕ, List, length, filter};
ghost use Rattle.std.specs.List.{Contains};
ghost use Rattle.std.specs.List.Sorted.{IsStrictlySortedBy};
ghost use Rattle.std.specs.Ordering.{nat_cmp};
ghost use Rattle.star_io.specs.declared.record.Record.{Record};
ghost use Rattle.epoch_walk.specs.declared.part.EpochPart.{EpochPart};
ghost use Rattle.epoch_walk.specs.Parts.{part, epochs};
ghost use Rattle.epoch_walk.specs.Epochs.{section, epochs_told};

/// The section of an epoch is that of its records alone, whatever the others are.
pub fn epochs_apart()
    ensures { (records : List Record) (e : ℕ) →
        filter (λ (told : EpochPart). told.epoch == e) (epochs_told records).parts
        ≡ section e (part records e) }
{}

/// The epochs are those that have a record, in strictly ascending order.
pub fn epochs_are()
    ensures there { (records : List Record) (e : ℕ) → Contains (epochs records) e
        ↔ (0 < length (part records e)) }
    ensures rise { (records : List Record) → IsStrictlySortedBy nat_cmp (epochs records) }
{}
