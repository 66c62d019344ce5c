// Telling the output.
ghost use Rattle.std.specs.Prelude.{◌≡◌, ◌≢◌, ◌⊎◌, ◌≤◌, ℕ, [], take};
ghost use Rattle.std.specs.Io.KnownBytes.{Appends};
ghost use Rattle.star_io.specs.Faults.{Rose};

use crate::status::Status;
use star_io::{Failed, Sink};

/// Tells a text in one call of `put`, and in none where it is empty.
pub(crate) fn tell<K: Sink>(out: &mut K, text: &[u8]) -> Status
    ensures ends { (result ≡ Status.Done) ⊎ (result ≡ Status.WriteFault) }
    ensures done { result ≡ Status.Done → Appends (K.told out.old) (K.told out.new) text.now }
    ensures empty { text.now ≡ [] → (result ≡ Status.Done) × (out.new ≡ out.old) }
    ensures cut_off { result ≡ Status.WriteFault → (text.now ≢ [])
        × ((n : ℕ) × Appends (K.told out.old) (K.told out.new) (take n text.now)) }
    ensures write_fault { result ≡ Status.WriteFault → Rose (K.faults out.old) (K.faults out.new) }
    ensures later { K.faults out.old ≤ K.faults out.new }
{
    if text.is_empty() {
        return Status::Done;
    }
    match out.put(text) {
        Ok(()) => Status::Done,
        Err(Failed) => Status::WriteFault,
    }
}
