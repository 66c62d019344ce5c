// The places of recently met groups.
use std::alloc::Global;

// The number of slots.
const SLOTS: usize = 1024;

// There are slots only after so many rows, so that few rows take little memory.
const FEW_ROWS: u32 = 1024;

/// A slot for each value of the low bits of a front, with the place last put there, which may be
/// that of another group or of none: the caller compares. At first there are no slots.
#[derive(Drop)]
pub(crate) struct Recent {
    slots: Vec<u32>,
}

impl Recent {
    /// No slots. It takes no memory.
    pub(crate) fn new(alloc: Global) -> Recent {
        Recent {
            slots: Vec::new(alloc),
        }
    }

    /// Makes the slots, each with place 0, before the row of this number, if there were enough rows:
    /// none if memory is refused.
    pub(crate) fn grow(&mut self, alloc: Global, row: u32) {
        if row != FEW_ROWS {
            return;
        }
        if let Ok(slots) = vec![in alloc; 0; SLOTS] {
            self.slots = slots;
        }
    }

    /// The place in the slot of this front, and 0 if there are no slots.
    pub(crate) fn place(&self, front: u64) -> u32 {
        self.slots.get(slot_of(front)).copied().unwrap_or(0)
    }

    /// Puts the place into the slot of this front, if there are slots.
    pub(crate) fn put(&mut self, front: u64, place: u32) {
        if let Some(slot) = self.slots.get_mut(slot_of(front)) {
            *slot = place;
        }
    }
}

fn slot_of(front: u64) -> usize {
    (front % SLOTS as u64) as usize
}
