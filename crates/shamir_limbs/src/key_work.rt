ghost use Rattle.std.specs.Prelude.{◌≡◌, IfOk};

use crate::limb_work::LimbWork;
use poly61::Poly;
use star_io::NoMemory;
use std::alloc::Global;
use std::marker::Model;

/// Room for the recovery of a key, seen as the number of points that it serves.
#[derive(Drop)]
pub struct KeyWork {
    pub(crate) limbs: LimbWork,
    pub(crate) first: Poly,
    pub(crate) second: Poly,
    pub(crate) third: Poly,
}

impl Model for KeyWork {
    ghost use Rattle.std.specs.Prelude.{ℕ, ◌≡◌, length};

    ghost Value = { ℕ };

    ghost view = { λ w. w.limbs };

    ghost invariant = { λ w. (length w.first ≡ w.limbs) × (length w.second ≡ w.limbs)
        × (length w.third ≡ w.limbs) };
}

impl KeyWork {
    pub fn new(alloc: Global, n: usize) -> Result<KeyWork, NoMemory>
        ensures { IfOk result (λ w. w ≡ n) }
    {
        Ok(KeyWork {
            limbs: LimbWork::new(alloc, n)?,
            first: Poly::with_room(alloc, n)?,
            second: Poly::with_room(alloc, n)?,
            third: Poly::with_room(alloc, n)?,
        })
    }

    /// For how many points it serves.
    pub fn room(&self) -> usize
        ensures { result ≡ self.now }
    {
        self.limbs.room()
    }
}
