ghost use Rattle.std.specs.Prelude.{◌≡◌, IfOk};

use crate::halving::Halves;
use crate::sequence::Remainders;
use field61::Fe;
use star_io::NoMemory;
use std::alloc::Global;
use std::marker::Model;

/// Room for decoding, seen as the number of points that it serves.
#[derive(Drop)]
pub struct Scratch {
    points: usize,
    pub(crate) remainders: Remainders,
    pub(crate) halves: Halves,
    pub(crate) sample_xs: Vec<Fe>,
    pub(crate) sample_ys: Vec<Fe>,
}

impl Model for Scratch {
    ghost use Rattle.std.specs.Prelude.{ℕ, ◌+◌};
    ghost use Rattle.gao_decoder.specs.Sequence.{HaveRoom};

    ghost Value = { ℕ };

    ghost view = { λ s. s.points };

    // A polynomial over the room has one coefficient more than there are points.
    ghost invariant = { λ s. HaveRoom s.remainders (s.points + 1) };
}

impl Scratch {
    pub fn new(alloc: Global, n: usize) -> Result<Scratch, NoMemory>
        ensures { IfOk result (λ s. s ≡ n) }
    {
        let room = n.checked_add(1).ok_or(NoMemory)?;
        let remainders = Remainders::with_room(alloc, room)?;
        let halves = Halves::for_points(alloc, n)?;
        let sample_xs = vec![in alloc; Fe::ZERO; n]?;
        let sample_ys = vec![in alloc; Fe::ZERO; n]?;
        Ok(Scratch {
            points: n,
            remainders,
            halves,
            sample_xs,
            sample_ys,
        })
    }

    /// For how many points it serves.
    pub fn room(&self) -> usize
        ensures { result ≡ self.now }
    {
        self.points
    }
}
