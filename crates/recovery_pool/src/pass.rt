ghost use Rattle.std.specs.Prelude.{◌≡◌};

use crate::pass_view::PassView;
use atomic_table::Seat;
use std::marker::Model;

/// A worker's right to draw from [`Tickets`](crate::Tickets), for as many workers as its share.
///
/// It is seen as the numbers that it drew, what the word held at its last draw, its share, whether
/// it is spent, and the tickets that it belongs to. A spent pass draws no more.
#[derive(Drop)]
pub struct Pass {
    pub(crate) seat: Seat<(), PassView>,
    pub(crate) share: u32,
    pub(crate) spent: bool,
}

impl Model for Pass {
    ghost use Rattle.std.specs.Prelude.{◌≡◌, ◌≤◌, []};
    ghost use Rattle.recovery_pool.specs.Seen.{PassSeen};

    ghost Value = { PassSeen };

    ghost view = { λ p. record {
      drawn = p.seat.me.0.drawn;
      found = p.seat.me.0.found;
      share = p.seat.me.0.share;
      spent = p.seat.me.0.spent;
      of = record { table = p.seat.table_id; jobs = p.seat.me.0.jobs };
    } };

    ghost invariant = { λ p. record {
      no_slots : p.seat.me.1 ≡ [];
      same_share : p.seat.me.0.share ≡ p.share;
      same_spent : p.seat.me.0.spent ≡ p.spent;
      some_share : 1 ≤ p.share;
    } };
}

impl Pass {
    /// For how many workers it may draw, 1 or more.
    pub fn share(&self) -> u32
        ensures { result ≡ self.now.share }
    {
        self.share
    }

    /// Whether it found no number left, or took in a pass that did.
    pub fn is_spent(&self) -> bool
        ensures { result ≡ self.now.spent }
    {
        self.spent
    }
}
