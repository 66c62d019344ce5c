//! The rule of the ticket word, and the kinds of step on it.
ghost use Rattle.std.specs.Prelude.{ℕ};

use crate::pass_view::{PassView, TicketsKey};
use atomic_table::{Join, Play, Split, TableRule};
use std::marker::{Brand, PhantomData};

/// The tickets stand, at any time.
pub(crate) struct TicketRule;

impl TableRule<(), PassView, TicketsKey> for TicketRule {
    ghost use Rattle.recovery_pool.specs.Steps.{Stands, fresh};

    ghost holds = { λ key s. Stands key.jobs key.workers s };

    ghost first = { λ key. fresh key.workers key.jobs };
}

/// A pass takes a number, or finds none left.
pub(crate) struct Draw;

impl Play<(), PassView> for Draw {
    ghost use Rattle.recovery_pool.specs.Steps.{Drew};

    ghost then = { Drew };
}

/// How much of its share a pass gives away, which each call picks.
pub(crate) trait PartOfShare {
    ghost part: { ℕ };
}

impl PartOfShare for Brand {
    ghost part = { 1 };
}

/// A pass gives a part of its share to a new one.
pub(crate) struct GivePart<N> {
    of: PhantomData<N>,
}

impl<N: PartOfShare> Split<PassView> for GivePart<N> {
    ghost use Rattle.recovery_pool.specs.Steps.{keeps_rest, begins_with};

    ghost left = { keeps_rest N.part };

    ghost right = { begins_with N.part };
}

/// A pass takes in another.
pub(crate) struct TakeIn;

impl Join<PassView> for TakeIn {
    ghost use Rattle.recovery_pool.specs.Steps.{joined, nobody};

    ghost both = { joined };

    ghost spent = { nobody };
}

/// A pass looks at the word, and nothing changes.
pub(crate) struct Look;

impl Play<(), PassView> for Look {
    ghost use Rattle.recovery_pool.specs.Steps.{Looked};

    ghost then = { Looked };
}
