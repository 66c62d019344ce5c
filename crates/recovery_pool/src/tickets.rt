ghost use Rattle.std.specs.Prelude.{◌≡◌, ◌+◌, ◌<◌, ◌≤◌, ◌↔◌, ◌||◌, true, false, [], ◌∷◌, ◌++◌, length, is_none, IsSome, IfOk, IfSome, MatchOption};
ghost use Rattle.recovery_pool.specs.declared.limits.TheConstants.{MAX_JOBS, MAX_WORKERS};
ghost use Rattle.recovery_pool.specs.Standing.{HasEachOnce};

use crate::pass::Pass;
use crate::pass_view::{PassView, TicketsKey};
use crate::rule::{Draw, GivePart, Look, PartOfShare, TakeIn, TicketRule};
use atomic_table::Table;
use star_io::NoMemory;
use std::alloc::Global;
use std::marker::{Brand, Model};

/// The right to do one job, once. It is seen as the job's number and the tickets that drew it.
///
/// Only a draw makes one, and [`Job::work`](crate::Job::work) uses it up. It can't be copied.
#[derive(Drop)]
pub struct Ticket<'t> {
    of: &'t Tickets,
    number: u64,
}

impl<'t> Model for Ticket<'t> {
    ghost use Rattle.recovery_pool.specs.Seen.{TicketSeen};

    ghost Value = { TicketSeen };

    ghost view = { λ t. record { number = t.number; of = t.of.now.id } };
}

impl<'t> Ticket<'t> {
    /// The job's number, which counts from 0.
    pub fn number(&self) -> u64
        ensures { result ≡ self.now.number }
    {
        self.number
    }
}

/// The numbers below the number of jobs, each to be drawn once, by passes in any threads.
///
/// The next number stands in one word that all passes share. One draw is one `fetch_add` of 1 on
/// that word. The public laws say what holds of it and of all passes between any two steps.
#[derive(Drop)]
pub struct Tickets {
    table: Table<(), PassView, TicketsKey, TicketRule, Global>,
    jobs: u64,
    workers: u32,
}

impl Model for Tickets {
    ghost use Rattle.std.specs.Prelude.{◌≡◌, ◌≤◌};
    ghost use Rattle.recovery_pool.specs.declared.limits.TheConstants.{MAX_JOBS, MAX_WORKERS};
    ghost use Rattle.recovery_pool.specs.Seen.{TicketsSeen};

    ghost Value = { TicketsSeen };

    ghost view = { λ t. record {
      id = record { table = t.table.shared.table_id; jobs = t.jobs };
      workers = t.workers;
    } };

    ghost invariant = { λ t. record {
      same_jobs : t.table.shared.key.jobs ≡ t.jobs;
      same_workers : t.table.shared.key.workers ≡ t.workers;
      one_word : t.table.shared.table_id.words ≡ 1;
      no_slots : t.table.shared.table_id.slots ≡ 0;
      few_jobs : t.jobs ≤ MAX_JOBS;
      some_workers : 1 ≤ t.workers;
      few_workers : t.workers ≤ MAX_WORKERS;
    } };
}

impl Tickets {
    /// Tickets for so many jobs, with the one pass from which all others are split.
    ///
    /// # Errors
    ///
    /// `NoMemory` where memory ran out.
    pub fn new(alloc: Global, jobs: u64, workers: u32) -> Result<(Tickets, Pass), NoMemory>
        requires jobs { jobs ≤ MAX_JOBS }
        requires workers { (1 ≤ workers) × (workers ≤ MAX_WORKERS) }
        ensures tickets { IfOk result (λ r. (r.0.id.jobs ≡ jobs) × (r.0.workers ≡ workers)) }
        ensures belongs { IfOk result (λ r. r.1.of ≡ r.0.id) }
        ensures drawn { IfOk result (λ r. r.1.drawn ≡ []) }
        ensures share { IfOk result (λ r. r.1.share ≡ workers) }
        ensures spent { IfOk result (λ r. r.1.spent ≡ false) }
    {
        let key = TicketsKey {
            jobs,
            workers: workers as u64,
        };
        let (table, seat) = Table::of_words(alloc, &[0], &key)?;
        let tickets = Tickets {
            table,
            jobs,
            workers,
        };
        let pass = Pass {
            seat,
            share: workers,
            spent: false,
        };
        Ok((tickets, pass))
    }

    /// Takes the next number, as the ticket of its job, or `None` where no number is left; the pass
    /// is then spent.
    ///
    /// It answers `Some` exactly where its one step on the word read a number below the number of
    /// jobs, and answers the ticket of that number.
    pub fn draw_ticket(&self, pass: &mut Pass) -> Option<Ticket<'_>>
        requires belongs { pass.old.of ≡ self.now.id }
        requires live { pass.old.spent ≡ false }
        ensures exactly { IsSome result ↔ (pass.new.found < self.now.id.jobs) }
        ensures number { IfSome result (λ t. t.number ≡ pass.new.found) }
        ensures of { IfSome result (λ t. t.of ≡ self.now.id) }
        ensures drawn { MatchOption result (pass.new.drawn ≡ pass.old.drawn)
            (λ t. pass.new.drawn ≡ pass.old.drawn ++ t.number ∷ []) }
        ensures spent { pass.new.spent ≡ is_none result }
        ensures few { length pass.new.drawn ≤ self.now.id.jobs }
        ensures share { pass.new.share ≡ pass.old.share }
        ensures belongs { pass.new.of ≡ self.now.id }
    {
        let found = self.table.shared.fetch_add::<Draw>(&mut pass.seat, 0, 1);
        if found < self.jobs {
            Some(Ticket {
                of: self,
                number: found,
            })
        } else {
            pass.spent = true;
            None
        }
    }

    /// The same for callers that do no job: it answers the number, and nobody may then do its job.
    pub fn draw(&self, pass: &mut Pass) -> Option<u64>
        requires belongs { pass.old.of ≡ self.now.id }
        requires live { pass.old.spent ≡ false }
        ensures exactly { IsSome result ↔ (pass.new.found < self.now.id.jobs) }
        ensures number { IfSome result (λ t. t ≡ pass.new.found) }
        ensures drawn { MatchOption result (pass.new.drawn ≡ pass.old.drawn)
            (λ t. pass.new.drawn ≡ pass.old.drawn ++ t ∷ []) }
        ensures spent { pass.new.spent ≡ is_none result }
        ensures few { length pass.new.drawn ≤ self.now.id.jobs }
        ensures share { pass.new.share ≡ pass.old.share }
        ensures belongs { pass.new.of ≡ self.now.id }
    {
        let ticket = self.draw_ticket(pass)?;
        Some(ticket.number)
    }

    /// Makes a new pass, which gets a part of the share of this one.
    pub fn split(&self, pass: &mut Pass, share: u32) -> Pass
        requires belongs { pass.old.of ≡ self.now.id }
        requires live { pass.old.spent ≡ false }
        requires share { (1 ≤ share) × (share < pass.old.share) }
        ensures belongs { (pass.new.of ≡ self.now.id) × (result.of ≡ self.now.id) }
        ensures drawn { (pass.new.drawn ≡ pass.old.drawn) × (result.drawn ≡ []) }
        ensures share { (pass.new.share + share ≡ pass.old.share) × (result.share ≡ share) }
        ensures spent { (pass.new.spent ≡ false) × (result.spent ≡ false) }
    {
        self.split_part::<Brand>(pass, share)
    }

    // The same, where the part is the one that the call picked.
    fn split_part<N: PartOfShare>(&self, pass: &mut Pass, share: u32) -> Pass
        requires picked { share ≡ N.part }
        requires belongs { pass.old.of ≡ self.now.id }
        requires live { pass.old.spent ≡ false }
        requires share { (1 ≤ share) × (share < pass.old.share) }
        ensures belongs { (pass.new.of ≡ self.now.id) × (result.of ≡ self.now.id) }
        ensures drawn { (pass.new.drawn ≡ pass.old.drawn) × (result.drawn ≡ []) }
        ensures share { (pass.new.share + share ≡ pass.old.share) × (result.share ≡ share) }
        ensures spent { (pass.new.spent ≡ false) × (result.spent ≡ false) }
    {
        let seat = self.table.shared.split_seat::<GivePart<N>>(&mut pass.seat);
        pass.share -= share;
        Pass {
            seat,
            share,
            spent: false,
        }
    }

    /// Takes another pass in: what it drew stands behind what this one drew.
    pub fn join(&self, pass: &mut Pass, other: Pass)
        requires belongs { pass.old.of ≡ self.now.id }
        requires other { other.of ≡ self.now.id }
        ensures belongs { pass.new.of ≡ self.now.id }
        ensures drawn { pass.new.drawn ≡ pass.old.drawn ++ other.drawn }
        ensures share { pass.new.share ≡ pass.old.share + other.share }
        ensures spent { pass.new.spent ≡ (pass.old.spent || other.spent) }
    {
        let Pass { seat, share, spent } = other;
        self.table.shared.join_seat::<TakeIn>(&mut pass.seat, seat);
        // It tells that the new share is at most that of all workers.
        self.table.shared.load::<Look>(&mut pass.seat, 0);
        pass.share += share;
        pass.spent = pass.spent || spent;
    }

    /// Ends the tickets. The pass, which has the share of all workers, drew each number once.
    pub fn close(self, pass: Pass)
        requires belongs { pass.of ≡ self.id }
        requires spent { pass.spent ≡ true }
        requires whole { pass.share ≡ self.workers }
        ensures { HasEachOnce self.id.jobs pass.drawn }
    {
        let Tickets { table, .. } = self;
        let Pass { seat, .. } = pass;
        table.close_with(seat).free();
    }
}
