// Jobs that are done by the tickets of one table alone.
ghost use Rattle.std.specs.Prelude.{◌≡◌, ◌<◌, IfOk};

use crate::job::Job;
use crate::tickets::{Ticket, Tickets};
use star_io::NoMemory;
use std::alloc::Global;

/// The jobs and their tickets, as the workers have them. Who has no more than this does a job only
/// by a ticket of these tickets.
#[derive(Drop)]
pub(crate) struct Crew<'a, J: Job> {
    jobs: &'a J,
    pub(crate) tickets: &'a Tickets,
    ghost same_jobs: { tickets.now.id.jobs ≡ J.jobs jobs.now },
}

impl<'a, J: Job> Crew<'a, J> {
    /// The crew for these jobs.
    pub(crate) fn new(jobs: &'a J, tickets: &'a Tickets) -> Crew<'a, J>
        requires { tickets.now.id.jobs ≡ J.jobs jobs.now }
        ensures { (result.jobs.now ≡ jobs.now) × (result.tickets.now ≡ tickets.now) }
    {
        Crew { jobs, tickets }
    }

    /// Does the job of the ticket.
    pub(crate) fn work(&self, alloc: Global, ticket: Ticket<'_>) -> Result<J::Out, NoMemory>
        requires of { ticket.of ≡ self.now.tickets.now.id }
        requires low { ticket.number < self.now.tickets.now.id.jobs }
        ensures { IfOk result (λ out. J.answers self.now.jobs.now ticket.entry.number out) }
    {
        self.jobs.work(alloc, ticket)
    }
}
