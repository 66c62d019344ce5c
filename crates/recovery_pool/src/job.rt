ghost use Rattle.std.specs.Prelude.{◌≡◌, ℕ, ◌<◌, IfOk};

use crate::tickets::Ticket;
use star_io::NoMemory;
use std::alloc::Global;

/// Work that is cut into numbered jobs, which don't change while they are done.
pub trait Job: Sync {
    /// What a job is answered by.
    type Out: Send + Drop;

    // How many jobs there are.
    ghost jobs: { Self → ℕ };
    // Which values answer a job.
    ghost answers: { Self → ℕ → Self.Out → Type 0 };

    /// How many jobs there are.
    fn count(&self) -> u64
        ensures { result ≡ jobs self.now };

    /// Does the job of this ticket, which is then used up.
    fn work(&self, alloc: Global, ticket: Ticket<'_>) -> Result<Self::Out, NoMemory>
        requires { ticket.number < jobs self.now }
        ensures { IfOk result (λ out. answers self.now ticket.entry.number out) };
}
