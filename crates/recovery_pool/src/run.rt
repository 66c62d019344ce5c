// Jobs, done by several workers.
ghost use Rattle.std.specs.Prelude.{◌≡◌, ℕ, ◌<◌, ◌≤◌, IfOk, vec_len, slice_index_or};
ghost use Rattle.std.specs.Thread.{IsSync, IsSend};
ghost use Rattle.recovery_pool.specs.declared.limits.TheConstants.{MAX_JOBS, MAX_WORKERS};
ghost use Rattle.recovery_pool.specs.Shifts.{HasEnded, IsFresh};

use crate::crew::Crew;
use crate::entry::{Entry, Shift};
use crate::gate::Gate;
use crate::job::Job;
use crate::order::in_order;
use crate::pass::Pass;
use crate::tickets::Tickets;
use star_io::NoMemory;
use std::alloc::Global;
use std::thread::{Threads, join};

/// Does all jobs by so many workers. Entry i of the list answers job i.
///
/// Each worker draws the next number until none is left. It passes the gate at the start of each
/// job, with the level and the job's number.
///
/// # Errors
///
/// `NoMemory` where a job answers it, or where there is no memory for the list. A worker whose job
/// answers `NoMemory` stops; the others go on until no number is left.
pub fn run_jobs<R: Threads + Sync, J: Job, G: Gate>(
    rt: &R,
    alloc: Global,
    level: u8,
    jobs: &J,
    workers: u32,
    gate: &G,
) -> Result<Vec<J::Out>, NoMemory>
    requires jobs { J.jobs jobs.now ≤ MAX_JOBS }
    requires workers { (1 ≤ workers) × (workers ≤ MAX_WORKERS) }
    ensures len { IfOk result (λ v. vec_len v ≡ J.jobs jobs.now) }
    ensures each { IfOk result (λ v. (i : ℕ) (d : J.Out) → i < J.jobs jobs.now
        → J.answers jobs.now i (slice_index_or v.items i d)) }
{
    let count = jobs.count();
    let (tickets, pass) = Tickets::new(alloc, count, workers)?;
    let crew = Crew::new(jobs, &tickets);
    let Shift { pass, entries } = run_workers(rt, alloc, level, &crew, pass, gate)?;
    tickets.close(pass);
    in_order(alloc, jobs, count as usize, entries)
}

// One worker draws until no number is left.
fn work_until_none<J: Job, G: Gate>(
    alloc: Global,
    level: u8,
    crew: &Crew<'_, J>,
    mut pass: Pass,
    gate: &G,
) -> Result<Shift<J::Out>, NoMemory>
    requires begins { IsFresh crew.now.tickets.now.id pass }
    ensures { IfOk result (λ s. HasEnded (J.answers crew.now.jobs.now) crew.now.tickets.now.id
        pass.share s.pass s.entries.items) }
{
    let mut entries = Vec::new(alloc);
    while let Some(ticket) = crew.tickets.draw_ticket(&mut pass) {
        let number = ticket.number();
        gate.pass(level, number);
        let out = crew.work(alloc, ticket)?;
        entries.push(Entry { number, out })?;
    }
    Ok(Shift { pass, entries })
}

// As many workers as the pass has shares, each in a thread of its own.
#[cycle(workers)]
fn run_workers<R: Threads + Sync, J: Job, G: Gate>(
    rt: &R,
    alloc: Global,
    level: u8,
    crew: &Crew<'_, J>,
    mut pass: Pass,
    gate: &G,
) -> Result<Shift<J::Out>, NoMemory>
    requires begins { IsFresh crew.now.tickets.now.id pass }
    ensures { IfOk result (λ s. HasEnded (J.answers crew.now.jobs.now) crew.now.tickets.now.id
        pass.share s.pass s.entries.items) }
{
    let share = pass.share();
    if share < 2 {
        return work_until_none(alloc, level, crew, pass, gate);
    }
    let other = crew.tickets.split(&mut pass, share / 2);
    let front = move || -> Result<Shift<J::Out>, NoMemory>
        requires threads { IsSync R.row × IsSync J.row × IsSync G.row × IsSend J.Out.row }
        requires begins { IsFresh crew.now.tickets.now.id pass }
        ensures { IfOk result (λ s. HasEnded (J.answers crew.entry.now.jobs.now)
            crew.entry.now.tickets.now.id pass.share s.pass s.entries.items) }
    { run_workers(rt, alloc, level, crew, pass, gate) };
    let back = move || -> Result<Shift<J::Out>, NoMemory>
        requires threads { IsSync R.row × IsSync J.row × IsSync G.row × IsSend J.Out.row }
        requires begins { IsFresh crew.now.tickets.now.id other }
        ensures { IfOk result (λ s. HasEnded (J.answers crew.entry.now.jobs.now)
            crew.entry.now.tickets.now.id other.share s.pass s.entries.items) }
    { run_workers(rt, alloc, level, crew, other, gate) };
    let (front, back) = join(rt, front, back);
    let mut front = front?;
    let mut back = back?;
    crew.tickets.join(&mut front.pass, back.pass);
    front.entries.append(&mut back.entries)?;
    Ok(front)
}
