ghost use Rattle.std.specs.Prelude.{◌≡◌, ◌+◌, ◌*◌, true, false, [], ◌∷◌, IfSome};

use crate::{Gate, Job, NoGate, Pass, Ticket, Tickets, run_jobs};
use star_io::NoMemory;
use std::alloc::Global;
use std::sync::atomic::{AtomicU64, Ordering};
use std::test::Fail;
use std::thread;

// The level at which the gates act.
const LEVEL: u8 = 3;

// How often a gate looks before it gives up.
const LOOKS: u64 = 1_000_000_000;

// After so many looks it leaves the processor to others.
const LOOKS_IN_A_ROW: u64 = 65_536;

// Job i is answered by 2 i.
#[derive(Drop)]
struct Doubles {
    count: u64,
}

impl Job for Doubles {
    type Out = u64;

    ghost jobs = { λ s. s.count };

    ghost answers = { λ _ i out. out ≡ 2 * i };

    fn count(&self) -> u64 {
        self.count
    }

    fn work(&self, _alloc: Global, ticket: Ticket<'_>) -> Result<u64, NoMemory> {
        match ticket.number().checked_mul(2) {
            Some(twice) => Ok(twice),
            None => Err(NoMemory),
        }
    }
}

// Whether the count is reached before the last look.
fn is_reached(count: &AtomicU64, wanted: u64) -> bool {
    for look in 0..LOOKS {
        if count.load(Ordering::SeqCst) >= wanted {
            return true;
        }
        if look % LOOKS_IN_A_ROW == 0 {
            thread::yield_now();
        }
    }
    false
}

// Holds each of two jobs until the other has come.
#[derive(Drop)]
struct Meeting {
    come: AtomicU64,
    let_go: AtomicU64,
}

impl Gate for Meeting {
    fn pass(&self, level: u8, _job: u64) {
        if level != LEVEL {
            return;
        }
        self.come.fetch_add(1, Ordering::SeqCst);
        if is_reached(&self.come, 2) {
            self.let_go.fetch_add(1, Ordering::SeqCst);
        }
    }
}

// Holds job 0 until so many other jobs have passed.
#[derive(Drop)]
struct LastOfAll {
    others: u64,
    passed: AtomicU64,
    let_go: AtomicU64,
}

impl Gate for LastOfAll {
    fn pass(&self, level: u8, job: u64) {
        if level != LEVEL {
            return;
        }
        if job > 0 {
            self.passed.fetch_add(1, Ordering::SeqCst);
        } else if is_reached(&self.passed, self.others) {
            self.let_go.fetch_add(1, Ordering::SeqCst);
        }
    }
}

#[test]
fn one_pass_draws_each_number_in_turn(rt: HostRuntime) -> Result<(), Fail> {
    let (tickets, mut pass) = Tickets::new(rt.alloc(), 3, 1)?;
    let Some(a) = tickets.draw(&mut pass) else {
        return Err(Fail::from(NoMemory));
    };
    let Some(b) = tickets.draw(&mut pass) else {
        return Err(Fail::from(NoMemory));
    };
    let Some(c) = tickets.draw(&mut pass) else {
        return Err(Fail::from(NoMemory));
    };
    assert_eq!(rt; [a, b, c], [0, 1, 2]);
    assert!(rt; !pass.is_spent() && tickets.draw(&mut pass).is_none());
    assert!(rt; pass.is_spent() && pass.share() == 1);
    tickets.close(pass);
    Ok(())
}

// Two passes draw five times in turn, the first one beginning, and are joined. The three numbers
// are those in the order in which they were drawn.
fn draw_in_turn(tickets: &Tickets, first: &mut Pass, mut second: Pass) -> Option<(u64, u64, u64)>
    requires belongs { (first.old.of ≡ tickets.now.id) × (second.of ≡ tickets.now.id) }
    requires live { (first.old.spent ≡ false) × (second.spent ≡ false) }
    requires begins { (first.old.drawn ≡ []) × (second.drawn ≡ []) }
    ensures belongs { first.new.of ≡ tickets.now.id }
    ensures drawn { IfSome result (λ d. first.new.drawn ≡ d.0 ∷ d.2 ∷ d.1 ∷ []) }
    ensures share { IfSome result (λ d. first.new.share ≡ first.old.share + second.share) }
    ensures spent { IfSome result (λ d. first.new.spent ≡ true) }
{
    let a = tickets.draw(first)?;
    let b = tickets.draw(&mut second)?;
    let c = tickets.draw(first)?;
    if tickets.draw(&mut second).is_some() || tickets.draw(first).is_some() {
        return None;
    }
    tickets.join(first, second);
    Some((a, b, c))
}

#[test]
fn two_passes_draw_in_turn(rt: HostRuntime) -> Result<(), Fail> {
    let (tickets, mut first) = Tickets::new(rt.alloc(), 3, 2)?;
    let second = tickets.split(&mut first, 1);
    let Some(drawn) = draw_in_turn(&tickets, &mut first, second) else {
        return Err(Fail::from(NoMemory));
    };
    assert_eq!(rt; drawn, (0, 1, 2));
    assert!(rt; first.is_spent() && first.share() == 2);
    tickets.close(first);
    Ok(())
}

#[test]
fn two_workers_run_beside_each_other(rt: HostRuntime) -> Result<(), Fail> {
    let gate = Meeting {
        come: AtomicU64::new(0),
        let_go: AtomicU64::new(0),
    };
    let outs = run_jobs(&rt, rt.alloc(), LEVEL, &Doubles { count: 2 }, 2, &gate)?;
    assert_eq!(rt; outs.as_slice(), [0, 2].as_slice());
    assert_eq!(rt; gate.let_go.load(Ordering::SeqCst), 2);
    Ok(())
}

#[test]
fn a_free_worker_takes_the_next_job(rt: HostRuntime) -> Result<(), Fail> {
    for (count, workers) in [(4, 2), (9, 3)] {
        let gate = LastOfAll {
            others: count - 1,
            passed: AtomicU64::new(0),
            let_go: AtomicU64::new(0),
        };
        let outs = run_jobs(&rt, rt.alloc(), LEVEL, &Doubles { count }, workers, &gate)?;
        assert_eq!(rt; outs.len() as u64, count);
        for (i, out) in outs.iter().enumerate() {
            assert_eq!(rt; *out, 2 * i as u64);
        }
        assert_eq!(rt; gate.let_go.load(Ordering::SeqCst), 1);
    }
    Ok(())
}

#[test]
fn no_jobs_give_the_empty_list(rt: HostRuntime) -> Result<(), Fail> {
    let outs = run_jobs(&rt, rt.alloc(), LEVEL, &Doubles { count: 0 }, 64, &NoGate)?;
    assert_eq!(rt; outs.len(), 0);
    Ok(())
}
