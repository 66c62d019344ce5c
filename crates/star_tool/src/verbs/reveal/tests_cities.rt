// Two layers, and the workers that open their groups.
use crate::tests_faults::{Case, bears_failing_takes};
use crate::trial_streams::{cities, made_stream, told_by};
use recovery_pool::{Gate, NoGate};
use std::sync::atomic::{AtomicU64, Ordering};
use std::test::*;
use std::thread;

const OPTIONS: &str = "--epoch 7 --thresholds 20,10";

// What their stream tells.
const TOLD: &[u8] =
    b"open DE~20 points=30 agree=30 members=30\nopen DE~20/Berlin~10 points=22 agree=22 members=22\nopen FR~20 points=24 agree=24 members=24\nopen FR~20/Aix%20en%20Provence~10 points=12 agree=12 members=12\nopen FR~20/Paris~10 points=12 agree=12 members=12\nlevel 0 opened=2 few=1 noline=0 badvalue=0\nlevel 1 opened=3 few=1 noline=0 badvalue=0\nrecords=60 rows=60 refused=0\n";

// How often a gate looks before it gives up.
const LOOKS: u64 = 1_000_000_000;

// After so many looks it leaves the processor to others.
const LOOKS_IN_A_ROW: u64 = 65_536;

#[test]
fn a_failing_take_tells_nothing_of_the_cities(rt: HostRuntime) -> Result<(), Fail> {
    let alloc = rt.alloc();
    let stream = made_stream(&rt, alloc, OPTIONS, &cities(alloc)?)?;
    let case = Case::new("reveal --epoch 7", &stream, TOLD);
    assert!(rt; bears_failing_takes(&rt, alloc, &case, 1000)?);
    Ok(())
}

// Whether the count is reached before the last look.
fn is_reached(count: &AtomicU64, wanted: u64) -> bool {
    for look in 0..LOOKS {
        if count.load(Ordering::SeqCst) >= wanted {
            return true;
        }
        if look % LOOKS_IN_A_ROW == 0 {
            thread::yield_now();
        }
    }
    false
}

// Holds jobs 0 and 2 of level 0 each until the other has come.
#[derive(Drop)]
struct Meeting {
    come: AtomicU64,
    let_go: AtomicU64,
}

impl Gate for Meeting {
    fn pass(&self, level: u8, job: u64) {
        if level != 0 || (job != 0 && job != 2) {
            return;
        }
        self.come.fetch_add(1, Ordering::SeqCst);
        if is_reached(&self.come, 2) {
            self.let_go.fetch_add(1, Ordering::SeqCst);
        }
    }
}

// Holds job 0 of level 1 until three others have passed.
#[derive(Drop)]
struct LastOfAll {
    passed: AtomicU64,
    let_go: AtomicU64,
}

impl Gate for LastOfAll {
    fn pass(&self, level: u8, job: u64) {
        if level != 1 {
            return;
        }
        if job > 0 {
            self.passed.fetch_add(1, Ordering::SeqCst);
        } else if is_reached(&self.passed, 3) {
            self.let_go.fetch_add(1, Ordering::SeqCst);
        }
    }
}

// The text that `reveal` tells, as the section of its epoch.
const EPOCHS_TOLD: &[u8] =
    b"epoch 7\nopen DE~20 points=30 agree=30 members=30\nopen DE~20/Berlin~10 points=22 agree=22 members=22\nopen FR~20 points=24 agree=24 members=24\nopen FR~20/Aix%20en%20Provence~10 points=12 agree=12 members=12\nopen FR~20/Paris~10 points=12 agree=12 members=12\nlevel 0 opened=2 few=1 noline=0 badvalue=0\nlevel 1 opened=3 few=1 noline=0 badvalue=0\nrecords=60 rows=60 refused=0\nrecords=60 epochs=1 refused=0\n";

#[test]
fn two_workers_open_groups_beside_each_other(rt: HostRuntime) -> Result<(), Fail> {
    let alloc = rt.alloc();
    let stream = made_stream(&rt, alloc, OPTIONS, &cities(alloc)?)?;
    let book = told_by(&rt, alloc, "book --epoch 7", &stream, &NoGate)?;
    let cases: [(&str, &[u8], &[u8]); 3] = [
        ("reveal --epoch 7 --workers 2", &stream, TOLD),
        ("openbook --epoch 7 --workers 2", &book, TOLD),
        ("epochs --workers 2", &stream, EPOCHS_TOLD),
    ];
    for (line, input, wanted) in cases {
        let meeting = Meeting {
            come: AtomicU64::new(0),
            let_go: AtomicU64::new(0),
        };
        let told = told_by(&rt, alloc, line, input, &meeting)?;
        assert_eq!(rt; told.as_slice(), wanted);
        assert_eq!(rt; meeting.let_go.load(Ordering::SeqCst), 2, "{line}");
    }

    let last = LastOfAll {
        passed: AtomicU64::new(0),
        let_go: AtomicU64::new(0),
    };
    let told = told_by(&rt, alloc, "reveal --epoch 7 --workers 2", &stream, &last)?;
    assert_eq!(rt; told.as_slice(), TOLD);
    assert_eq!(rt; last.let_go.load(Ordering::SeqCst), 1);
    Ok(())
}
