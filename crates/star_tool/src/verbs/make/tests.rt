use crate::trial_streams::{RED, source, words_in};
use crate::{FileSource, HostFiles, Status, run};
use recovery_pool::NoGate;
use star_io::{FailAt, MemorySink, MemorySource};
use std::alloc::Global;
use std::test::*;
use std::thread::Threads;

const LINE: &str = "make --epoch 1 --thresholds 2";

const SEEDED: &str =
    "make --epoch 1 --thresholds 2 --seed 0000000000000000000000000000000000000000000000000000000000000000";

// What a run is handed, and what it answered.
#[derive(Drop)]
struct Trial {
    input: MemorySource,
    coins: MemorySource,
    out: MemorySink,
}

impl Trial {
    // A table and as many coins, all zero. A second call of `put` fails.
    fn new(alloc: Global, table: &[u8], coins: usize) -> Result<Trial, Fail> {
        let zeros = vec![in alloc; 0; coins]?;
        Ok(Trial {
            input: source(alloc, table)?,
            coins: source(alloc, &zeros)?,
            out: MemorySink::new(alloc, 1000, vec![in alloc; FailAt { call: 1, after: 0 }]?)?,
        })
    }

    fn run<R: Threads + Sync>(
        &mut self,
        rt: &R,
        alloc: Global,
        line: &str,
    ) -> Result<Status, Fail> {
        let words = words_in(alloc, line)?;
        Ok(run(
            rt,
            alloc,
            &words,
            &mut self.input,
            &mut self.coins,
            &NoGate,
            &mut self.out,
        ))
    }
}

#[test]
fn without_a_seed_32_coins_are_taken(rt: HostRuntime) -> Result<(), Fail> {
    let alloc = rt.alloc();
    let mut trial = Trial::new(alloc, b"red\n", 40)?;
    assert_eq!(rt; trial.run(&rt, alloc, LINE)?, Status::Done);
    assert_eq!(rt; trial.out.told(), RED);
    assert_eq!(rt; trial.coins.left().len(), 8);

    for have in [0, 31] {
        let mut trial = Trial::new(alloc, b"red\n", have)?;
        let status = trial.run(&rt, alloc, LINE)?;
        assert_eq!(rt; status, Status::ShortCoins { have: have as u32 });
        assert_eq!(rt; trial.out.told().len(), 0);
    }
    Ok(())
}

// A seed is given, or the table is bad.
#[test]
fn coins_that_no_report_needs_are_left(rt: HostRuntime) -> Result<(), Fail> {
    let alloc = rt.alloc();
    let bad = Status::BadTable { row: 0, column: 1 };
    let cases: [(&str, &[u8], Status, &[u8]); 2] = [
        (SEEDED, b"red\n", Status::Done, RED),
        (LINE, b"red,", bad, b""),
    ];
    for (line, table, wanted, told) in cases {
        let mut trial = Trial::new(alloc, table, 40)?;
        assert_eq!(rt; trial.run(&rt, alloc, line)?, wanted);
        assert_eq!(rt; trial.out.told(), told);
        assert_eq!(rt; trial.coins.calls(), 0);
    }
    Ok(())
}

#[test]
fn coins_of_a_file_are_taken_as_they_are_needed(rt: HostRuntime) -> Result<(), Fail> {
    let alloc = rt.alloc();
    let words = words_in(alloc, LINE)?;
    for (path, status, told) in [
        ("/dev/zero", Status::Done, RED),
        ("/dev/null", Status::ShortCoins { have: 0 }, &[]),
        ("/dev/null/none", Status::ReadFault, &[]),
    ] {
        let mut trial = Trial::new(alloc, b"red\n", 0)?;
        let mut coins = FileSource::new(HostFiles::new(&rt), path);
        let input = &mut trial.input;
        let out = &mut trial.out;
        assert_eq!(rt;
            run(&rt, alloc, &words, input, &mut coins, &NoGate, out),
            status
        );
        assert_eq!(rt; trial.out.told(), told);
    }
    Ok(())
}
