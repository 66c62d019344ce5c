// Inputs and coins of which a take fails, and outputs of which a put fails, for each verb.
use crate::trial_streams::{RED, made_stream, words_in};
use crate::{Status, run};
use book_file::BookKind;
use recovery_pool::NoGate;
use star_io::{FailAt, MemorySink, MemorySource};
use std::alloc::Global;
use std::test::*;
use std::thread::Threads;

// The most bytes that a run tells here.
const ROOM: usize = 65_536;

// The most takes that a run makes here of one source.
const MOST_TAKES: u64 = 10_000;

// The coins are so many zeros.
const COINS: usize = 40;

/// A command line, its input, and how it ends and what it tells where nothing fails.
#[derive(Drop)]
pub(crate) struct Case<'a> {
    line: &'a str,
    input: &'a [u8],
    status: Status,
    told: &'a [u8],
}

impl<'a> Case<'a> {
    /// A run that is done, and tells at least one byte.
    pub(crate) fn new(line: &'a str, input: &'a [u8], told: &'a [u8]) -> Case<'a> {
        Case {
            line,
            input,
            status: Status::Done,
            told,
        }
    }

    fn is_met_by(&self, ran: &Ran) -> bool {
        ran.status == self.status && ran.out.told() == self.told
    }
}

// A source of these bytes, of which each take brings at most `cut` bytes, and takes of these
// numbers fail.
fn failing(alloc: Global, bytes: &[u8], cut: usize, fails: &[u64]) -> Result<MemorySource, Fail> {
    let bytes = Vec::from_slice(alloc, bytes)?;
    let cuts = vec![in alloc; cut; MOST_TAKES as usize]?;
    Ok(MemorySource::new(bytes, cuts, Vec::from_slice(alloc, fails)?))
}

// The sources and the sink of a run, as it leaves them, and how it ended.
#[derive(Drop)]
struct Ran {
    input: MemorySource,
    coins: MemorySource,
    out: MemorySink,
    status: Status,
}

impl Ran {
    fn over<R: Threads + Sync>(
        rt: &R,
        alloc: Global,
        line: &str,
        mut input: MemorySource,
        mut coins: MemorySource,
        fails: &[FailAt],
    ) -> Result<Ran, Fail> {
        let words = words_in(alloc, line)?;
        let mut out = MemorySink::new(alloc, ROOM, Vec::from_slice(alloc, fails)?)?;
        let status = run(rt, alloc, &words, &mut input, &mut coins, &NoGate, &mut out);
        Ok(Ran {
            input,
            coins,
            out,
            status,
        })
    }

    // A read failed, and nothing was told.
    fn is_read_fault(&self) -> bool {
        self.status == Status::ReadFault && self.out.told().is_empty()
    }
}

/// Whether a failing take of the input, whichever it is, tells nothing, and the run tells its text
/// in which no take fails. A take brings at most `cut` bytes.
pub(crate) fn bears_failing_takes<R: Threads + Sync>(
    rt: &R,
    alloc: Global,
    case: &Case,
    cut: usize,
) -> Result<bool, Fail> {
    for take in 0..MOST_TAKES {
        let input = failing(alloc, case.input, cut, &[take])?;
        let coins = failing(alloc, &[0; COINS], cut, &[])?;
        let ran = Ran::over(rt, alloc, case.line, input, coins, &[])?;
        if ran.input.calls() <= take {
            return Ok(case.is_met_by(&ran));
        }
        if !ran.is_read_fault() {
            return Ok(false);
        }
    }
    Ok(false)
}

/// The same of the takes of the coins.
pub(crate) fn bears_failing_coins<R: Threads + Sync>(
    rt: &R,
    alloc: Global,
    case: &Case,
    cut: usize,
) -> Result<bool, Fail> {
    for take in 0..MOST_TAKES {
        let input = failing(alloc, case.input, cut, &[])?;
        let coins = failing(alloc, &[0; COINS], cut, &[take])?;
        let ran = Ran::over(rt, alloc, case.line, input, coins, &[])?;
        if ran.coins.calls() <= take {
            return Ok(case.is_met_by(&ran));
        }
        if !ran.is_read_fault() {
            return Ok(false);
        }
    }
    Ok(false)
}

/// Whether a put that fails after some bytes has told these, for each number of bytes of the text.
pub(crate) fn bears_failing_puts<R: Threads + Sync>(
    rt: &R,
    alloc: Global,
    case: &Case,
) -> Result<bool, Fail> {
    for after in 0..=case.told.len() {
        let input = failing(alloc, case.input, ROOM, &[])?;
        let coins = failing(alloc, &[0; COINS], ROOM, &[])?;
        let ran = Ran::over(
            rt,
            alloc,
            case.line,
            input,
            coins,
            &[FailAt { call: 0, after }],
        )?;
        let told = ran.out.told();
        if ran.status != Status::WriteFault || told.len() != after || !case.told.starts_with(told) {
            return Ok(false);
        }
    }
    Ok(true)
}

// Whether a case bears each failing take of its input and of its coins, and each failing put.
fn bears_each_fault<R: Threads + Sync>(rt: &R, alloc: Global, case: &Case) -> Result<bool, Fail> {
    Ok(
        bears_failing_takes(rt, alloc, case, 9)?
            && bears_failing_coins(rt, alloc, case, 9)?
            && bears_failing_puts(rt, alloc, case)?,
    )
}

// The text of the record `RED` to `check`.
const CHECKED: &[u8] = b"0 good level=0 epoch=1 k=2 box=3 body=1\nrecords=1 good=1 refused=0\n";

// The text of the reports of `red` of two clients.
const REDS_TOLD: &[u8] =
    b"open red~2 points=2 agree=2 members=2\nlevel 0 opened=1 few=0 noline=0 badvalue=0\nrecords=2 rows=2 refused=0\n";

const TRIAL_TOLD: &[u8] =
    b"level 0 opened=0 few=1 noline=0 badvalue=0\nrecords=1 rows=1 refused=0\ntext=2b1e13f944338ac91b727831632c537af6f3c085c3f52211c2709542bfecabf3\n";

const VECTORS_TOLD: &[u8] =
    b"vector 1 ok\nvector 2 ok\nvector 3 ok\nvector 4 ok\nvector 5 ok\nvector 6 ok\nvector 7 ok\nvectors=7 ok=7\n";

#[test]
fn verbs_on_reports_bear_each_fault(rt: HostRuntime) -> Result<(), Fail> {
    let alloc = rt.alloc();
    let reds = made_stream(&rt, alloc, "--epoch 1 --thresholds 2", "red\nred\n")?;
    let cases = [
        Case::new("check", RED, CHECKED),
        Case::new("reveal --epoch 1", &reds, REDS_TOLD),
        Case::new("make --epoch 1 --thresholds 2", b"red\n", RED),
        Case::new("gen --number 0 --reports 1 --liars 0", b"", TRIAL_TOLD),
        Case::new("selftest", b"", VECTORS_TOLD),
    ];
    for case in &cases {
        assert!(rt; bears_each_fault(&rt, alloc, case)?, "{}", case.line);
    }
    Ok(())
}

const EXPECT: &str =
    "expect --epoch 1 --thresholds 2 --seed 0000000000000000000000000000000000000000000000000000000000000000";

const EXPECTED: &[u8] = b"open red~2 points=2 agree=2 members=2\nprefixes=1 clear=yes\n";

/// The book of the reports of `red` of two clients: a head of 21 bytes, and each frame with its
/// count and length.
pub(crate) const REDS_BOOK: &[u8] =
    b"STARBOOK\x01\x00\x00\x00\x01\x00\x00\x00\x00\x00\x00\x00\x02\x00\x00\x00\x01\x00\x8d\x53\x54\x01\x00\x00\x00\x00\x01\x00\x02\x06\xb8\xe0\xad\xa0\xf1\x3d\x91\x0b\x79\xc5\x9d\x12\x73\x28\x79\x08\x81\xd8\xd7\xcf\x3f\xcb\x23\x03\x56\xf5\xca\xe5\xcc\xc5\x8f\xf6\x7d\x67\x87\x17\xbd\xf3\xb1\xda\x3e\x31\x81\x1c\xf2\xae\x3b\x44\x81\x6b\xc0\x21\x97\x30\x80\x80\x58\x60\xf2\xca\x6d\x34\x5b\xa6\xb0\x48\x39\xdd\xa5\x68\x52\xe7\x95\x5c\x27\xb0\x84\x70\x4b\x03\xf8\xd0\x5b\x40\x5d\x6a\xe5\x53\x86\xbd\x28\xbd\xd2\x19\xb8\x00\x01\x0d\x30\x52\x52\x36\x5b\x25\xa5\x7e\xdd\xc6\x95\xd8\x91\x1b\x06\xed\x8d\x86\x70\xd5\x55\x34\x75\xfe\x2e\x73\xcb\x25\x78\xd6\x40\xc0\x00\x00\x00\x01\x00\x8d\x53\x54\x01\x00\x00\x00\x00\x01\x00\x02\x0f\x3f\xdf\xd6\xc6\x15\x78\xfc\x14\x2a\x59\xd9\x35\xb8\xfd\x65\x1b\x4a\x6a\x9d\x23\x17\x0d\xd6\x1c\xab\xd1\x4a\x61\x3d\xb1\xc0\xf6\x7d\x67\x87\x17\xbd\xf3\xb1\xda\x3e\x31\x81\x1c\xf2\xae\x3b\x44\x81\x6b\xc0\x21\x97\x30\x80\x80\x58\x60\xf2\xca\x6d\x34\x5b\xa6\xb0\x48\x39\xdd\xa5\x68\x52\xe7\x95\x5c\x27\xb0\x84\x70\x4b\x03\xf8\xd0\x5b\xf5\xcf\x35\xbd\x3d\xd3\x3b\x80\x09\x63\x16\x34\x00\x01\x3f\x23\x92\xf2\x57\x25\xbc\x51\x26\x84\xc6\x0a\x8e\xe5\xbf\x49\xbc\xb7\xc0\xf2\x72\x77\x70\x79\xc9\x08\xc0\xfb\xed\xf3\xef\x6e\xcc";

const EPOCHS_TOLD: &[u8] =
    b"epoch 1\nopen red~2 points=2 agree=2 members=2\nlevel 0 opened=1 few=0 noline=0 badvalue=0\nrecords=2 rows=2 refused=0\nrecords=2 epochs=1 refused=0\n";

// The certificate of the reports of `red` of two clients.
const REDS_CERTIFIED: &[u8] =
    b"STARCERT\x01\x01\x00\x00\x00\x00\x01\x00\x02\x00\x00\x00\x00\x00\x00\x00\x00\x00\x00\x00\x00\x00\x00\x00\x00\x00\x00\x00\x00\x00\x00\x00\x00\x00\x00\x00\x00\x00\x00\x00\x00\xf6\x7d\x67\x87\x17\xbd\xf3\xb1\xda\x3e\x31\x81\x1c\xf2\xae\x3b\x44\x81\x6b\xc0\x21\x97\x30\x80\x80\x58\x60\xf2\xca\x6d\x34\x5b\xa6\xb0\x48\x39\xdd\xa5\x68\x52\xe7\x95\x5c\x27\xb0\x84\x70\x4b\x03\xf8\xd0\x5b\x00\x00\x00\x02\x06\xb8\xe0\xad\xa0\xf1\x3d\x91\x0b\x79\xc5\x9d\x12\x73\x28\x79\x08\x81\xd8\xd7\xcf\x3f\xcb\x23\x03\x56\xf5\xca\xe5\xcc\xc5\x8f\x0f\x3f\xdf\xd6\xc6\x15\x78\xfc\x14\x2a\x59\xd9\x35\xb8\xfd\x65\x1b\x4a\x6a\x9d\x23\x17\x0d\xd6\x1c\xab\xd1\x4a\x61\x3d\xb1\xc0\x00\x00\x0f\x83\xa5\x54\xaf\x5c\x18\xe4\x2d\x37\x1c\x75\xe3\x8f\x00\x00\x00\x7e\xc2\xd1\xfe\x4a\x04\x34\x98\x0a\x6a\x67\xea\xde\x00\x00\x00\xe2\x73\xa8\x6c\x75\x15\xf9\x2c\x48\x08\x57\x62\xe2";

const AUDITED: &[u8] = b"0 yes red~2 level=0 points=2 agree=2\ncerts=1 yes=1\n";

#[test]
fn verbs_on_sums_and_proofs_bear_each_fault(rt: HostRuntime) -> Result<(), Fail> {
    let alloc = rt.alloc();
    let reds = made_stream(&rt, alloc, "--epoch 1 --thresholds 2", "red\nred\n")?;
    let cases = [
        Case::new(EXPECT, b"red\nred\n", EXPECTED),
        Case::new("book --epoch 1", &reds, REDS_BOOK),
        Case::new("merge --epoch 1", REDS_BOOK, REDS_BOOK),
        Case::new("openbook --epoch 1", REDS_BOOK, REDS_TOLD),
        Case::new("certify --epoch 1", &reds, REDS_CERTIFIED),
        Case::new("audit", REDS_CERTIFIED, AUDITED),
        Case::new("epochs", &reds, EPOCHS_TOLD),
    ];
    for case in &cases {
        assert!(rt; bears_each_fault(&rt, alloc, case)?, "{}", case.line);
    }
    Ok(())
}

// Behind a bad book the input is read to its end before that is told, and a read that fails there
// is told instead.
#[test]
fn a_failed_read_comes_before_a_bad_book(rt: HostRuntime) -> Result<(), Fail> {
    let alloc = rt.alloc();
    let case = Case {
        line: "merge --epoch 1",
        input: b"STARBOOM, and as many bytes behind it as some takes more bring",
        status: Status::BadBook {
            book: 0,
            kind: BookKind::Magic,
            at: 0,
        },
        told: b"",
    };
    assert!(rt; bears_failing_takes(&rt, alloc, &case, 8)?);
    Ok(())
}
