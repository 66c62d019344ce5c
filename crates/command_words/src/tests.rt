use crate::{Command, Words, WordsError, words_of};
use report_frame::Version;
use star_io::NoMemory;
use std::alloc::Global;
use std::test::*;

const ZEROS: &str = "0000000000000000000000000000000000000000000000000000000000000000";

// The words of a line, which are parted by spaces.
fn words_in(alloc: Global, line: &str) -> Result<Words, NoMemory> {
    let mut words = Words::new(alloc);
    for word in line.split_whitespace() {
        words.push(word)?;
    }
    Ok(words)
}

// The answer for a line of words.
fn read(alloc: Global, line: &str) -> Result<Result<Command, WordsError>, NoMemory> {
    Ok(words_of(alloc, &words_in(alloc, line)?))
}

// Whether a line of words gives `make` with these options.
fn makes(
    alloc: Global,
    line: &str,
    epoch: u32,
    version: Version,
    thresholds: &[u16],
    seed: Option<[u8; 32]>,
) -> Result<bool, NoMemory> {
    match read(alloc, line)? {
        Ok(
            Command::Make {
                epoch: got_epoch,
                version: got_version,
                thresholds: got,
                seed: got_seed,
            },
        ) => Ok(
            got_epoch == epoch
                && got_version == version
                && got.as_slice() == thresholds
                && got_seed == seed,
        ),
        _ => Ok(false),
    }
}

// Lines of words that give no command.
const FAULTY_LINES: [&str; 58] = [
    "",
    "look",
    "Check",
    "check x",
    "check --epoch 1",
    "selftest x",
    "-h",
    "--help",
    "--version",
    "make",
    "make --epoch 1",
    "make --thresholds 2",
    "make --epoch --thresholds 2",
    "make --thresholds 2 --epoch",
    "make --epoch +7 --thresholds 2",
    "make --epoch -7 --thresholds 2",
    "make --epoch 0x7 --thresholds 2",
    "make --epoch=7=7 --thresholds 2",
    "make --epoch 4294967296 --thresholds 2",
    "make --epoch 00000000001 --thresholds 2",
    "make --epoch 1 --epoch 1 --thresholds 2",
    "make --epoch 1 --thresholds 2 --epoch=1",
    "make --epoch 1 --thresholds 2 --thresholds 2",
    "make --epoch 1 --thresholds 2,1",
    "make --epoch 1 --thresholds 2,,2",
    "make --epoch 1 --thresholds ,2",
    "make --epoch 1 --thresholds 2,",
    "make --epoch 1 --thresholds 2;2",
    "make --epoch 1 --thresholds=",
    "make --epoch= --thresholds=2",
    "make --epoch 1 --thresholds 513",
    "make --epoch 1 --thresholds 2,2,2,2,2,2,2,2,2",
    "make --epoch 1 --thresholds 2, 2",
    "make --epoch 1 --thresholds 2 --seed 00",
    "make --epoch 1 --thresholds 2 --seed=",
    "make --epoch 1 --thresholds 2 --workers 4",
    "make --epoch 1 --thresholds 2 --",
    "make -- --epoch 1 --thresholds 2",
    "make --epoch 1 --thresholds 2 -",
    "make --epoch 1 --thresholds 2 x",
    "make x --epoch 1 --thresholds 2",
    "make -e 1 --thresholds 2",
    "make --epo 1 --thresholds 2",
    "make --Epoch 1 --thresholds 2",
    "make --epoch 1 --thresholds 2 -h",
    "make --epoch 1 --thresholds 2 --help",
    "make --epoch 1 --thresholds 2 --version",
    "make --epoch 1 --thresholds 2 --version=",
    "make --epoch 1 --thresholds 2 --version 3",
    "make --epoch 1 --thresholds 2 --version 01",
    "make --epoch 1 --thresholds 2 --version 2 --version 2",
    "make --epoch 1 --thresholds 2,2,2,2,2,2,2,2,2 --version 1",
    "make --epoch 1 --thresholds 513 --version 1",
    "make --epoch 1 --thresholds 2,2,2,2,2,2,2,2,2,2,2,2,2,2,2,2,2 --version 2",
    "make --epoch 1 --thresholds 4097 --version 2",
    "make --epoch 1 --thresholds 1 --version 2",
    "make help --epoch 1 --thresholds 2",
    "--epoch 1 make --thresholds 2",
];

// The same of `reveal` and `gen`.
const FAULTY_TRIALS: [&str; 41] = [
    "reveal",
    "reveal 7",
    "reveal --workers 2",
    "reveal --epoch",
    "reveal --epoch=",
    "reveal --epoch 7 --epoch 7",
    "reveal --epoch=7 --epoch 7",
    "reveal --epoch=7 --workers 65",
    "reveal --epoch 7 --workers 0",
    "reveal --epoch 7 --workers 00",
    "reveal --epoch 7 --workers",
    "reveal --epoch 7 --workers=",
    "reveal --epoch 7 --workers +2",
    "reveal --epoch 7 --workers -2",
    "reveal --epoch 7 --workers 2 --workers 2",
    "reveal --epoch +7",
    "reveal --epoch -7",
    "reveal --epoch 0x7",
    "reveal --epoch 4294967296",
    "reveal --epoch 00000000007",
    "reveal --epoch 7 --",
    "reveal --epoch 7 7",
    "reveal --epoch 7 --thresholds 2",
    "reveal --epoch 7 --number 1",
    "Reveal --epoch 7",
    "gen",
    "gen --number 7 --reports 0 --liars 0",
    "gen --number 7 --reports 65537 --liars 0",
    "gen --number 7 --reports 1 --liars 101",
    "gen --number 4294967296 --reports 1 --liars 0",
    "gen --number 7 --reports 1 --liars -1",
    "gen --number 7 --reports 1",
    "gen --number 7 --liars 0",
    "gen --reports 1 --liars 0",
    "gen --number 7 --reports 1 --liars 0 --workers 0",
    "gen --number 7 --reports 1 --liars 0 --workers 65",
    "gen --number 7 --reports 1 --liars 0 --liars 0",
    "gen --number 7 --reports 1 --liars 0 --epoch 1",
    "gen --number 7 --reports 1 --liars 0 --",
    "gen --number 7 --reports 1 --liars 0 x",
    "gen 7 1 0",
];

// The same of `expect`, whose options are all required.
const FAULTY_EXPECTATIONS: [&str; 4] = [
    "expect",
    "expect --epoch 1 --thresholds 2",
    "expect --epoch 1 --thresholds 2 --seed 00",
    "expect --epoch 1 --thresholds 2 --version 1",
];

// The same of the verbs on books.
const FAULTY_BOOKS: [&str; 9] = [
    "book",
    "book --epoch 4294967296",
    "book --epoch 7 --workers 2",
    "book --epoch 7 x",
    "merge",
    "merge --epoch 7 --workers 2",
    "openbook --workers 2",
    "openbook --epoch 7 --workers 65",
    "open-book --epoch 7",
];

#[test]
fn faulty_words_are_a_fault_of_usage(rt: HostRuntime) -> Result<(), Fail> {
    let alloc = rt.alloc();
    for line in FAULTY_LINES
        .iter()
        .chain(&FAULTY_TRIALS)
        .chain(&FAULTY_EXPECTATIONS)
        .chain(&FAULTY_BOOKS)
    {
        assert_eq!(rt; read(alloc, line)?, Err(WordsError::Usage), "{line}");
    }
    Ok(())
}

#[test]
fn seeds_that_are_not_64_digits_are_a_fault_of_usage(rt: HostRuntime) -> Result<(), Fail> {
    let alloc = rt.alloc();
    let (_, shorter) = ZEROS.split_at(1);
    for (front, back) in [(shorter, ""), (ZEROS, "0"), (shorter, "g"), (shorter, "-")] {
        let line = format!(in alloc; "make --epoch 1 --thresholds 2 --seed {front}{back}")?;
        assert_eq!(rt; read(alloc, &line)?, Err(WordsError::Usage), "{line}");
    }
    Ok(())
}

#[test]
fn verbs_that_stand_alone(rt: HostRuntime) -> Result<(), Fail> {
    let alloc = rt.alloc();
    assert_eq!(rt; read(alloc, "check")?, Ok(Command::Check));
    assert_eq!(rt; read(alloc, "selftest")?, Ok(Command::SelfTest));
    assert_eq!(rt; read(alloc, "audit")?, Ok(Command::Audit));
    Ok(())
}

// The same of `certify` and `audit`.
const FAULTY_CERTIFICATES: [&str; 9] = [
    "certify",
    "certify 7",
    "certify --epoch",
    "certify --epoch 4294967296",
    "certify --epoch 7 --epoch 7",
    "certify --epoch 7 --workers 2",
    "certify --epoch 7 x",
    "audit x",
    "audit --epoch 7",
];

#[test]
fn options_of_certify(rt: HostRuntime) -> Result<(), Fail> {
    let alloc = rt.alloc();
    for (line, epoch) in [
        ("certify --epoch 7", 7),
        ("certify --epoch=4294967295", 4294967295),
    ] {
        assert_eq!(rt;
            read(alloc, line)?,
            Ok(Command::Certify { epoch }),
            "{line}"
        );
    }
    for line in FAULTY_CERTIFICATES {
        assert_eq!(rt; read(alloc, line)?, Err(WordsError::Usage), "{line}");
    }
    Ok(())
}

#[test]
fn options_of_reveal(rt: HostRuntime) -> Result<(), Fail> {
    let alloc = rt.alloc();
    for (line, epoch, workers) in [
        ("reveal --epoch 7", 7, 4),
        ("reveal --workers 2 --epoch=007", 7, 2),
        ("reveal --epoch=0 --workers=1", 0, 1),
        (
            "reveal --epoch 4294967295 --workers 0000000064",
            4294967295,
            64,
        ),
    ] {
        let wanted = Command::Reveal { epoch, workers };
        assert_eq!(rt; read(alloc, line)?, Ok(wanted), "{line}");
    }
    Ok(())
}

#[test]
fn options_of_gen(rt: HostRuntime) -> Result<(), Fail> {
    let alloc = rt.alloc();
    for (line, number, reports, liars, workers) in [
        ("gen --number 7 --reports 20000 --liars 10", 7, 20000, 10, 4),
        (
            "gen --liars=0 --workers 64 --reports 1 --number=0",
            0,
            1,
            0,
            64,
        ),
        (
            "gen --workers=1 --number 4294967295 --reports 65536 --liars 100",
            4294967295,
            65536,
            100,
            1,
        ),
    ] {
        let wanted = Command::Gen {
            number,
            reports,
            liars,
            workers,
        };
        assert_eq!(rt; read(alloc, line)?, Ok(wanted), "{line}");
    }
    Ok(())
}

#[test]
fn options_of_books(rt: HostRuntime) -> Result<(), Fail> {
    let alloc = rt.alloc();
    let book = Command::Book { epoch: 7 };
    assert_eq!(rt; read(alloc, "book --epoch=007")?, Ok(book));
    let merge = Command::Merge { epoch: 4294967295 };
    assert_eq!(rt; read(alloc, "merge --epoch 4294967295")?, Ok(merge));
    for (line, workers) in [
        ("openbook --epoch 7", 4),
        ("openbook --workers 64 --epoch=7", 64),
    ] {
        let wanted = Command::OpenBook { epoch: 7, workers };
        assert_eq!(rt; read(alloc, line)?, Ok(wanted), "{line}");
    }
    Ok(())
}

#[test]
fn options_of_make(rt: HostRuntime) -> Result<(), Fail> {
    let alloc = rt.alloc();
    let pair: &[u16] = &[20, 10];
    for (line, epoch, thresholds) in [
        ("make --epoch 7 --thresholds 20,10", 7, pair),
        ("make --thresholds 20,10 --epoch 7", 7, pair),
        ("make --epoch=007 --thresholds=20,0000000010", 7, pair),
        ("make --thresholds=20,10 --epoch 0000000000", 0, pair),
        ("make --epoch 4294967295 --thresholds 2", 4294967295, &[2]),
        (
            "make --epoch 1 --thresholds 2,3,4,5,6,7,8,512",
            1,
            &[2, 3, 4, 5, 6, 7, 8, 512],
        ),
    ] {
        assert!(rt;
            makes(alloc, line, epoch, Version::One, thresholds, None)?,
            "{line}"
        );
    }
    Ok(())
}

#[test]
fn options_of_expect(rt: HostRuntime) -> Result<(), Fail> {
    let alloc = rt.alloc();
    for (thresholds, wanted) in [
        ("20,10", true),
        ("513", false),
        ("2,2,2,2,2,2,2,2,2", false),
    ] {
        let line = format!(in alloc; "expect --seed {ZEROS} --thresholds {thresholds} --epoch=7")?;
        match read(alloc, &line)? {
            Ok(
                Command::Expect {
                    epoch,
                    thresholds,
                    seed,
                },
            ) => {
                assert!(rt; wanted && epoch == 7 && seed == [0; 32], "{line}");
                assert_eq!(rt; thresholds.as_slice(), [20, 10].as_slice());
            }
            answer => assert!(rt; !wanted && answer == Err(WordsError::Usage), "{line}"),
        }
    }
    Ok(())
}

#[test]
fn versions_of_make(rt: HostRuntime) -> Result<(), Fail> {
    let alloc = rt.alloc();
    let most = &[2, 3, 4, 5, 6, 7, 8, 9, 10, 11, 12, 13, 14, 15, 16, 4096];
    let line = "make --version=2 --epoch 1 --thresholds 2,3,4,5,6,7,8,9,10,11,12,13,14,15,16,4096";
    assert!(rt; makes(alloc, line, 1, Version::Two, most, None)?);
    let line = "make --epoch 1 --thresholds 513 --version 2";
    assert!(rt; makes(alloc, line, 1, Version::Two, &[513], None)?);
    let line = "make --epoch 1 --thresholds 512 --version 1";
    assert!(rt; makes(alloc, line, 1, Version::One, &[512], None)?);
    Ok(())
}

#[test]
fn seeds_in_either_case(rt: HostRuntime) -> Result<(), Fail> {
    let alloc = rt.alloc();
    let (_, zeros) = ZEROS.split_at(48);
    for digits in ["0123456789abcdef", "0123456789ABCDEF", "0123456789aBcDeF"] {
        let line = format!(in alloc;
            "make --seed {digits}{zeros}{zeros}{digits} --epoch 1 --thresholds 2"
        )?;
        let mut seed = [0; 32];
        seed[..8].copy_from_slice(&[0x01, 0x23, 0x45, 0x67, 0x89, 0xab, 0xcd, 0xef]);
        seed[24..].copy_from_slice(&[0x01, 0x23, 0x45, 0x67, 0x89, 0xab, 0xcd, 0xef]);
        assert!(rt;
            makes(alloc, &line, 1, Version::One, &[2], Some(seed))?,
            "{line}"
        );
    }
    Ok(())
}
