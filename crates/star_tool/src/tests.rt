ghost use Rattle.std.specs.Prelude.{Some};

use crate::{FileSource, HostFiles, Opener, Status, status_line, status_number};
use book_file::BookKind;
use cert_audit::CertKind;
use star_io::{Failed, Source};
use std::sync::atomic::{AtomicU64, Ordering};
use std::test::*;

// The program's own file.
const PROGRAM: &str = "/proc/self/exe";

#[test]
fn takes_of_a_file_are_its_bytes_in_order(rt: HostRuntime) -> Result<(), Fail> {
    let mut front = [0; 32];
    let mut program = FileSource::new(HostFiles::new(&rt), PROGRAM);
    assert_eq!(rt; program.take(&mut front), Ok(32));
    assert!(rt; front.starts_with(b"\x7fELF"));

    let mut program = FileSource::new(HostFiles::new(&rt), PROGRAM);
    let mut piece = [0; 4];
    for wanted in front.chunks(4) {
        assert_eq!(rt; program.take(&mut piece), Ok(4));
        assert_eq!(rt; piece.as_slice(), wanted);
    }
    Ok(())
}

#[test]
fn a_file_that_is_not_there_and_a_folder_are_faults(rt: HostRuntime) -> Result<(), Fail> {
    for path in ["/proc/self/none", "/"] {
        let mut none = FileSource::new(HostFiles::new(&rt), path);
        assert_eq!(rt; none.take(&mut [0; 4]), Err(Failed));
        assert_eq!(rt;
            none.take(&mut [0; 4]),
            Err(Failed),
            "the next take tries again"
        );
    }
    Ok(())
}

// Bytes at each path, of which the first opening fails.
#[derive(Drop)]
struct AtSecond<'a> {
    bytes: &'a [u8],
    openings: AtomicU64,
}

impl<'a> Opener for AtSecond<'a> {
    type File = &'a [u8];

    ghost bytes_at = { λ s _. Some s.bytes.now };

    fn open(&self, _path: &str) -> Result<&'a [u8], Failed> {
        if self.openings.fetch_add(1, Ordering::SeqCst) == 0 {
            return Err(Failed);
        }
        Ok(self.bytes)
    }
}

#[test]
fn an_opening_that_failed_is_tried_again(rt: HostRuntime) -> Result<(), Fail> {
    let opener = AtSecond {
        bytes: b"abcdef",
        openings: AtomicU64::new(0),
    };
    let mut file = FileSource::new(opener, "late");
    let mut into = [0; 4];
    assert_eq!(rt; file.take(&mut into), Err(Failed));
    assert_eq!(rt; file.take(&mut into), Ok(4));
    assert_eq!(rt; into, *b"abcd");
    assert_eq!(rt; file.take(&mut into), Ok(2));
    assert_eq!(rt; into, *b"efcd");
    Ok(())
}

const USAGE: &str =
    "usage: star_tool check | reveal --epoch E [--workers W] | make --epoch E --thresholds K,.. [--seed HEX] [--version V] | gen --number N --reports R --liars L [--workers W] | selftest | expect --epoch E --thresholds K,.. --seed HEX | book --epoch E | merge --epoch E | openbook --epoch E [--workers W] | certify --epoch E | audit | epochs [--workers W]\n";

const BAD_TABLE: Status = Status::BadTable { row: 1, column: 0 };

const BAD_VECTOR: Status = Status::BadVector {
    number: 5,
    got: [1; 32],
    wanted: [0; 32],
};

const BAD_BOOK: Status = Status::BadBook {
    book: 3,
    kind: BookKind::Truncated,
    at: 17,
};

const BAD_CERT: Status = Status::BadCert {
    cert: 3,
    kind: CertKind::Range,
    at: 17,
};

#[test]
fn each_status_has_its_number_and_line(rt: HostRuntime) -> Result<(), Fail> {
    let alloc = rt.alloc();
    let cases = [
        (Status::Done, 0, ""),
        (Status::Usage, 2, USAGE),
        (Status::ReadFault, 3, "read fault\n"),
        (Status::WriteFault, 4, "write fault\n"),
        (Status::TooMany, 5, "too many\n"),
        (Status::NoMemory, 6, "no memory\n"),
        (BAD_TABLE, 7, "bad table: row 1 column 0\n"),
        (
            Status::ShortCoins { have: 31 },
            8,
            "short coins: 31 bytes\n",
        ),
        (BAD_VECTOR, 9, "vector 5 differs\n"),
        (BAD_BOOK, 10, "bad book 3: Truncated 17\n"),
        (
            Status::BookEpoch { book: 3, have: 2 },
            11,
            "book 3: epoch 2\n",
        ),
        (BAD_CERT, 12, "bad cert 3: Range 17\n"),
    ];
    for (status, number, line) in cases {
        assert_eq!(rt; status_number(&status), number);
        assert_eq!(rt; status_line(alloc, &status)?.as_slice(), line.as_bytes());
    }
    Ok(())
}
