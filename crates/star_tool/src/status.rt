// How a run ends, as its number and its line.
ghost use Rattle.std.specs.Prelude.{◌≡◌, ◌++◌, IfOk, OnOk, codes, string_bytes};
ghost use Rattle.std.specs.Fmt.{decimal};
ghost use Rattle.book_file.specs.Names.{name_of as book_fault_name};
ghost use Rattle.cert_audit.specs.Names.{name_of as cert_fault_name};
ghost use Rattle.star_tool.specs.Status.{number_of, line_of, first_usages, next_usages, last_usages};

use crate::verbs::{
    audit, book, certify, check, epochs, expect, generate, make, merge, open_book, reveal,
    self_test,
};
use book_file::BookKind;
use book_merge::{MergeError, MergeFault};
use cert_audit::CertKind;
use client_table::TableError;
use star_io::{InputError, NoMemory};
use star_vectors::SelfTestError;
use std::alloc::{AllocError, Global};
use std::fmt::Write;

/// How a run ended.
#[derive(Clone, Copy, Debug, PartialEq, Eq)]
pub enum Status {
    /// The whole output was told.
    Done,
    /// The words give no command.
    Usage,
    /// A read of the input failed.
    ReadFault,
    /// A write of the output failed.
    WriteFault,
    /// The input has more bytes, records or rows than are read.
    TooMany,
    NoMemory,
    /// The table's first bad record, and the first column at which it is bad. Both count from 0.
    BadTable {
        row: u32,
        column: u32,
    },
    /// The coins came to their end after so many bytes, which are too few for a seed.
    ShortCoins {
        have: u32,
    },
    /// The self test found a vector that gives other bytes than it must. Fewer bytes than 32 are
    /// filled up with zeros at the end.
    BadVector {
        number: u8,
        got: [u8; 32],
        wanted: [u8; 32],
    },
    /// The bytes behind so many books are no book, and not empty: what is wrong, and where the
    /// faulty field starts, counted from the front of these bytes.
    BadBook {
        book: u32,
        kind: BookKind,
        at: u64,
    },
    /// The book of this number is of another epoch, which it is. Books are counted from 0.
    BookEpoch {
        book: u32,
        have: u32,
    },
    /// Behind so many certificates the bytes go on, and begin with none: what is wrong with them,
    /// and where, in bytes from there.
    BadCert {
        cert: u32,
        kind: CertKind,
        at: u64,
    },
}

/// The exit status of the process.
pub fn status_number(status: &Status) -> u8
    ensures { result ≡ number_of status.now }
{
    match status {
        Status::Done => 0,
        Status::Usage => 2,
        Status::ReadFault => 3,
        Status::WriteFault => 4,
        Status::TooMany => 5,
        Status::NoMemory => 6,
        Status::BadTable { .. } => 7,
        Status::ShortCoins { .. } => 8,
        Status::BadVector { .. } => 9,
        Status::BadBook { .. } => 10,
        Status::BookEpoch { .. } => 11,
        Status::BadCert { .. } => 12,
    }
}

impl From<InputError> for Status {
    ghost use Rattle.std.specs.Prelude.{◌≡◌};
    ghost use Rattle.star_tool.specs.Status.{input_status};

    ghost from_gives = { λ error status. status ≡ input_status error };

    fn from(error: InputError) -> Self {
        match error {
            InputError::Read => Status::ReadFault,
            InputError::TooMany => Status::TooMany,
            InputError::NoMemory => Status::NoMemory,
        }
    }
}

impl From<TableError> for Status {
    ghost use Rattle.std.specs.Prelude.{◌≡◌};
    ghost use Rattle.star_tool.specs.Status.{table_status};

    ghost from_gives = { λ error status. status ≡ table_status error };

    fn from(error: TableError) -> Self {
        match error {
            TableError::TooMany => Status::TooMany,
            TableError::BadTable { row, column } => Status::BadTable { row, column },
            TableError::NoMemory => Status::NoMemory,
        }
    }
}

impl From<SelfTestError> for Status {
    ghost use Rattle.std.specs.Prelude.{◌≡◌};
    ghost use Rattle.star_tool.specs.Status.{self_test_status};

    ghost from_gives = { λ error status. status ≡ self_test_status error };

    fn from(error: SelfTestError) -> Self {
        match error {
            SelfTestError::Vector {
                number,
                got,
                wanted,
            } => Status::BadVector {
                number,
                got,
                wanted,
            },
            SelfTestError::NoMemory => Status::NoMemory,
        }
    }
}

impl From<MergeError> for Status {
    ghost use Rattle.std.specs.Prelude.{◌≡◌};
    ghost use Rattle.star_tool.specs.Status.{merge_status};

    ghost from_gives = { λ error status. status ≡ merge_status error };

    fn from(error: MergeError) -> Self {
        match error {
            MergeError::Read => Status::ReadFault,
            MergeError::Fault(MergeFault::TooMany) => Status::TooMany,
            MergeError::Fault(MergeFault::BadBook { book, kind, at }) => {
                Status::BadBook { book, kind, at }
            }
            MergeError::Fault(MergeFault::BookEpoch { book, have }) => {
                Status::BookEpoch { book, have }
            }
            MergeError::NoMemory => Status::NoMemory,
        }
    }
}

impl From<NoMemory> for Status {
    ghost use Rattle.std.specs.Prelude.{◌≡◌};
    ghost use Rattle.star_tool.specs.declared.status.Status.TheVariants as variant;

    ghost from_gives = { λ _ status. status ≡ variant.NoMemory };

    fn from(_: NoMemory) -> Self {
        Status::NoMemory
    }
}

/// The line for standard error, with its newline; no bytes for `Done`.
pub fn status_line(alloc: Global, status: &Status) -> Result<Vec<u8>, NoMemory>
    ensures { IfOk result (λ line. line.items ≡ line_of status.now) }
{
    let line = match status {
        Status::Done => "",
        Status::Usage => return usage_line(alloc),
        Status::ReadFault => "read fault\n",
        Status::WriteFault => "write fault\n",
        Status::TooMany => "too many\n",
        Status::NoMemory => "no memory\n",
        Status::BadTable { row, column } => return bad_table_line(alloc, *row, *column),
        Status::ShortCoins { have } => return short_coins_line(alloc, *have),
        Status::BadVector { number, .. } => return bad_vector_line(alloc, *number),
        Status::BadBook { book, kind, at } => return bad_book_line(alloc, *book, *kind, *at),
        Status::BookEpoch { book, have } => return book_epoch_line(alloc, *book, *have),
        Status::BadCert { cert, kind, at } => return bad_cert_line(alloc, *cert, *kind, *at),
    };
    let bytes = Vec::from_slice(alloc, line.as_bytes())?;
    Ok(bytes)
}

// The verbs, and how each is written.
fn usage_line(alloc: Global) -> Result<Vec<u8>, NoMemory>
    ensures { IfOk result (λ line. line.items ≡ line_of Status.Usage) }
{
    let mut line = String::new(alloc);
    push_first_usages(&mut line)?;
    push_next_usages(&mut line)?;
    push_last_usages(&mut line)?;
    Ok(line.into_bytes())
}

#[tactic(auto, unfolding(crate::specs::Status::first_usages))]
fn push_first_usages(line: &mut String) -> Result<(), AllocError>
    ensures { OnOk result (string_bytes line.new ≡ string_bytes line.old ++ first_usages) }
{
    write!(
        line,
        "usage: star_tool {} | {} | {} | {} | {}",
        check::USAGE,
        reveal::USAGE,
        make::USAGE,
        generate::USAGE,
        self_test::USAGE
    )
}

#[tactic(auto, unfolding(crate::specs::Status::next_usages))]
fn push_next_usages(line: &mut String) -> Result<(), AllocError>
    ensures { OnOk result (string_bytes line.new ≡ string_bytes line.old ++ next_usages) }
{
    write!(
        line,
        " | {} | {} | {} | {}",
        expect::USAGE,
        book::USAGE,
        merge::USAGE,
        open_book::USAGE
    )
}

#[tactic(auto, unfolding(crate::specs::Status::last_usages))]
fn push_last_usages(line: &mut String) -> Result<(), AllocError>
    ensures { OnOk result (string_bytes line.new ≡ string_bytes line.old ++ last_usages) }
{
    write!(
        line,
        " | {} | {} | {}\n",
        certify::USAGE,
        audit::USAGE,
        epochs::USAGE
    )
}

fn bad_table_line(alloc: Global, row: u32, column: u32) -> Result<Vec<u8>, NoMemory>
    ensures { IfOk result (λ line. line.items ≡ codes "bad table: row " ++ decimal row ++ codes " column " ++ decimal column ++ codes "\n") }
{
    let mut line = String::new(alloc);
    write!(line, "bad table: row {row} column {column}\n")?;
    Ok(line.into_bytes())
}

fn short_coins_line(alloc: Global, have: u32) -> Result<Vec<u8>, NoMemory>
    ensures { IfOk result (λ line. line.items ≡ codes "short coins: " ++ decimal have ++ codes " bytes\n") }
{
    let mut line = String::new(alloc);
    write!(line, "short coins: {have} bytes\n")?;
    Ok(line.into_bytes())
}

fn bad_cert_line(alloc: Global, cert: u32, kind: CertKind, at: u64) -> Result<Vec<u8>, NoMemory>
    ensures { IfOk result (λ line. line.items ≡ codes "bad cert " ++ decimal cert ++ codes ": " ++ cert_fault_name kind ++ codes " " ++ decimal at ++ codes "\n") }
{
    let mut line = String::new(alloc);
    let name = kind.name();
    write!(line, "bad cert {cert}: {name} {at}\n")?;
    Ok(line.into_bytes())
}

fn bad_vector_line(alloc: Global, number: u8) -> Result<Vec<u8>, NoMemory>
    ensures { IfOk result (λ line. line.items ≡ codes "vector " ++ decimal number ++ codes " differs\n") }
{
    let mut line = String::new(alloc);
    write!(line, "vector {number} differs\n")?;
    Ok(line.into_bytes())
}

fn bad_book_line(alloc: Global, book: u32, kind: BookKind, at: u64) -> Result<Vec<u8>, NoMemory>
    ensures { IfOk result (λ line. line.items ≡ codes "bad book " ++ decimal book ++ codes ": " ++ book_fault_name kind ++ codes " " ++ decimal at ++ codes "\n") }
{
    let mut line = String::new(alloc);
    write!(line, "bad book {book}: {kind} {at}\n")?;
    Ok(line.into_bytes())
}

fn book_epoch_line(alloc: Global, book: u32, have: u32) -> Result<Vec<u8>, NoMemory>
    ensures { IfOk result (λ line. line.items ≡ codes "book " ++ decimal book ++ codes ": epoch " ++ decimal have ++ codes "\n") }
{
    let mut line = String::new(alloc);
    write!(line, "book {book}: epoch {have}\n")?;
    Ok(line.into_bytes())
}
