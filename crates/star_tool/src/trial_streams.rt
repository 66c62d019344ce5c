// Streams of reports for tests, and what the program tells of them.
ghost use Rattle.std.specs.Prelude.{◌≤◌, length, IfOk};
ghost use Rattle.star_io.specs.declared.record.TheConstants.{MAX_RECORDS};

use crate::run;
use command_words::Words;
use recovery_pool::{Gate, NoGate};
use star_io::{MAX_RECORDS, MemorySink, MemorySource, NoMemory, Record, read_records};
use std::alloc::{AllocError, Global};
use std::test::Fail;
use std::thread::Threads;

// The most bytes that a test tells.
const ROOM: usize = 65_536;

const ZEROS: &str = "0000000000000000000000000000000000000000000000000000000000000000";

/// The record of the report of `red` under threshold 2, in epoch 1, from client 0 with a seed of
/// zeros, as an implementation in Python with hashlib and the package cryptography makes it.
pub(crate) const RED: &[u8] =
    b"\x00\x00\x00\x8d\x53\x54\x01\x00\x00\x00\x00\x01\x00\x02\x06\xb8\xe0\xad\xa0\xf1\x3d\x91\x0b\x79\xc5\x9d\x12\x73\x28\x79\x08\x81\xd8\xd7\xcf\x3f\xcb\x23\x03\x56\xf5\xca\xe5\xcc\xc5\x8f\xf6\x7d\x67\x87\x17\xbd\xf3\xb1\xda\x3e\x31\x81\x1c\xf2\xae\x3b\x44\x81\x6b\xc0\x21\x97\x30\x80\x80\x58\x60\xf2\xca\x6d\x34\x5b\xa6\xb0\x48\x39\xdd\xa5\x68\x52\xe7\x95\x5c\x27\xb0\x84\x70\x4b\x03\xf8\xd0\x5b\x40\x5d\x6a\xe5\x53\x86\xbd\x28\xbd\xd2\x19\xb8\x00\x01\x0d\x30\x52\x52\x36\x5b\x25\xa5\x7e\xdd\xc6\x95\xd8\x91\x1b\x06\xed\x8d\x86\x70\xd5\x55\x34\x75\xfe\x2e\x73\xcb\x25\x78\xd6\x40\xc0";

/// A source of these bytes that never fails.
pub(crate) fn source(alloc: Global, bytes: &[u8]) -> Result<MemorySource, Fail> {
    let bytes = Vec::from_slice(alloc, bytes)?;
    Ok(MemorySource::new(bytes, Vec::new(alloc), Vec::new(alloc)))
}

/// The words of a line, which are parted by spaces.
pub(crate) fn words_in(alloc: Global, line: &str) -> Result<Words, NoMemory> {
    let mut words = Words::new(alloc);
    for word in line.split_whitespace() {
        words.push(word)?;
    }
    Ok(words)
}

/// Puts so many lines of a row last.
pub(crate) fn push_rows(table: &mut String, row: &str, count: usize) -> Result<(), AllocError> {
    for _ in 0..count {
        table.push_str(row)?;
        table.push_str("\n")?;
    }
    Ok(())
}

/// A country and a city of 60 clients.
pub(crate) fn cities(alloc: Global) -> Result<String, AllocError> {
    let mut table = String::new(alloc);
    push_rows(&mut table, "DE,Berlin", 22)?;
    push_rows(&mut table, "DE,Bad Homburg", 8)?;
    push_rows(&mut table, "FR,Paris", 12)?;
    push_rows(&mut table, "FR,Aix en Provence", 12)?;
    push_rows(&mut table, "LU,Esch", 6)?;
    Ok(table)
}

/// What the program tells on the words of a line and an input: nothing, where it isn't done.
pub(crate) fn told_by<R: Threads + Sync, G: Gate>(
    rt: &R,
    alloc: Global,
    line: &str,
    input: &[u8],
    gate: &G,
) -> Result<Vec<u8>, Fail> {
    let words = words_in(alloc, line)?;
    let mut input = source(alloc, input)?;
    let mut coins = source(alloc, &[])?;
    let mut out = MemorySink::new(alloc, ROOM, Vec::new(alloc))?;
    run(rt, alloc, &words, &mut input, &mut coins, gate, &mut out);
    Ok(Vec::from_slice(alloc, out.told())?)
}

/// The stream of the reports that `make` with these options and a seed of zeros makes of a table.
pub(crate) fn made_stream<R: Threads + Sync>(
    rt: &R,
    alloc: Global,
    options: &str,
    table: &str,
) -> Result<Vec<u8>, Fail> {
    let line = format!(in alloc; "make --seed {ZEROS} {options}")?;
    told_by(rt, alloc, &line, table.as_bytes(), &NoGate)
}

/// The records of that stream.
pub(crate) fn made<R: Threads + Sync>(
    rt: &R,
    alloc: Global,
    options: &str,
    table: &str,
) -> Result<Vec<Record>, Fail>
    ensures { IfOk result (λ records. length records.items ≤ MAX_RECORDS) }
{
    let stream = made_stream(rt, alloc, options, table)?;
    match read_records(alloc, &mut source(alloc, &stream)?, MAX_RECORDS) {
        Ok(records) => Ok(records),
        Err(_) => Err(Fail::from(NoMemory)),
    }
}
