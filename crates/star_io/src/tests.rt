ghost use Rattle.std.specs.Prelude.{◌<◌};

use crate::{
    Bytes, FailAt, Failed, InputError, MemorySink, MemorySource, NextError, NoMemory, ReaderState,
    Record, RecordReader, Sink, Source, StdSink, StdSource, read_bytes, read_records,
};
use std::alloc::Global;
use std::io;
use std::io::{Read, Write};
use std::test::Fail;

// The records of a stream that has at most nine of them.
fn records_of<S: Source>(alloc: Global, source: &mut S) -> Result<Vec<Record>, Fail> {
    let mut reader = RecordReader::new();
    let mut records = Vec::new(alloc);
    for _ in 0..10 {
        if reader.state() == ReaderState::Ready
            && let Some(record) = reader.next(alloc, source)?
        {
            records.push(record)?;
        }
    }
    Ok(records)
}

#[test]
fn a_stream_gives_its_records_however_it_is_cut(rt: HostRuntime) -> Result<(), Fail> {
    let alloc = rt.alloc();
    // The front of a stream, how many zeros follow it, what stands after them, and its records.
    let table: [(&[u8], usize, &[u8], &str); 8] = [
        (b"", 0, b"", "[]"),
        (
            b"\0\0\0\x03abc",
            0,
            b"",
            "[Whole(Bytes { items: [97, 98, 99] })]",
        ),
        (b"\0\0\0\0", 0, b"", "[Whole(Bytes { items: [] })]"),
        (
            b"\0\0\0\x01a\0\0\x23\x28",
            9000,
            b"\0\0\0\x01b",
            "[Whole(Bytes { items: [97] }), TooLong { said: 9000 }, Whole(Bytes { items: [98] })]",
        ),
        (b"\0\0\x20\x01", 8193, b"", "[TooLong { said: 8193 }]"),
        (
            b"\xff\xff\xff\xff",
            5,
            b"",
            "[CutRecord { said: 4294967295, have: 5 }]",
        ),
        (b"abc", 0, b"", "[CutLength { have: 3 }]"),
        (
            b"\0\0\0\x8b",
            10,
            b"",
            "[CutRecord { said: 139, have: 10 }]",
        ),
    ];
    for (front, zeros, back, want) in table {
        for cuts in [0, 10_000] {
            let mut stream = Vec::from_slice(alloc, front)?;
            stream.extend_from_slice(vec![in alloc; 0u8; zeros]?.as_slice())?;
            stream.extend_from_slice(back)?;
            let mut source = MemorySource::new(stream, vec![in alloc; 1; cuts]?, Vec::new(alloc));
            let records = records_of(alloc, &mut source)?;
            let text = format!(in alloc; "{records:?}")?;
            assert_eq!(rt; text.as_str(), want, "with {cuts} cuts");
            assert!(rt; source.left().is_empty());
        }
    }
    Ok(())
}

#[test]
fn the_longest_record_is_whole(rt: HostRuntime) -> Result<(), Fail> {
    let alloc = rt.alloc();
    let body = vec![in alloc; 7u8; 8192]?;
    let mut stream = Vec::from_slice(alloc, b"\0\0\x20\0")?;
    stream.extend_from_slice(body.as_slice())?;
    let mut source = MemorySource::new(stream, Vec::new(alloc), Vec::new(alloc));
    let found = RecordReader::default().next(alloc, &mut source)?;
    assert!(rt; found == Some(Record::Whole(Bytes::of(alloc, body.as_slice())?)));
    Ok(())
}

// A record of three bytes, and one that is too long.
#[test]
fn a_read_that_fails_in_a_record_breaks_the_reader(rt: HostRuntime) -> Result<(), Fail> {
    let alloc = rt.alloc();
    for (stream, left) in [(b"\0\0\0\x03abc", b"abc"), (b"\0\0\x23\x28abc", b"abc")] {
        let cuts = vec![in alloc; 4]?;
        let fails = vec![in alloc; 1]?;
        let mut source = MemorySource::new(Vec::from_slice(alloc, stream)?, cuts, fails);
        let mut reader = RecordReader::new();
        assert!(rt; reader.next(alloc, &mut source) == Err(NextError::Read));
        assert_eq!(rt; reader.state(), ReaderState::Broken);
        assert_eq!(rt; source.left(), left.as_slice());
        assert_eq!(rt; source.calls(), 2);
    }
    Ok(())
}

// What comes of reading 100,000 bytes with this limit, and how many bytes are left then.
fn read_with_limit(
    alloc: Global,
    limit: usize,
    cuts: usize,
) -> Result<(Result<usize, InputError>, usize), Fail>
    requires { limit < usize.MAX }
{
    let bytes = vec![in alloc; 7u8; 100_000]?;
    let mut source = MemorySource::new(bytes, vec![in alloc; 1; cuts]?, Vec::new(alloc));
    let found = read_bytes(alloc, &mut source, limit);
    Ok((found.map(|bytes| bytes.len()), source.left().len()))
}

#[test]
fn an_input_is_read_whole_up_to_its_limit(rt: HostRuntime) -> Result<(), Fail> {
    let alloc = rt.alloc();
    let whole = (Ok(100_000), 0);
    assert_eq!(rt; read_with_limit(alloc, 100_000, 0)?, whole);
    assert_eq!(rt;
        read_with_limit(alloc, 100_000, 200_000)?,
        whole,
        "one byte at a time"
    );
    let too_many = Err(InputError::TooMany);
    assert_eq!(rt; read_with_limit(alloc, 99_999, 0)?, (too_many, 0));
    assert_eq!(rt;
        read_with_limit(alloc, 70_000, 200_000)?,
        (too_many, 29_999)
    );
    assert_eq!(rt; read_with_limit(alloc, 0, 0)?, (too_many, 99_999));
    Ok(())
}

#[test]
fn a_stream_is_read_whole(rt: HostRuntime) -> Result<(), Fail> {
    let alloc = rt.alloc();
    let stream = b"\0\0\0\x01a\0\0\0\0\0";
    let mut source = StdSource::new(stream.as_slice());
    let records = read_records(alloc, &mut source, 131_072)?;
    let text = format!(in alloc; "{records:?}")?;
    assert_eq!(rt;
        text.as_str(),
        "[Whole(Bytes { items: [97] }), Whole(Bytes { items: [] }), CutLength { have: 1 }]"
    );
    Ok(())
}

// The reads before a failed one are no end of the input.
#[test]
fn a_failed_read_ends_no_input(rt: HostRuntime) -> Result<(), Fail> {
    let alloc = rt.alloc();
    for call in 0..3 {
        let stream = Vec::from_slice(alloc, b"\0\0\0\x01a\0\0\0\0")?;
        let mut source = MemorySource::new(stream, vec![in alloc; 5]?, vec![in alloc; call]?);
        assert!(rt; read_records(alloc, &mut source, 131_072) == Err(InputError::Read));

        let bytes = Vec::from_slice(alloc, b"abcdefg")?;
        let mut source = MemorySource::new(bytes, vec![in alloc; 5]?, vec![in alloc; call]?);
        assert!(rt; read_bytes(alloc, &mut source, 7) == Err(InputError::Read));
    }
    Ok(())
}

#[test]
fn a_take_that_is_named_fails_and_takes_nothing(rt: HostRuntime) -> Result<(), Fail> {
    let alloc = rt.alloc();
    let bytes = Vec::from_slice(alloc, b"abcdef")?;
    let mut source = MemorySource::new(bytes, vec![in alloc; 0, 2]?, vec![in alloc; 1]?);
    let mut into = [0u8; 4];
    assert_eq!(rt; source.take(&mut into), Ok(1), "a cut of 0 counts as 1");
    assert_eq!(rt; source.take(&mut into), Err(Failed));
    assert_eq!(rt; source.left(), b"bcdef".as_slice());
    assert_eq!(rt; source.take(&mut into), Ok(4));
    assert_eq!(rt; into, *b"bcde");
    assert_eq!(rt; source.take(&mut into), Ok(1));
    assert_eq!(rt; source.take(&mut into), Ok(0));
    Ok(())
}

#[test]
fn a_put_that_fails_takes_as_much_as_fits(rt: HostRuntime) -> Result<(), Fail> {
    let alloc = rt.alloc();
    let fails = vec![in alloc; FailAt { call: 0, after: 4 }, FailAt { call: 0, after: 2 }]?;
    let mut sink = MemorySink::new(alloc, 10, fails)?;
    assert_eq!(rt; sink.put(b"records"), Err(Failed));
    assert_eq!(rt; sink.told(), b"reco".as_slice());
    assert_eq!(rt; sink.put(b"rds"), Ok(()));
    assert_eq!(rt; sink.put(b"lost"), Err(Failed), "three places are left");
    assert_eq!(rt; sink.told(), b"recordslos".as_slice());
    Ok(())
}

// A reader of which each read fails.
#[derive(Drop)]
struct BrokenReader;

impl Read for BrokenReader {
    fn read(&mut self, _: &mut [u8]) -> io::Result<usize> {
        Err(io::ErrorKind::Other.into())
    }
}

// A writer that takes `most` bytes at a time, and may fail at its second write.
#[derive(Drop)]
struct SlowWriter {
    told: Vec<u8>,
    most: usize,
    fails: bool,
}

impl Write for SlowWriter {
    fn write(&mut self, buf: &[u8]) -> io::Result<usize> {
        if self.fails && !self.told.is_empty() {
            return Err(io::ErrorKind::Other.into());
        }
        let count = buf.len().min(self.most);
        self.told.extend_from_slice(&buf[..count])?;
        Ok(count)
    }

    fn flush(&mut self) -> io::Result<()> {
        Ok(())
    }
}

#[test]
fn a_reader_and_a_writer_of_std_are_a_source_and_a_sink(rt: HostRuntime) -> Result<(), Fail> {
    let alloc = rt.alloc();
    let mut source = StdSource::new(b"\0\0\0\x03abc".as_slice());
    let records = records_of(alloc, &mut source)?;
    let text = format!(in alloc; "{records:?}")?;
    assert_eq!(rt; text.as_str(), "[Whole(Bytes { items: [97, 98, 99] })]");

    let mut told = Vec::new(alloc);
    assert_eq!(rt; StdSink::new(&mut told).put(b"records"), Ok(()));
    assert_eq!(rt; told.as_slice(), b"records".as_slice());
    Ok(())
}

#[test]
fn faults_of_std_are_passed_on(rt: HostRuntime) -> Result<(), Fail> {
    let alloc = rt.alloc();
    let reader = b"\0\0\0\x09".as_slice().chain(BrokenReader);
    let next = RecordReader::new().next(alloc, &mut StdSource::new(reader));
    assert!(rt; next == Err(NextError::Read));

    // How many bytes a write takes, whether the second one fails, and what comes of a put.
    let table: [(usize, bool, Result<(), Failed>, &[u8]); 3] = [
        (3, false, Ok(()), b"records"),
        (3, true, Err(Failed), b"rec"),
        (0, false, Err(Failed), b""),
    ];
    for (most, fails, want, told) in table {
        let mut writer = SlowWriter {
            told: Vec::new(alloc),
            most,
            fails,
        };
        assert_eq!(rt;
            StdSink::new(&mut writer).put(b"records"),
            want,
            "{most} at a time"
        );
        assert_eq!(rt; writer.told.as_slice(), told);
    }
    Ok(())
}

#[test]
fn errors_have_texts(rt: HostRuntime) -> Result<(), Fail> {
    let alloc = rt.alloc();
    let text = format!(in alloc;
        "{NoMemory}, {Failed}, {}, {}, {}, {}, {}",
        NextError::Read,
        NextError::NoMemory,
        InputError::Read,
        InputError::TooMany,
        InputError::NoMemory
    )?;
    assert_eq!(rt;
        text.as_str(),
        "out of memory, a read or a write failed, a read failed, out of memory, \
         a read failed, the input is too long, out of memory"
    );
    Ok(())
}
