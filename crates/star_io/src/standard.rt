// The adapters over std's readers and writers.
ghost use Rattle.std.specs.Prelude.{◌≡◌};
ghost use Rattle.std.specs.Io.{ReadsAtMost};
ghost use Rattle.std.specs.Io.KnownBytes.{ReadConsumes};
ghost use Rattle.star_io.specs.Faults.{CountsFault, HasCause};
ghost use Rattle.star_io.specs.Told.{Tells};

use crate::failed::Failed;
use crate::sink::Sink;
use crate::source::Source;
use std::io::{Read, Write};
use std::marker::Model;

/// A source over a reader, which tells the bytes that the reader tells.
///
/// It counts each `Err` of the reader, an interrupted read too.
#[derive(Drop)]
pub struct StdSource<R: Read> {
    inner: R,
    faults: u64,
}

impl<R: Read> Model for StdSource<R> {
    ghost use Rattle.star_io.specs.StdAdapter.{StdAdapter};

    ghost Value = { StdAdapter };

    ghost view = { λ s. record { tells = R.remaining s.inner; faults = s.faults } };
}

impl<R: Read> StdSource<R> {
    /// A source over this reader, with no fault so far.
    pub fn new(inner: R) -> StdSource<R>
        ensures { result ≡ record { tells = R.remaining inner; faults = 0 } }
    {
        StdSource { inner, faults: 0 }
    }
}

impl<R: Read> Source for StdSource<R> {
    ghost left = { λ s. s.tells };

    ghost faults = { λ s. s.faults };

    fn take(&mut self, into: &mut [u8]) -> Result<usize, Failed>
        ensures bound { ReadsAtMost result into.new }
        ensures bytes { ReadConsumes self.old.tells self.new.tells result into.new }
        ensures cause { HasCause self.old.faults self.new.faults result }
        ensures counts { CountsFault self.old.faults self.new.faults result }
    {
        match self.inner.read(into) {
            Ok(count) => Ok(count),
            Err(_) => {
                self.faults = self.faults.saturating_add(1);
                Err(Failed)
            }
        }
    }
}

/// A sink over a writer, which tells the bytes that the writer tells.
///
/// It counts each `Err` of the writer, an interrupted write too, and each write that takes
/// nothing of a piece.
#[derive(Drop)]
pub struct StdSink<W: Write> {
    inner: W,
    faults: u64,
}

impl<W: Write> Model for StdSink<W> {
    ghost use Rattle.star_io.specs.StdAdapter.{StdAdapter};

    ghost Value = { StdAdapter };

    ghost view = { λ s. record { tells = W.contents s.inner; faults = s.faults } };
}

impl<W: Write> StdSink<W> {
    /// A sink over this writer, with no fault so far.
    pub fn new(inner: W) -> StdSink<W>
        ensures { result ≡ record { tells = W.contents inner; faults = 0 } }
    {
        StdSink { inner, faults: 0 }
    }
}

impl<W: Write> Sink for StdSink<W> {
    ghost told = { λ s. s.tells };

    ghost faults = { λ s. s.faults };

    fn put(&mut self, piece: &[u8]) -> Result<(), Failed>
        ensures bytes { Tells self.old.tells self.new.tells piece.now result }
        ensures cause { HasCause self.old.faults self.new.faults result }
        ensures counts { CountsFault self.old.faults self.new.faults result }
    {
        let result = write_whole(&mut self.inner, piece);
        if result.is_err() {
            self.faults = self.faults.saturating_add(1);
        }
        result
    }
}

// Writes a whole piece, or a front of it and fails.
fn write_whole<W: Write>(writer: &mut W, piece: &[u8]) -> Result<(), Failed>
    ensures { Tells (W.contents writer.old) (W.contents writer.new) piece.now result }
{
    let mut rest = piece;
    while !rest.is_empty() {
        let count = match writer.write(rest) {
            Ok(count) if count > 0 => count,
            _ => return Err(Failed),
        };
        let (_, after) = rest.split_at(count);
        rest = after;
    }
    Ok(())
}
