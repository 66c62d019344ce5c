ghost use Rattle.std.specs.Prelude.{◌≡◌, ◌≢◌, ◌≤◌, ℕ, List, [], None, Some, Ok, IfOk, OnErr, IsErrOf};
ghost use Rattle.star_io.specs.Faults.{Rose};
ghost use Rattle.star_io.specs.Reading.{TakesRecord, state_after};
ghost use Rattle.star_io.specs.Records.{Begins};
ghost use Rattle.star_io.specs.declared.reader.NextError.TheVariants.{Read, NoMemory};
ghost use Rattle.star_io.specs.declared.reader.ReaderState.TheVariants.{Ready};
ghost use Rattle.star_io.specs.declared.record.Record.{Record};

use crate::failed::Failed;
use crate::read_record::read_record;
use crate::record::Record;
use crate::source::Source;
use std::alloc::{AllocError, Global};
use std::marker::Model;
use thiserror::Error;

/// Where a reader stands.
#[derive(Clone, Copy, Debug, PartialEq, Eq)]
pub enum ReaderState {
    /// Another record may follow.
    Ready,
    /// The end of the stream was met.
    Ended,
    /// A read failed or memory ran out, so it isn't known where the next record begins.
    Broken,
}

/// Why there is no answer.
#[derive(Clone, Copy, Debug, PartialEq, Eq, Error)]
pub enum NextError {
    #[error("a read failed")]
    Read,
    #[error("out of memory")]
    NoMemory,
}

impl From<Failed> for NextError {
    ghost from_gives = { λ _ e. e ≡ Read };

    fn from(_: Failed) -> Self {
        NextError::Read
    }
}

impl From<AllocError> for NextError {
    ghost from_gives = { λ _ e. e ≡ NoMemory };

    fn from(_: AllocError) -> Self {
        NextError::NoMemory
    }
}

/// Reads the records of a stream, one after the other.
#[derive(Debug, Drop)]
pub struct RecordReader {
    state: ReaderState,
}

impl Model for RecordReader {
    ghost use Rattle.star_io.specs.declared.reader.ReaderState.{ReaderState};

    ghost Value = { ReaderState };

    ghost view = { λ r. r.state };
}

impl Default for RecordReader {
    ghost is_default = { λ r. r ≡ Ready };

    fn default() -> Self {
        RecordReader::new()
    }
}

impl RecordReader {
    /// A reader at the beginning of a stream.
    pub fn new() -> RecordReader
        ensures { result ≡ ReaderState.Ready }
    {
        RecordReader {
            state: ReaderState::Ready,
        }
    }

    /// Where the reader stands.
    pub fn state(&self) -> ReaderState
        ensures { result ≡ self.now }
    {
        self.state
    }

    /// Takes the next record from the source, or answers `None` at the end.
    ///
    /// A record is taken whole, however the source cuts its bytes, and nothing after it. What is
    /// left of the record where a read fails or memory runs out is not said.
    pub fn next<S: Source>(
        &mut self,
        alloc: Global,
        source: &mut S,
    ) -> Result<Option<Record>, NextError>
        requires { self.old ≢ ReaderState.Broken }

        // Once the end was met, the source is not touched.
        ensures ended { self.old ≡ ReaderState.Ended →
            (result ≡ Ok None) × (self.new ≡ ReaderState.Ended) × (source.new ≡ source.old) }

        // The record is the one that begins what was left, and what follows it is left.
        ensures next { self.old ≡ ReaderState.Ready →
            IfOk result (TakesRecord (S.left source.old) (S.left source.new)) }
        ensures only { (r : Record) (bytes rest : List ℕ) → self.old ≡ ReaderState.Ready →
            S.left source.old ≡ Some bytes → Begins r bytes rest →
            IfOk result (λ found. found ≡ Some r) }
        ensures end { self.old ≡ ReaderState.Ready → S.left source.old ≡ Some [] →
            IfOk result (λ found. found ≡ None) }

        // A record that is cut is the last, and after an error no record is read.
        ensures state { self.old ≡ ReaderState.Ready →
            IfOk result (λ found. self.new ≡ state_after found) }
        ensures broken { OnErr result (self.new ≡ ReaderState.Broken) }

        // A read is said to have failed only where the source counted it.
        ensures read { IsErrOf result NextError.Read →
            Rose (S.faults source.old) (S.faults source.new) }
        ensures later { S.faults source.old ≤ S.faults source.new }
    {
        if self.state == ReaderState::Ended {
            return Ok(None);
        }
        self.state = ReaderState::Broken;
        let found = read_record(alloc, source)?;
        self.state = match &found {
            Some(Record::Whole(_) | Record::TooLong { .. }) => ReaderState::Ready,
            Some(Record::CutLength { .. } | Record::CutRecord { .. }) | None => ReaderState::Ended,
        };
        Ok(found)
    }
}
