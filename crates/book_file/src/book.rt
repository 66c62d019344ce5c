// A book, and what it counts.
ghost use Rattle.std.specs.Prelude.{◌≡◌, ◌<◌, ◌≤◌, ◌+◌, [], ◌∷◌, ◌++◌, List, ℕ, true, length, None, Some, OnOk, OnErr, IsTrue, ◌↔◌};
ghost use Rattle.std.specs.List.{slice_get};
ghost use Rattle.std.specs.Option.{option_map};
ghost use Rattle.std.specs.Map.Iter.{ShowsInOrder, deref_pair};
ghost use Rattle.star_io.specs.declared.record.Record.{Record};
ghost use Rattle.book_file.specs.Book.{IsBook, total_of, is_outer_frame};
ghost use Rattle.book_file.specs.Format.{is_above, last_of, with_entry};
ghost use Rattle.book_file.specs.BookOf.{book_of, one_book, sum_of, taken_body};

use crate::counts::{count_more, is_outer_frame};
use crate::frame_bytes::FrameBytes;
use star_io::{MAX_RECORDS, NoMemory, Record, RecordTaker};
use std::alloc::Global;
use std::collections::BTreeMap;
use std::collections::btree_map::Iter;
use std::marker::Model;

/// A partial book: the frames of one epoch and of level 0 in ascending order, each with the number
/// of records that were it, and the number of all other records. At most 131,072 records are
/// counted.
///
/// An ordered map holds the frames, so n records cost n log n, whatever the frames are.
#[derive(Drop)]
pub struct RowBook {
    pub(crate) alloc: Global,
    pub(crate) epoch: u32,
    pub(crate) dropped: u32,
    pub(crate) total: u32,
    pub(crate) entries: BTreeMap<FrameBytes, u32>,
}

impl Model for RowBook {
    ghost use Rattle.book_file.specs.Book.{Book, IsBookOf};

    ghost Value = { Book };

    ghost view = { λ b. record {
      epoch = b.epoch;
      dropped = b.dropped;
      entries = b.entries.entries;
    } };

    ghost invariant = { λ b. IsBookOf b.epoch b.dropped b.total b.entries.entries };
}

impl RowBook {
    /// The book of no record. It takes no memory.
    pub fn empty(alloc: Global, epoch: u32) -> RowBook
        ensures { result ≡ record { epoch = epoch; dropped = 0; entries = [] } }
    {
        RowBook {
            alloc,
            epoch,
            dropped: 0,
            total: 0,
            entries: BTreeMap::new(alloc),
        }
    }

    /// The epoch of its frames.
    pub fn epoch(&self) -> u32
        ensures { result ≡ self.now.epoch }
    {
        self.epoch
    }

    /// How many records were no frame of the epoch and of level 0.
    pub fn dropped(&self) -> u32
        ensures { result ≡ self.now.dropped }
    {
        self.dropped
    }

    /// How many records it counts.
    pub fn total(&self) -> u32
        ensures { result ≡ total_of self.now }
    {
        self.total
    }

    /// Makes known what holds of every book. It does nothing.
    pub fn know(&self)
        ensures { IsBook self.now }
    {
        let _ = &self.entries;
    }

    /// The number of entries.
    pub fn len(&self) -> usize
        ensures { result ≡ length self.now.entries }
    {
        self.entries.len()
    }

    /// Whether there is no entry.
    pub fn is_empty(&self) -> bool
        ensures { IsTrue result ↔ (self.now.entries ≡ []) }
    {
        self.entries.is_empty()
    }

    /// The frame of entry i. It goes through the entries before; `iter` goes through all of them.
    pub fn frame(&self, i: usize) -> &[u8]
        requires { i < length self.now.entries }
        ensures { option_map (λ entry. entry.0) (slice_get self.now.entries i) ≡ Some result.now }
    {
        let (frame, _) = self.entries.iter().nth(i).unwrap();
        frame.as_slice()
    }

    /// How many records were the frame of entry i. It goes through the entries before.
    pub fn count(&self, i: usize) -> u32
        requires { i < length self.now.entries }
        ensures { option_map (λ entry. entry.1) (slice_get self.now.entries i) ≡ Some result }
    {
        let (_, count) = self.entries.iter().nth(i).unwrap();
        *count
    }

    /// The entries in ascending order: each frame, and how many records were it.
    pub fn iter(&self) -> Iter<'_, FrameBytes, u32>
        ensures rest { result ≡ self.now.entries }
        ensures runs { ShowsInOrder (deref_pair {K = List ℕ} {X = ℕ}) }
    {
        self.entries.iter()
    }

    /// A book of dropped records alone. It takes no memory.
    pub(crate) fn of_dropped(alloc: Global, epoch: u32, dropped: u32) -> RowBook
        requires { dropped ≤ MAX_RECORDS }
        ensures { result ≡ record { epoch = epoch; dropped = dropped; entries = [] } }
    {
        RowBook {
            alloc,
            epoch,
            dropped,
            total: dropped,
            entries: BTreeMap::new(alloc),
        }
    }

    /// Whether the frame is above that of the last entry, if there is one.
    pub(crate) fn is_above(&self, frame: &FrameBytes) -> bool
        ensures { result ≡ is_above (last_of self.now.entries) frame.now }
    {
        match self.entries.last_key_value() {
            Some((last, _)) => last < frame,
            None => true,
        }
    }

    /// Puts an entry last. After `NoMemory` the book is as before, and the frame is dropped.
    pub(crate) fn push(&mut self, frame: FrameBytes, count: u32) -> Result<(), NoMemory>
        requires frame { is_outer_frame self.old.epoch frame ≡ true }
        requires above { is_above (last_of self.old.entries) frame ≡ true }
        requires some { 1 ≤ count }
        requires few { total_of self.old + count ≤ MAX_RECORDS }
        ensures pushed { OnOk result (self.new ≡ with_entry self.old frame count) }
        ensures kept { OnErr result (self.new ≡ self.old) }
    {
        self.entries.insert(frame, count)?;
        self.total += count;
        Ok(())
    }

    /// Counts one more record. After `NoMemory` the book is as before.
    pub fn add(&mut self, item: &Record) -> Result<(), NoMemory>
        requires { total_of self.old < MAX_RECORDS }

        // It becomes the sum with the book of that record, and so the book of all records that were
        // added.
        ensures added { OnOk result (self.new
            ≡ sum_of self.old (book_of self.old.epoch (item.now ∷ []))) }
        ensures more { (records : List Record) → self.old ≡ book_of self.old.epoch records →
            OnOk result (self.new ≡ book_of self.old.epoch (records ++ item.now ∷ [])) }
        ensures total { OnOk result (total_of self.new ≡ total_of self.old + 1) }
        ensures kept { OnErr result (self.new ≡ self.old) }
    {
        match outer_frame(item, self.epoch) {
            Some(frame) => self.count_frame(frame),
            None => {
                self.drop_record();
                Ok(())
            }
        }
    }

    // Counts a record of this frame.
    fn count_frame(&mut self, frame: &[u8]) -> Result<(), NoMemory>
        requires few { total_of self.old < MAX_RECORDS }
        requires good { is_outer_frame self.old.epoch frame.now ≡ true }
        ensures added { OnOk result (self.new
            ≡ sum_of self.old (one_book self.old.epoch (Some frame.now))) }
        ensures total { OnOk result (total_of self.new ≡ total_of self.old + 1) }
        ensures kept { OnErr result (self.new ≡ self.old) }
    {
        count_more(self.alloc, &mut self.entries, frame, 1)?;
        self.total += 1;
        Ok(())
    }

    // Counts a record of no such frame.
    fn drop_record(&mut self)
        requires { total_of self.old < MAX_RECORDS }
        ensures added { self.new ≡ sum_of self.old (one_book self.old.epoch None) }
        ensures total { total_of self.new ≡ total_of self.old + 1 }
    {
        self.dropped += 1;
        self.total += 1;
    }
}

impl RecordTaker for RowBook {
    ghost use Rattle.std.specs.Prelude.{◌≡◌};
    ghost use Rattle.star_io.specs.declared.record.TheConstants.{MAX_RECORDS};
    ghost use Rattle.book_file.specs.Book.{total_of};
    ghost use Rattle.book_file.specs.BookOf.{book_of};

    ghost most = { MAX_RECORDS };

    ghost taken = { λ b. total_of b };

    ghost stands = { λ b epoch records. b ≡ book_of epoch records };

    fn take_next(&mut self, item: Record) -> Result<(), NoMemory> {
        self.add(&item)
    }
}

// The bytes of the record, where they are a good frame of the epoch and of level 0.
fn outer_frame(item: &Record, epoch: u32) -> Option<&[u8]>
    ensures { option_map (λ frame. frame.now) result ≡ taken_body epoch item.now }
{
    match item {
        Record::Whole(body) if is_outer_frame(body.as_slice(), epoch) => Some(body.as_slice()),
        _ => None,
    }
}
