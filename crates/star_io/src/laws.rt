//! Laws of records: a list of bytes is the spelling of one list of records, whoever reads it.
//!
//! Each function does nothing, and its clause is the law. The proofs are those of
//! `proofs/RecordLaws.antt`, `proofs/RecordListLaws.antt` and `proofs/FrontLaws.antt`, which other
//! proofs can cite.
ghost use Rattle.std.specs.Prelude.{◌≡◌, ◌↔◌, ℕ, ◌<◌, ◌≤◌, List, [], ◌∷◌, ◌++◌, length, drop};
ghost use Rattle.star_io.specs.Bytes.{AreBytes};
ghost use Rattle.star_io.specs.Fronts.{ended_within, spelled, cut_record};
ghost use Rattle.star_io.specs.RecordLists.{stream_records, rest_after, stream_of, whole, AreShort, HasMoreThan};
ghost use Rattle.star_io.specs.Records.{AreRecords, BeginAll, Begins, HasOneList};
ghost use Rattle.star_io.specs.declared.record.Record.{Record};
ghost use Rattle.star_io.specs.declared.record.TheConstants.{MAX_RECORD_BYTES, MAX_RECORDS};

/// Each list of bytes is the spelling of one list of records, and of no other.
pub fn one_list()
    ensures { (bytes : List ℕ) → AreBytes bytes → HasOneList bytes }
{}

/// The first record of a list of bytes is determined, and so is what follows it.
pub fn one_first()
    ensures { (first other : Record) (bytes rest left : List ℕ) →
        Begins first bytes rest → Begins other bytes left → (first ≡ other) × (rest ≡ left) }
{}

/// A record takes at least one byte.
pub fn shorter()
    ensures { (first : Record) (bytes rest : List ℕ) →
        Begins first bytes rest → length rest < length bytes }
{}

/// Where all of the bytes are records, no byte follows as many of them or more.
pub fn none_follow()
    ensures { (records front : List Record) (bytes rest : List ℕ) →
        AreRecords records bytes → BeginAll front bytes rest → length records ≤ length front →
        rest ≡ [] }
{}

/// A record that follows others is the last of them.
pub fn begin_more()
    ensures { (front : List Record) (next : Record) (bytes middle rest : List ℕ) →
        BeginAll front bytes middle → Begins next middle rest →
        BeginAll (front ++ next ∷ []) bytes rest }
{}

/// The function gives the one list of records of which the bytes are the spelling.
#[tactic(auto, using(crate::proofs::RecordListLaws::only_records, crate::proofs::RecordListLaws::are_stream_records))]
pub fn records_by_function()
    ensures { (bytes : List ℕ) (records : List Record) → AreBytes bytes →
        AreRecords records bytes ↔ (records ≡ stream_records bytes) }
{}

/// What follows the first records is what the function gives.
#[tactic(auto, using(crate::proofs::RecordListLaws::rest_is))]
pub fn rest_by_function()
    ensures { (records : List Record) (bytes rest : List ℕ) →
        BeginAll records bytes rest → rest_after (length records) bytes ≡ rest }
{}

/// Bytes have more records than a number, or more bytes behind as many, exactly where something
/// follows as many first records.
#[tactic(auto, using(crate::proofs::RecordListLaws::more_follows, crate::proofs::RecordListLaws::follows_more))]
pub fn more_by_function()
    ensures { (n : ℕ) (bytes : List ℕ) → AreBytes bytes →
        HasMoreThan n bytes ↔ (0 < length (rest_after n bytes)) }
{}

/// The records of the front of a stream are those of the whole whose spellings end within it, and
/// one cut record follows exactly where these don't make up all of the front.
pub fn records_of_front()
    ensures { (front more : List ℕ) → AreBytes (front ++ more) →
        let kept = ended_within (length front) (stream_records (front ++ more)) in
        stream_records front ≡ kept ++ cut_record (drop (spelled kept) front) }
{}

/// Whole records are spelled by their stream, and by nothing else.
#[tactic(auto, using(crate::proofs::RecordListLaws::only_stream, crate::proofs::RecordListLaws::are_stream))]
pub fn one_stream()
    ensures { (bodies : List (List ℕ)) (bytes : List ℕ) → AreShort bodies →
        AreRecords (whole bodies) bytes ↔ (bytes ≡ stream_of bodies) }
{}

/// The limits in plain numbers.
pub fn limits()
    ensures record_bytes { MAX_RECORD_BYTES ≡ 8192 }
    ensures records { MAX_RECORDS ≡ 131072 }
{}
