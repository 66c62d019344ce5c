//! Laws of frames. Each function does nothing: its clause is a fact about the definitions that the
//! other contracts cite.
ghost use Rattle.std.specs.Prelude.{◌≡◌, ◌⊎◌, ◌↔◌, ◌+◌, ◌++◌, ◌≤◌, [], length, List, ℕ, Ok, Err};
ghost use Rattle.star_io.specs.Bytes.{AreBytes};
ghost use Rattle.report_frame.specs.declared.fault.Fault.{Fault};
ghost use Rattle.report_frame.specs.declared.limits.TheConstants.{MAGIC, MAX_LAYERS, MIN_THRESHOLD, TAG_BYTES, CHECK_BYTES, MAX_VALUE, NONCE_BYTES, SEAL_BYTES, FRONT_BYTES, FIXED_BYTES, MAX_EXTRA};
ghost use Rattle.report_frame.specs.declared.version.Version.TheVariants.{One, Two};
ghost use Rattle.byte_format.specs.Format.{spelling};
ghost use Rattle.report_frame.specs.Frame.{Fields, IsFrame, FaultAt, entries, frame, sealed_part};
ghost use Rattle.report_frame.specs.Laws.{InRange, IsOneFrame, HasOneFault};
ghost use Rattle.report_frame.specs.Reading.{decoded};
ghost use Rattle.report_frame.specs.Versions.{version_number, version_of, max_level, max_layers, max_threshold, max_frame};

/// The limits of both versions, and the sizes of the fields, in plain numbers.
pub fn limits()
    ensures magic { MAGIC ≡ 21332 }
    ensures numbers { (version_number One ≡ 1) × (version_number Two ≡ 2) }
    ensures versions { (version_of 1 ≡ One) × (version_of 2 ≡ Two) }
    ensures levels { (max_level One ≡ 7) × (max_level Two ≡ 15) }
    ensures layers { (max_layers One ≡ 8) × (max_layers Two ≡ 16) × (MAX_LAYERS ≡ 16) }
    ensures thresholds { (MIN_THRESHOLD ≡ 2) × (max_threshold One ≡ 512)
        × (max_threshold Two ≡ 4096) }
    ensures frames { (max_frame One ≡ 4096) × (max_frame Two ≡ 8192) }
    ensures bytes { (MAX_VALUE ≡ 64) × (MAX_EXTRA ≡ 255) }
    ensures sizes { (TAG_BYTES ≡ 16) × (CHECK_BYTES ≡ 32) × (NONCE_BYTES ≡ 12) × (SEAL_BYTES ≡ 32) }
    ensures fixed { (FRONT_BYTES ≡ 90) × (FIXED_BYTES ≡ 137) }
{}

/// A report has one spelling.
#[tactic(auto, using(crate::proofs::FrameLaws::one_spelling))]
pub fn one_spelling()
    ensures { (r : Fields) (a b : List ℕ) → IsFrame r a → IsFrame r b → a ≡ b }
{}

/// Two reports never share a spelling.
#[tactic(auto, using(crate::proofs::FrameLaws::one_report))]
pub fn one_report()
    ensures { (r q : Fields) (bytes : List ℕ) → IsFrame r bytes → IsFrame q bytes → r ≡ q }
{}

/// No frame begins with another one.
pub fn no_prefix()
    ensures { (r q : Fields) (bytes more : List ℕ) → IsFrame r bytes → IsFrame q (bytes ++ more) →
        more ≡ [] }
{}

/// Bytes are the frame of one report, or they have one fault, and never both.
#[tactic(auto, using(crate::proofs::FrameLaws::frame_or_fault))]
pub fn frame_or_fault()
    ensures { (bytes : List ℕ) → AreBytes bytes → IsOneFrame bytes ⊎ HasOneFault bytes }
{}

/// Reading the fields in turn gives a report exactly where the bytes are its frame.
pub fn decoded_frame()
    ensures { (bytes : List ℕ) (r : Fields) → AreBytes bytes → (decoded bytes ≡ Ok r)
        ↔ IsFrame r bytes }
{}

/// Reading the fields in turn gives a fault exactly where it is the fault of the bytes.
pub fn decoded_fault()
    ensures { (bytes : List ℕ) (fault : Fault) → AreBytes bytes → (decoded bytes ≡ Err fault)
        ↔ FaultAt bytes fault.kind fault.at }
{}

/// Each field of a frame is in its range.
#[tactic(auto, using(crate::proofs::FrameLaws::in_range))]
pub fn in_range()
    ensures { (r : Fields) (bytes : List ℕ) → IsFrame r bytes → InRange r }
{}

/// Each report with fields in range has a frame, unless box and body are too long for one.
#[tactic(auto, using(crate::proofs::FrameLaws::has_frame))]
pub fn has_frame()
    ensures { (r : Fields) → InRange r →
        FIXED_BYTES + length r.boxed + length r.body ≤ max_frame r.version →
        IsFrame r (spelling frame (entries r)) }
{}

/// The length of a frame.
#[tactic(auto, using(crate::proofs::FrameLaws::frame_length))]
pub fn frame_length()
    ensures { (r : Fields) (bytes : List ℕ) → IsFrame r bytes →
        length bytes ≡ FIXED_BYTES + length r.boxed + length r.body }
{}

/// The seal stands behind the sealed part.
#[tactic(auto, using(crate::proofs::FrameLaws::sealed_then_seal))]
pub fn sealed_then_seal()
    ensures { (r : Fields) (bytes : List ℕ) → IsFrame r bytes → bytes ≡ sealed_part r ++ r.seal }
{}

/// What stands before the seal and any seal are together the frame of the report with that seal.
#[tactic(auto, using(crate::proofs::FrameLaws::has_sealed_frame))]
pub fn has_sealed_frame()
    ensures { (r : Fields) → InRange r →
        FIXED_BYTES + length r.boxed + length r.body ≤ max_frame r.version →
        IsFrame r (sealed_part r ++ r.seal) }
{}
