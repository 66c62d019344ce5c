// What isn't read further, and why.
use report_frame::FaultKind;
use tag_groups::Listed;

/// Where a report was refused: as a record, or as what a member of an opened group holds.
#[derive(Clone, Copy, Debug, PartialEq, Eq)]
pub enum Stage {
    Outer,
    /// The level of the group.
    Layer(u8),
}

/// Why a report is refused.
#[derive(Clone, Copy, Debug, PartialEq, Eq)]
pub enum Why {
    /// The stream ends inside the length of the record.
    CutLength,
    /// The stream ends inside the record.
    CutRecord,
    /// The bytes are no frame.
    Frame(FaultKind),
    /// The frame is of another epoch.
    WrongEpoch,
    /// The frame is of another level than the one that is due.
    WrongLevel,
    /// The frame is of another version than the group whose member holds it.
    WrongVersion,
    /// The seal isn't that of the frame under the group's key.
    Seal,
    /// The plain body begins with a byte that is neither 0 nor 1.
    BodyKind,
    /// More bytes stand behind the 0 of a last layer than the version allows.
    BodyTail,
}

/// A report that is refused.
#[derive(Clone, Copy, Debug, PartialEq, Eq)]
pub struct Refusal {
    /// The number of its record.
    pub index: u32,
    pub stage: Stage,
    pub why: Why,
}

/// A list of refusals.
pub type Refusals = Listed<Refusal>;
