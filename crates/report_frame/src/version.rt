ghost use Rattle.std.specs.Prelude.{◌≡◌, ◌↔◌, ◌⊎◌, IsSome, IfSome};
ghost use Rattle.report_frame.specs.Versions.{version_number, version_of, max_level, max_threshold, max_frame};

use crate::limits::{
    MAX_FRAME_ONE, MAX_FRAME_TWO, MAX_LEVEL_ONE, MAX_LEVEL_TWO, MAX_THRESHOLD_ONE,
    MAX_THRESHOLD_TWO,
};

/// The version of a report: it decides how deep layers may lie, how high thresholds may be and how
/// long a frame may be.
#[derive(Clone, Copy, Debug, PartialEq, Eq, PartialOrd, Ord)]
pub enum Version {
    One,
    Two,
}

impl Version {
    /// The version of this number, which is 1 or 2.
    pub fn of(number: u8) -> Option<Version>
        ensures found { IsSome result ↔ ((number ≡ 1) ⊎ (number ≡ 2)) }
        ensures version { IfSome result (λ v. number ≡ version_number v) }
    {
        match number {
            1 => Some(Version::One),
            2 => Some(Version::Two),
            _ => None,
        }
    }

    /// The number that stands in a frame.
    pub fn number(self) -> u8
        ensures { result ≡ version_number self }
    {
        match self {
            Version::One => 1,
            Version::Two => 2,
        }
    }

    /// The deepest level of a report. Levels count from 0.
    pub fn max_level(self) -> u8
        ensures { result ≡ max_level self }
    {
        match self {
            Version::One => MAX_LEVEL_ONE,
            Version::Two => MAX_LEVEL_TWO,
        }
    }

    /// The greatest threshold.
    pub fn max_threshold(self) -> u16
        ensures { result ≡ max_threshold self }
    {
        match self {
            Version::One => MAX_THRESHOLD_ONE,
            Version::Two => MAX_THRESHOLD_TWO,
        }
    }

    /// The most bytes of a frame.
    pub fn max_frame(self) -> usize
        ensures { result ≡ max_frame self }
    {
        match self {
            Version::One => MAX_FRAME_ONE,
            Version::Two => MAX_FRAME_TWO,
        }
    }
}
