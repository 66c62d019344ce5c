use crate::limits::{CHECK_BYTES, TAG_BYTES};
use crate::value::Value;
use crate::version::Version;

/// What the members of a group have in common, beside their parent.
#[derive(Clone, Debug, Drop, PartialEq, Eq, PartialOrd, Ord)]
pub struct Head {
    /// The version of the report.
    pub version: Version,
    /// The threshold.
    pub k: u16,
    /// Equal for all reports of one value under one parent.
    pub tag: [u8; TAG_BYTES],
    /// The commitment to the value and all that it was derived from.
    pub check: [u8; CHECK_BYTES],
    /// The value under the keystream of the box key.
    pub boxed: Value,
}
