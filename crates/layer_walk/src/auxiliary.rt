use star_io::Bytes;
use tag_groups::Listed;

/// The extra bytes of a report whose last layer has some: the number of its record, the level of
/// the group that showed them, and the bytes.
#[derive(Debug, Drop, PartialEq, Eq)]
pub struct Aux {
    pub index: u32,
    pub level: u8,
    pub bytes: Bytes,
}

/// A list of extra bytes.
pub type Auxes = Listed<Aux>;
