// What the rows of a group have in common, as a key of a map.
ghost use Rattle.std.specs.Prelude.{◌≡◌};
ghost use Rattle.tag_groups.specs.Keys.{key_of, HasThreshold};
ghost use Rattle.tag_groups.specs.Index.{rank_of, front_of};

use crate::row::Row;
use report_frame::{Head, TAG_BYTES};

/// What the rows of a group have in common.
#[derive(Drop, PartialEq, Eq, PartialOrd, Ord)]
pub(crate) struct Key {
    pub(crate) parent: u32,
    pub(crate) head: Head,
}

/// The key of a row.
pub(crate) fn key_of(row: &Row) -> Key
    ensures key { result ≡ key_of row.now }
    ensures threshold { HasThreshold result.head }
{
    Key {
        parent: row.parent(),
        head: row.view().head(),
    }
}

/// A key after the front of its tag, in which two keys mostly differ: so they are mostly compared by
/// one number.
#[derive(Drop, PartialEq, Eq, PartialOrd, Ord)]
pub(crate) struct Rank {
    pub(crate) front: u64,
    pub(crate) key: Key,
}

/// The rank of a key.
pub(crate) fn rank_of(key: Key) -> Rank
    ensures { result ≡ rank_of key }
{
    Rank {
        front: front_of(&key.head.tag),
        key,
    }
}

// The first eight bytes of a tag, as a number.
fn front_of(tag: &[u8; TAG_BYTES]) -> u64
    ensures { result ≡ front_of tag.now }
{
    u64::from_be_bytes([
        tag[0], tag[1], tag[2], tag[3], tag[4], tag[5], tag[6], tag[7],
    ])
}
