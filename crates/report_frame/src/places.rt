// Where the fields before the box start, in bytes from the front.

use crate::limits::{CHECK_BYTES, TAG_BYTES};

pub(crate) const VERSION_AT: usize = 2;

pub(crate) const LEVEL_AT: usize = VERSION_AT + 1;

pub(crate) const EPOCH_AT: usize = LEVEL_AT + 1;

pub(crate) const THRESHOLD_AT: usize = EPOCH_AT + 4;

pub(crate) const POINT_AT: usize = THRESHOLD_AT + 2;

pub(crate) const FIRST_SHARE_AT: usize = POINT_AT + 8;

pub(crate) const SECOND_SHARE_AT: usize = FIRST_SHARE_AT + 8;

pub(crate) const THIRD_SHARE_AT: usize = SECOND_SHARE_AT + 8;

pub(crate) const TAG_AT: usize = THIRD_SHARE_AT + 8;

pub(crate) const CHECK_AT: usize = TAG_AT + TAG_BYTES;

pub(crate) const BOX_LENGTH_AT: usize = CHECK_AT + CHECK_BYTES;

pub(crate) const BOX_AT: usize = BOX_LENGTH_AT + 1;
