// A frame in parts, as it is read.

use crate::limits::{CHECK_BYTES, NONCE_BYTES, SEAL_BYTES, TAG_BYTES};
use crate::version::Version;

/// The fields before the box.
#[derive(Clone, Copy)]
pub(crate) struct Front<'a> {
    pub(crate) version: Version,
    pub(crate) level: u8,
    pub(crate) epoch: u32,
    pub(crate) k: u16,
    pub(crate) x: u64,
    pub(crate) y0: u64,
    pub(crate) y1: u64,
    pub(crate) y2: u64,
    pub(crate) tag: &'a [u8; TAG_BYTES],
    pub(crate) check: &'a [u8; CHECK_BYTES],
}

/// All the fields.
#[derive(Clone, Copy)]
pub(crate) struct Parts<'a> {
    pub(crate) front: Front<'a>,
    pub(crate) boxed: &'a [u8],
    pub(crate) nonce: &'a [u8; NONCE_BYTES],
    pub(crate) body: &'a [u8],
    pub(crate) seal: &'a [u8; SEAL_BYTES],
}
