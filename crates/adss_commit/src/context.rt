// What a report of one layer commits to.
ghost use Rattle.std.specs.Prelude.{◌≡◌};
ghost use Rattle.adss_commit.specs.Derivation.{context_key, context_tag, context_check, coin_key, derived};

use crate::hash::{first_half, hashed_context};
use report_frame::{CHECK_BYTES, TAG_BYTES, Value, Version};
use shamir_limbs::Key;

/// All that a report of one layer commits to.
#[derive(Debug, Drop, PartialEq, Eq)]
pub struct Context {
    /// The version, whose label all is derived under.
    pub version: Version,
    /// The check of the context one layer up, and 32 zero bytes in the first layer.
    pub parent: [u8; CHECK_BYTES],
    pub epoch: u32,
    /// The layer, counted from 0.
    pub level: u8,
    /// The threshold.
    pub k: u16,
    pub value: Value,
}

/// What groups the reports of a context, and opens them.
#[derive(Clone, Copy, Debug, PartialEq, Eq)]
pub struct Derived {
    /// The key that the reports share.
    pub key: Key,
    /// Equal for all reports of the context.
    pub tag: [u8; TAG_BYTES],
    /// The commitment to the context.
    pub check: [u8; CHECK_BYTES],
}

// The kinds of hashes over a context.
const KEY: u8 = 1;

const TAG: u8 = 2;

const CHECK: u8 = 3;

const COINS: u8 = 5;

/// Key, tag and check of a context.
pub fn derive(context: &Context) -> Derived
    ensures { result ≡ derived context.now }
{
    Derived {
        key: context_key(context),
        tag: context_tag(context),
        check: context_check(context),
    }
}

pub(crate) fn context_key(context: &Context) -> Key
    ensures { result.bytes ≡ context_key context.now }
{
    Key {
        bytes: first_half(&hashed_context(KEY, context)),
    }
}

pub(crate) fn context_tag(context: &Context) -> [u8; TAG_BYTES]
    ensures { result ≡ context_tag context.now }
{
    first_half(&hashed_context(TAG, context))
}

pub(crate) fn context_check(context: &Context) -> [u8; CHECK_BYTES]
    ensures { result ≡ context_check context.now }
{
    hashed_context(CHECK, context)
}

/// The key of the keystream that the coefficients are taken from.
pub(crate) fn coin_key(context: &Context) -> [u8; 32]
    ensures { result ≡ coin_key context.now }
{
    hashed_context(COINS, context)
}
