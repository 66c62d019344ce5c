// What is derived from a key.
ghost use Rattle.std.specs.Prelude.{◌≡◌};
ghost use Rattle.adss_commit.specs.Derivation.{box_key_of, body_key_of, seal_key_of};

use crate::hash::hashed_key;
use report_frame::Version;
use shamir_limbs::Key;

// The kinds of hashes over a key.
const BOX: u8 = 6;

const BODY: u8 = 7;

const SEAL: u8 = 8;

/// The key of the keystream over the value.
pub(crate) fn box_key(version: Version, key: &Key) -> [u8; 32]
    ensures { result ≡ box_key_of version key.now.bytes }
{
    hashed_key(version, BOX, key)
}

/// The key of the keystream over the bodies of reports that share this key.
pub fn body_key(version: Version, key: &Key) -> [u8; 32]
    ensures { result ≡ body_key_of version key.now.bytes }
{
    hashed_key(version, BODY, key)
}

/// The key of the seals of reports that share this key.
pub fn seal_key(version: Version, key: &Key) -> [u8; 32]
    ensures { result ≡ seal_key_of version key.now.bytes }
{
    hashed_key(version, SEAL, key)
}
