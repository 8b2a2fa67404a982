//! The digest of a side of memory.
#![tactic(auto)]

ghost use Rattle.std.specs.Prelude.{◌≡◌};
ghost use Rattle.side_digest.specs.Digest.{digest};

use sha2::{Digest, Sha256};

/// The SHA-256 digest of the bytes of a side (FIPS 180-4).
#[tactic(auto, unfolding(crate::specs::Digest::digest))]
pub fn side_digest(bytes: &[u8]) -> [u8; 32]
    ensures { result ≡ digest bytes.now }
{
    Sha256::digest(bytes)
}
