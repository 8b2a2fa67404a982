// Bytes that a line shows.
ghost use Rattle.std.specs.Prelude.{◌≡◌, ◌≤◌, ◌-◌, ◌++◌, length, replicate};

use std::marker::Model;

/// Up to 256 bytes in place, which take no memory. They are seen as their list.
#[derive(Clone, Copy, Debug)]
pub struct Said {
    bytes: [u8; 256],
    len: usize,
}

impl Model for Said {
    ghost use Rattle.std.specs.Prelude.{◌≡◌, ◌≤◌, ◌-◌, ◌++◌, List, ℕ, take, drop, length, replicate};
    ghost use Rattle.line_kinds.specs.Padding.{padded, taken};

    ghost Value = { List ℕ };

    ghost view = { λ s. take s.len s.bytes };

    ghost invariant = { λ s. (s.len ≤ 256) × (length s.bytes ≡ 256) × (drop s.len s.bytes ≡ replicate (256 - s.len) 0) };

    ghost inverse = { λ bytes. record { bytes = bytes ++ replicate (256 - length bytes) 0; len = length bytes } };

    ghost inverse_ok = { λ s h i. record { bytes = padded s.len s.bytes h.0 h.1 h.2 i; len = taken s.len s.bytes h.0 h.1 i } };
}

// Bytes with zeros behind them.
#[tactic(auto, using(crate::proofs::Padding::zeros_left))]
fn with_zeros(bytes: &[u8]) -> [u8; 256]
    requires { length bytes.now ≤ 256 }
    ensures { result ≡ bytes.now ++ replicate (256 - length bytes.now) 0 }
{
    let mut all = [0; 256];
    all[..bytes.len()].copy_from_slice(bytes);
    all
}

impl Said {
    /// These bytes.
    pub fn new(bytes: &[u8]) -> Said
        requires { length bytes.now ≤ 256 }
        ensures { result ≡ bytes.now }
    {
        Said {
            bytes: with_zeros(bytes),
            len: bytes.len(),
        }
    }

    /// The bytes.
    pub fn as_bytes(&self) -> &[u8]
        ensures bytes { result.now ≡ self.now }
        ensures few { length self.now ≤ 256 }
    {
        &self.bytes[..self.len]
    }
}
