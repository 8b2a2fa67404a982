// A name that is kept in place.
ghost use Rattle.std.specs.Prelude.{◌≡◌, ◌≤◌, [], length};

use std::marker::Model;

/// The greatest length of a name, in bytes.
pub const NAME_LIMIT: usize = 255;

/// The name that was kept last, without memory of its own. Contracts see its bytes, and none before the first.
#[derive(Drop)]
pub struct LastName {
    bytes: [u8; NAME_LIMIT],
    len: usize,
}

impl Model for LastName {
    ghost use Rattle.std.specs.Prelude.{◌≤◌, List, ℕ, take};

    ghost Value = { List ℕ };

    ghost view = { λ n. take n.len n.bytes };

    ghost invariant = { λ n. n.len ≤ 255 };
}

impl LastName {
    /// No name yet.
    pub fn new() -> LastName
        ensures { result ≡ [] }
    {
        LastName {
            bytes: [0; NAME_LIMIT],
            len: 0,
        }
    }

    /// Keeps a name in place of the one before.
    pub fn keep(&mut self, name: &[u8])
        requires { length name.now ≤ 255 }
        ensures { self.new ≡ name.now }
    {
        self.bytes[..name.len()].copy_from_slice(name);
        self.len = name.len();
    }

    /// The bytes of the name.
    pub fn as_slice(&self) -> &[u8]
        ensures { result.now ≡ self.now }
    {
        &self.bytes[..self.len]
    }
}
