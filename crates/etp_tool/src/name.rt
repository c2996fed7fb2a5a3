ghost use Rattle.std.specs.Prelude.{◌≡◌, ◌≤◌, ◌↔◌, [], length, IsTrue};

use std::marker::Model;

/// The most bytes of a name.
const NAME: usize = 64;

/// A name of at most 64 bytes, kept in place.
#[derive(Drop)]
pub struct ShelfName {
    bytes: [u8; NAME],
    len: usize,
}

impl Model for ShelfName {
    ghost use Rattle.std.specs.Prelude.{ℕ, List, take, ◌≤◌};

    ghost Value = { List ℕ };

    ghost view = { λ n. take n.len n.bytes };

    ghost invariant = { λ n. n.len ≤ 64 };
}

impl ShelfName {
    /// The name without bytes.
    pub fn none() -> ShelfName
        ensures { result ≡ [] }
    {
        ShelfName {
            bytes: [0; NAME],
            len: 0,
        }
    }

    /// The name of these bytes.
    pub fn of(name: &[u8]) -> ShelfName
        requires { length name.now ≤ 64 }
        ensures { result ≡ name.now }
    {
        let mut bytes = [0; NAME];
        bytes[..name.len()].copy_from_slice(name);
        ShelfName {
            bytes,
            len: name.len(),
        }
    }

    /// Whether the name has these bytes.
    pub fn is(&self, name: &[u8]) -> bool
        ensures { IsTrue result ↔ (self.now ≡ name.now) }
    {
        &self.bytes[..self.len] == name
    }
}
