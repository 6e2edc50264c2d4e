//! Bytes of a text that are still to be written.
ghost use Rattle.std.specs.Prelude.{◌≡◌, ◌+◌, ◌-◌, ◌≤◌, [], ◌++◌, length};

use std::marker::Model;

/// The most bytes that are gathered before they are handed on.
pub(crate) const ROOM: usize = 4096;

/// Bytes that are still to be written, gathered so that a desk is handed many at once.
#[derive(Drop)]
pub struct Pending {
    bytes: [u8; ROOM],
    len: usize,
}

impl Model for Pending {
    ghost use Rattle.std.specs.Prelude.{List, ℕ, take, ◌≤◌};

    ghost Value = { List ℕ };

    ghost view = { λ p. take p.len p.bytes };

    ghost invariant = { λ p. p.len ≤ 4096 };
}

impl Pending {
    /// No bytes.
    pub fn new() -> Pending
        ensures { result ≡ [] }
    {
        Pending {
            bytes: [0; ROOM],
            len: 0,
        }
    }

    /// How many more bytes there is room for.
    pub(crate) fn room(&self) -> usize
        ensures { length self.now + result ≡ ROOM }
    {
        ROOM - self.len
    }

    /// The bytes.
    pub(crate) fn as_slice(&self) -> &[u8]
        ensures { result.now ≡ self.now }
    {
        &self.bytes[..self.len]
    }

    /// Adds bytes for which there is room.
    pub(crate) fn extend(&mut self, piece: &[u8])
        requires { length self.old + length piece.now ≤ ROOM }
        ensures { self.new ≡ self.old ++ piece.now }
    {
        let end = self.len + piece.len();
        self.bytes[self.len..end].copy_from_slice(piece);
        self.len = end;
    }

    /// Lets the bytes go.
    pub(crate) fn clear(&mut self)
        ensures { self.new ≡ [] }
    {
        self.len = 0;
    }
}
