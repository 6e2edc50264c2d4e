//! An input in memory, which gives its bytes in turn.
ghost use Rattle.std.specs.Prelude.{◌≡◌, ◌-◌, length, take, drop, min, IfOk};

use std::alloc::{AllocError, Global};
use std::marker::Model;

/// An open input in memory. It is seen as the bytes that it still gives.
#[derive(Drop)]
pub struct OpenInput {
    bytes: Vec<u8>,
    given: usize,
}

impl Model for OpenInput {
    ghost use Rattle.std.specs.Prelude.{ℕ, List, ◌≤◌, drop, vec_len};

    ghost Value = { List ℕ };

    ghost view = { λ input. drop input.given input.bytes.items };

    ghost invariant = { λ input. input.given ≤ vec_len input.bytes };
}

impl OpenInput {
    /// An input that gives these bytes.
    pub fn new(alloc: Global, bytes: &[u8]) -> Result<OpenInput, AllocError>
        ensures { IfOk result (λ input. input ≡ bytes.now) }
    {
        Ok(OpenInput {
            bytes: Vec::from_slice(alloc, bytes)?,
            given: 0,
        })
    }

    /// Gives as many of the next bytes as there are and as `buf` has room for, to the front of
    /// `buf`, and answers how many.
    pub fn give(&mut self, buf: &mut [u8]) -> usize
        ensures count { result ≡ min (length buf.new) (length self.old) }
        ensures bytes { take result buf.new ≡ take result self.old }
        ensures rest { self.new ≡ drop result self.old }
    {
        let count = buf.len().min(self.bytes.len() - self.given);
        let end = self.given + count;
        buf[..count].copy_from_slice(&self.bytes[self.given..end]);
        self.given = end;
        count
    }
}
