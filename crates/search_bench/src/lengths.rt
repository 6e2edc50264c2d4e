//! Lengths of wires that are made up.
ghost use Rattle.std.specs.Prelude.{◌≡◌, ◌^◌, min, length, slice_index, IfOk};
ghost use Rattle.std.proofs.Common.{rules};

use shortest_forest::Lengths;
use std::alloc::{AllocError, Global};

/// A length for each wire, the greatest length in place of a greater one.
#[derive(Drop)]
pub(crate) struct Mixed(pub(crate) Vec<u64>);

impl Lengths for Mixed {
    ghost covered = { λ s. length s.0.items };

    ghost length = { λ s e. min (slice_index s.0.items e) (2 ^ 51) };

    ghost limit = { Prim.search rules };

    fn len_of(&self, wire: u32) -> u64 {
        self.0[wire as usize].min(1 << 51)
    }
}

/// Lengths from 8 to 1,031, which the numbers of the wires mix.
pub(crate) fn mixed_lengths(alloc: Global, wires: u32) -> Result<Vec<u64>, AllocError>
    ensures { IfOk result (λ lengths. length lengths.items ≡ wires) }
{
    let mut lengths = Vec::with_capacity(alloc, wires as usize)?;
    for e in 0..wires {
        lengths.push(8 + (e.wrapping_mul(2_654_435_761) >> 22) as u64)?;
    }
    Ok(lengths)
}
