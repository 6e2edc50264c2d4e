//! Marks of FPGAs that are all taken away at once.
ghost use Rattle.std.specs.Prelude.{◌≡◌, ◌<◌, true, false, length, replicate, slice_index_or, slice_set, IfOk};

use board_graph::BoardGraph;
use std::alloc::{AllocError, Global};
use std::marker::Model;

/// A mark for each FPGA of a graph. An FPGA is marked where it has the present number, so counting on takes
/// all marks away, in no time in proportion to the graph but once in 2^32 times.
#[derive(Drop)]
pub(crate) struct Marks {
    numbers: Vec<u32>,
    present: u32,
}

impl Model for Marks {
    ghost use Rattle.std.specs.Prelude.{◌≤◌, ◌==◌, Bool, List, All, map};

    ghost Value = { List Bool };

    ghost view = { λ m. map (λ k. k == m.present) m.numbers.items };

    ghost invariant = { λ m. All (λ k. k ≤ m.present) m.numbers.items };
}

impl Marks {
    /// No FPGA of the graph is marked.
    pub(crate) fn new(alloc: Global, graph: &BoardGraph) -> Result<Marks, AllocError>
        ensures { IfOk result (λ marks. marks ≡ replicate graph.now.fpgas false) }
    {
        let numbers = vec![in alloc; 0; graph.fpgas() as usize]?;
        Ok(Marks {
            numbers,
            present: 1,
        })
    }

    /// Takes all marks away.
    pub(crate) fn clear(&mut self)
        ensures { self.new ≡ replicate (length self.old) false }
    {
        if self.present < u32::MAX {
            self.present += 1;
        } else {
            self.numbers.fill(0);
            self.present = 1;
        }
    }

    /// Marks FPGA `f`.
    pub(crate) fn mark(&mut self, f: u32)
        requires { f < length self.old }
        ensures { self.new ≡ slice_set self.old f true }
    {
        self.numbers[f as usize] = self.present;
    }

    /// Whether FPGA `f` is marked.
    pub(crate) fn is_marked(&self, f: u32) -> bool
        requires { f < length self.now }
        ensures { result ≡ slice_index_or self.now f false }
    {
        self.numbers[f as usize] == self.present
    }
}
