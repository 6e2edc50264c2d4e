//! The wires of each net, without ratios.
ghost use Rattle.std.specs.Prelude.{◌≡◌, ◌<◌, ◌≤◌, [], ◌∷◌, ◌++◌, length, slice_get, slice_set, Some, IfOk, OnOk, OnErr};
ghost use Rattle.std.specs.List.Sorted.{IsStrictlyIncreasing};
ghost use Rattle.tdm_problem.specs.Limits.{most_nets};
ghost use Rattle.tdm_problem.specs.Trees.{tree_of, HasRisingRows};

use crate::pool::Pool;
use std::alloc::{AllocError, Global};
use std::marker::Model;

/// Net by net the wires that it uses, at most [`MAX_NETS`] nets. The wires of a net rise strictly. A net may
/// get other wires at any time.
#[derive(Drop)]
pub struct Trees {
    wires: Pool,
}

impl Model for Trees {
    ghost use Rattle.std.specs.Prelude.{List, ℕ};
    ghost use Rattle.tdm_problem.specs.Trees.{HasRisingRows};

    ghost Value = { List (List ℕ) };

    ghost view = { λ t. t.wires };

    ghost invariant = { λ t. HasRisingRows t.wires };
}

impl Trees {
    /// No nets.
    pub fn new(alloc: Global) -> Trees
        ensures { result ≡ [] }
    {
        Trees {
            wires: Pool::new(alloc),
        }
    }

    /// How many nets have been pushed.
    pub fn nets(&self) -> u32
        ensures value { result ≡ length self.now }
        ensures rising { HasRisingRows self.now }
    {
        self.wires.rows() as u32
    }

    /// The wires of net `n`, counted from 0, rising.
    pub fn wires_of(&self, n: u32) -> &[u32]
        requires { n < length self.now }
        ensures there { slice_get self.now n ≡ Some result.now }
        ensures value { tree_of self.now n ≡ result.now }
        ensures rising { IsStrictlyIncreasing result.now }
    {
        self.wires.row(n as usize)
    }

    /// Adds the wires of the next net, rising strictly. The trees are unchanged where memory is wanting.
    pub fn push_net(&mut self, wires: &[u32]) -> Result<(), AllocError>
        requires room { length self.old < most_nets }
        requires rising { IsStrictlyIncreasing wires.now }
        ensures ok { OnOk result (self.new ≡ self.old ++ wires.now ∷ []) }
        ensures err { OnErr result (self.new ≡ self.old) }
        ensures all_rising { HasRisingRows self.new }
    {
        self.wires.push_row(wires)
    }

    /// Gives net `n` other wires, rising strictly. The trees are unchanged where memory is wanting.
    pub fn replace(&mut self, n: u32, wires: &[u32]) -> Result<(), AllocError>
        requires there { n < length self.old }
        requires rising { IsStrictlyIncreasing wires.now }
        ensures ok { OnOk result (self.new ≡ slice_set self.old n wires.now) }
        ensures err { OnErr result (self.new ≡ self.old) }
        ensures all_rising { HasRisingRows self.new }
    {
        self.wires.replace(n as usize, wires)
    }

    /// The same trees in memory of their own.
    pub fn copy(&self, alloc: Global) -> Result<Trees, AllocError>
        ensures { IfOk result (λ trees. trees ≡ self.now) }
    {
        Ok(Trees {
            wires: self.wires.copy(alloc)?,
        })
    }
}
