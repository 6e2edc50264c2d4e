//! Solutions: the wires of each net, each with a ratio.
ghost use Rattle.std.specs.Prelude.{◌≡◌, ◌<◌, ◌≤◌, [], ◌∷◌, ◌++◌, length, slice_get, slice_index_or, Some, IfOk, OnOk, OnErr};
ghost use Rattle.std.specs.List.Sorted.{IsStrictlyIncreasing};
ghost use Rattle.tdm_problem.specs.Limits.{most_nets};
ghost use Rattle.tdm_problem.specs.Routing.{uses_of, wires_of, with_ratio, HasRisingWires};

use flat_rows::FlatRows;
use std::alloc::{AllocError, Global};
use std::marker::Model;

/// One use of a wire by a net: the wire's number, and the net's time-division ratio on it.
#[derive(Clone, Copy, Debug, PartialEq, Eq)]
pub struct WireUse {
    pub wire: u32,
    pub ratio: u32,
}

/// Net by net the uses of wires, at most [`MAX_NETS`] nets. The wires of a net rise strictly.
#[derive(Drop)]
pub struct Solution {
    uses: FlatRows<WireUse>,
}

impl Model for Solution {
    ghost use Rattle.tdm_problem.specs.Routing.{Routing, HasRisingWires};

    ghost Value = { Routing };

    ghost view = { λ s. s.uses };

    ghost invariant = { λ s. HasRisingWires s.uses };
}

impl Solution {
    /// A solution without nets.
    pub fn new(alloc: Global) -> Solution
        ensures { result ≡ [] }
    {
        Solution {
            uses: FlatRows::new(alloc),
        }
    }

    /// How many nets have been pushed.
    pub fn nets(&self) -> u32
        ensures value { result ≡ length self.now }
        ensures rising { HasRisingWires self.now }
    {
        self.uses.rows() as u32
    }

    /// The uses of net `n`, counted from 0, their wires rising.
    pub fn uses(&self, n: u32) -> &[WireUse]
        requires { n < length self.now }
        ensures there { slice_get self.now n ≡ Some result.now }
        ensures value { uses_of self.now n ≡ result.now }
        ensures rising { IsStrictlyIncreasing (wires_of result.now) }
    {
        self.uses.row(n as usize)
    }

    /// Adds the uses of the next net, their wires rising strictly. The solution is unchanged where memory is
    /// wanting.
    pub fn push_net(&mut self, uses: &[WireUse]) -> Result<(), AllocError>
        requires room { length self.old < most_nets }
        requires rising { IsStrictlyIncreasing (wires_of uses.now) }
        ensures ok { OnOk result (self.new ≡ self.old ++ uses.now ∷ []) }
        ensures err { OnErr result (self.new ≡ self.old) }
        ensures all_rising { HasRisingWires self.new }
    {
        self.uses.push_row(uses)
    }

    /// Writes a new ratio into the use at a place of net `n`. It takes no memory.
    pub fn set_ratio(&mut self, n: u32, place: u32, ratio: u32)
        requires net_there { n < length self.old }
        requires place_there { place < length (uses_of self.old n) }
        ensures changed { self.new ≡ with_ratio self.old n place ratio }
        ensures all_rising { HasRisingWires self.new }
    {
        let (net, place) = (n as usize, place as usize);
        let wire = self.uses.row(net)[place].wire;
        self.uses.set(net, place, WireUse { wire, ratio });
    }

    /// The same solution in memory of its own.
    pub fn copy(&self, alloc: Global) -> Result<Solution, AllocError>
        ensures { IfOk result (λ solution. solution ≡ self.now) }
    {
        Ok(Solution {
            uses: self.uses.copy(alloc)?,
        })
    }
}
