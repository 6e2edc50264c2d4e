//! Boards with their nets and groups.
ghost use Rattle.std.specs.Prelude.{◌≡◌, ◌+◌, ◌<◌, ◌≤◌, [], ◌∷◌, ◌++◌, length, sum_by, All, slice_get, slice_index_or, Some, OnOk, OnErr};
ghost use Rattle.tdm_problem.specs.Board.{IsBoard, IsWireOf, IsRowBelow, without_repeats};
ghost use Rattle.tdm_problem.specs.Limits.{most_fpgas, most_wires, most_nets, most_groups, most_listed_fpgas, most_listed_nets};

use crate::firsts::Firsts;
use crate::wire::Wire;
use flat_rows::FlatRows;
use std::alloc::{AllocError, Global};
use std::marker::Model;

/// A board with its nets and groups. All its numbers name something, no wire is a loop, no net and no
/// group is empty or lists a number twice, and it keeps to the limits of this crate.
#[derive(Drop)]
pub struct Problem {
    fpgas: u32,
    wires: Vec<Wire>,
    nets: FlatRows<u32>,
    groups: FlatRows<u32>,
}

impl Model for Problem {
    ghost use Rattle.tdm_problem.specs.Board.{Board, IsBoard};

    ghost Value = { Board };

    ghost view = { λ p. record { fpgas = p.fpgas; wires = p.wires.items; nets = p.nets; groups = p.groups } };

    ghost invariant = { λ p. IsBoard (record {
      fpgas = p.fpgas;
      wires = p.wires.items;
      nets = p.nets;
      groups = p.groups;
    }) };
}

impl Problem {
    /// A board without wires, nets and groups.
    fn new(alloc: Global, fpgas: u32) -> Problem
        requires { fpgas ≤ most_fpgas }
        ensures { result ≡ record { fpgas = fpgas; wires = []; nets = []; groups = [] } }
    {
        Problem {
            fpgas,
            wires: Vec::new(alloc),
            nets: FlatRows::new(alloc),
            groups: FlatRows::new(alloc),
        }
    }

    /// How many FPGAs the board has, at most [`MAX_FPGAS`].
    pub fn fpgas(&self) -> u32
        ensures value { result ≡ self.now.fpgas }
        ensures board { IsBoard self.now }
    {
        self.fpgas
    }

    /// How many wires the board has, at most [`MAX_WIRES`].
    pub fn wires(&self) -> u32
        ensures value { result ≡ length self.now.wires }
        ensures board { IsBoard self.now }
    {
        self.wires.len() as u32
    }

    /// Wire `e`, counted from 0.
    pub fn wire(&self, e: u32) -> Wire
        requires { e < length self.now.wires }
        ensures there { slice_get self.now.wires e ≡ Some result }
        ensures joins { IsWireOf self.now.fpgas result }
    {
        self.wires[e as usize]
    }

    /// How many nets there are, at most [`MAX_NETS`].
    pub fn nets(&self) -> u32
        ensures value { result ≡ length self.now.nets }
        ensures board { IsBoard self.now }
    {
        self.nets.rows() as u32
    }

    /// The FPGAs of net `n`, counted from 0: its source first, and none twice.
    pub fn net(&self, n: u32) -> &[u32]
        requires { n < length self.now.nets }
        ensures there { slice_get self.now.nets n ≡ Some result.now }
        ensures value { slice_index_or self.now.nets n [] ≡ result.now }
        ensures row { IsRowBelow self.now.fpgas result.now }
    {
        self.nets.row(n as usize)
    }

    /// How many groups there are, at most [`MAX_GROUPS`].
    pub fn groups(&self) -> u32
        ensures value { result ≡ length self.now.groups }
        ensures board { IsBoard self.now }
    {
        self.groups.rows() as u32
    }

    /// The nets of group `g`, counted from 0: none twice.
    pub fn group(&self, g: u32) -> &[u32]
        requires { g < length self.now.groups }
        ensures there { slice_get self.now.groups g ≡ Some result.now }
        ensures value { slice_index_or self.now.groups g [] ≡ result.now }
        ensures row { IsRowBelow (length self.now.nets) result.now }
    {
        self.groups.row(g as usize)
    }

    /// Adds a wire after the others.
    fn push_wire(&mut self, wire: Wire) -> Result<(), AllocError>
        requires room { length self.old.wires < most_wires }
        requires joins { IsWireOf self.old.fpgas wire }
        ensures ok { OnOk result (self.new ≡ record self.old { wires = self.old.wires ++ wire ∷ [] }) }
        ensures err { OnErr result (self.new ≡ self.old) }
        ensures board { IsBoard self.new }
    {
        if self.wires.push(wire).is_err() {
            return Err(AllocError);
        }
        Ok(())
    }

    /// Adds a net after the others.
    fn push_net(&mut self, fpgas: &[u32]) -> Result<(), AllocError>
        requires room { length self.old.nets < most_nets }
        requires room_listed { sum_by length self.old.nets + length fpgas.now ≤ most_listed_fpgas }
        requires row { IsRowBelow self.old.fpgas fpgas.now }
        ensures ok { OnOk result (self.new ≡ record self.old { nets = self.old.nets ++ fpgas.now ∷ [] }) }
        ensures err { OnErr result (self.new ≡ self.old) }
        ensures board { IsBoard self.new }
    {
        self.nets.push_row(fpgas)
    }

    /// Adds a group after the others.
    fn push_group(&mut self, nets: &[u32]) -> Result<(), AllocError>
        requires room { length self.old.groups < most_groups }
        requires room_listed { sum_by length self.old.groups + length nets.now ≤ most_listed_nets }
        requires row { IsRowBelow (length self.old.nets) nets.now }
        ensures ok { OnOk result (self.new ≡ record self.old { groups = self.old.groups ++ nets.now ∷ [] }) }
        ensures err { OnErr result (self.new ≡ self.old) }
        ensures board { IsBoard self.new }
    {
        self.groups.push_row(nets)
    }
}

/// A problem that is being put together, wire by wire, net by net and group by group. It is at each
/// time a problem by itself.
#[derive(Drop)]
pub struct ProblemDraft {
    problem: Problem,
    firsts: Firsts,
}

impl Model for ProblemDraft {
    ghost use Rattle.tdm_problem.specs.Board.{Board};

    ghost Value = { Board };

    ghost view = { λ d. d.problem };
}

impl ProblemDraft {
    /// A board with this many FPGAs, and without wires, nets and groups.
    pub fn new(alloc: Global, fpgas: u32) -> ProblemDraft
        requires { fpgas ≤ most_fpgas }
        ensures empty { result ≡ record { fpgas = fpgas; wires = []; nets = []; groups = [] } }
        ensures board { IsBoard result }
    {
        ProblemDraft {
            problem: Problem::new(alloc, fpgas),
            firsts: Firsts::new(alloc),
        }
    }

    /// Adds a wire between two different FPGAs of the board. The draft is unchanged where memory is wanting.
    pub fn push_wire(&mut self, wire: Wire) -> Result<(), AllocError>
        requires room { length self.old.wires < most_wires }
        requires joins { IsWireOf self.old.fpgas wire }
        ensures ok { OnOk result (self.new ≡ record self.old { wires = self.old.wires ++ wire ∷ [] }) }
        ensures err { OnErr result (self.new ≡ self.old) }
        ensures board { IsBoard self.new }
    {
        self.problem.push_wire(wire)
    }

    /// Adds a net that joins these FPGAs, at least one, the source first. Of an FPGA that is listed
    /// repeatedly the first is kept. The draft is unchanged where memory is wanting.
    pub fn push_net(&mut self, fpgas: &[u32]) -> Result<(), AllocError>
        requires room { length self.old.nets < most_nets }
        requires room_listed { sum_by length self.old.nets + length fpgas.now ≤ most_listed_fpgas }
        requires some { 0 < length fpgas.now }
        requires there { All (λ f. f < self.old.fpgas) fpgas.now }
        ensures ok { OnOk result (self.new ≡ record self.old {
          nets = self.old.nets
              ++ without_repeats fpgas.now ∷ [];
        }) }
        ensures err { OnErr result (self.new ≡ self.old) }
        ensures board { IsBoard self.new }
    {
        let limit = self.problem.fpgas();
        self.firsts.keep(fpgas, limit)?;
        self.problem.push_net(&self.firsts.kept)
    }

    /// Adds a group of these nets, at least one, which were pushed before. Of a net that is listed
    /// repeatedly the first is kept. The draft is unchanged where memory is wanting.
    pub fn push_group(&mut self, nets: &[u32]) -> Result<(), AllocError>
        requires room { length self.old.groups < most_groups }
        requires room_listed { sum_by length self.old.groups + length nets.now ≤ most_listed_nets }
        requires some { 0 < length nets.now }
        requires there { All (λ n. n < length self.old.nets) nets.now }
        ensures ok { OnOk result (self.new ≡ record self.old {
          groups = self.old.groups
              ++ without_repeats nets.now ∷ [];
        }) }
        ensures err { OnErr result (self.new ≡ self.old) }
        ensures board { IsBoard self.new }
    {
        let limit = self.problem.nets();
        self.firsts.keep(nets, limit)?;
        self.problem.push_group(&self.firsts.kept)
    }

    /// The problem as it stands.
    pub fn into_problem(self) -> Problem
        ensures same { result ≡ self }
        ensures board { IsBoard result }
    {
        self.problem
    }
}
