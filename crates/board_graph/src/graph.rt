//! Boards as graphs.
ghost use Rattle.std.specs.Prelude.{◌≡◌, ◌<◌, length, slice_get, Some, IfOk};
ghost use Rattle.tdm_problem.specs.Board.{IsWireOf};
ghost use Rattle.board_graph.specs.Graph.{IsGraph, graph_of};
ghost use Rattle.board_graph.specs.Neighbours.{neighbours_of};

use crate::neighbour::Neighbour;
use crate::rows::Rows;
use std::alloc::{AllocError, Global};
use std::marker::Model;
use tdm_problem::{Problem, Wire};

/// The FPGAs and wires of a board, with the wires at each FPGA side by side in memory. Each wire joins two
/// different FPGAs of the graph, and the limits on FPGAs and wires hold.
#[derive(Drop)]
pub struct BoardGraph {
    fpgas: u32,
    wires: Vec<Wire>,
    rows: Rows,
}

impl Model for BoardGraph {
    ghost use Rattle.board_graph.specs.Graph.{Graph, IsGraph};
    ghost use Rattle.board_graph.specs.Rows.{IsLaidOut};

    ghost Value = { Graph };

    ghost view = { λ g. record { fpgas = g.fpgas; wires = g.wires.items } };

    ghost invariant = { λ g. IsGraph (record { fpgas = g.fpgas; wires = g.wires.items })
        × IsLaidOut g.fpgas g.wires.items g.rows.starts.items g.rows.neighbours.items };
}

impl BoardGraph {
    /// The FPGAs and wires of a problem's board.
    pub fn of(alloc: Global, problem: &Problem) -> Result<BoardGraph, AllocError>
        ensures same { IfOk result (λ graph. graph ≡ graph_of problem.now) }
        ensures graph { IfOk result IsGraph }
    {
        let fpgas = problem.fpgas();
        let wires = wires_of(alloc, problem)?;
        let rows = Rows::of(alloc, fpgas, &wires)?;
        Ok(BoardGraph { fpgas, wires, rows })
    }

    /// How many FPGAs there are.
    pub fn fpgas(&self) -> u32
        ensures value { result ≡ self.now.fpgas }
        ensures graph { IsGraph self.now }
    {
        self.fpgas
    }

    /// How many wires there are.
    pub fn wires(&self) -> u32
        ensures value { result ≡ length self.now.wires }
        ensures graph { IsGraph self.now }
    {
        self.wires.len() as u32
    }

    /// Wire `e`, counted from 0.
    pub fn wire(&self, e: u32) -> Wire
        requires { e < length self.now.wires }
        ensures there { slice_get self.now.wires e ≡ Some result }
        ensures joins { IsWireOf self.now.fpgas result }
    {
        self.wires[e as usize]
    }

    /// Every wire at FPGA `f` with its other end, wires rising.
    pub fn neighbours(&self, f: u32) -> &[Neighbour]
        requires { f < self.now.fpgas }
        ensures exact { result.now ≡ neighbours_of self.now f }
        ensures graph { IsGraph self.now }
    {
        let f = f as usize;
        let start = self.rows.starts[f] as usize;
        let end = self.rows.starts[f + 1] as usize;
        &self.rows.neighbours[start..end]
    }
}

/// A copy of the wires of a problem's board.
fn wires_of(alloc: Global, problem: &Problem) -> Result<Vec<Wire>, AllocError>
    ensures { IfOk result (λ wires. wires.items ≡ problem.now.wires) }
{
    let count = problem.wires();
    let mut wires = Vec::with_capacity(alloc, count as usize)?;
    for e in 0..count {
        wires.push(problem.wire(e))?;
    }
    Ok(wires)
}

#[cfg(test)]
mod tests {
    use super::*;
    use tdm_problem::ProblemDraft;

    #[test]
    fn two_parallel_wires_are_two_neighbours(rt: HostRuntime) {
        let mut draft = ProblemDraft::new(rt.alloc(), 2);
        assert!(rt; draft.push_wire(Wire { a: 0, b: 1 }).is_ok());
        assert!(rt; draft.push_wire(Wire { a: 0, b: 1 }).is_ok());
        let problem = draft.into_problem();
        let graph = BoardGraph::of(rt.alloc(), &problem).expect(&rt, "memory");
        assert_eq!(rt; graph.fpgas(), 2);
        assert_eq!(rt; graph.wires(), 2);
        assert_eq!(rt; graph.wire(1), Wire { a: 0, b: 1 });
        let row = graph.neighbours(0);
        assert_eq!(rt; row.len(), 2);
        assert_eq!(rt; row[0], Neighbour { wire: 0, fpga: 1 });
        assert_eq!(rt; row[1], Neighbour { wire: 1, fpga: 1 });
    }
}
