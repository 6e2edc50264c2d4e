//! The way back from an FPGA to a source of a search.
ghost use Rattle.std.specs.Prelude.{◌≡◌, ◌++◌, ◌<◌, ℕ, List, length, OnOk, OnErr};
ghost use Rattle.board_graph.specs.Graph.{board_of};
ghost use Rattle.shortest_forest.specs.Labels.{IsWayBack};

use crate::search::Search;
use crate::wire_ends::other_end;
use board_graph::BoardGraph;
use std::alloc::AllocError;

/// Appends the wires that lead from FPGA `f`, which has a label, back to a source. After want of memory
/// the vector has what it had.
pub fn way_back(
    search: &Search,
    graph: &BoardGraph,
    f: u32,
    wires: &mut Vec<u32>,
) -> Result<(), AllocError>
    requires there { f < graph.now.fpgas }
    requires count { length search.now.labels ≡ graph.now.fpgas }
    requires back { (es : List ℕ) × ((source : ℕ) × IsWayBack (board_of graph.now) search.now f es source) }
    ensures way { OnOk result ((es : List ℕ)
        × ((source : ℕ) × IsWayBack (board_of graph.now) search.now f es source
        × (wires.new.items ≡ wires.old.items ++ es))) }
    ensures err { OnErr result (wires.new.items ≡ wires.old.items) }
{
    let before = wires.len();
    let mut at = f;
    while let Some(e) = search.wire(at) {
        if let Err(fault) = wires.push(e) {
            wires.truncate(before);
            return Err(fault.into());
        }
        let wire = graph.wire(e);
        at = other_end(wire, at);
    }
    Ok(())
}
