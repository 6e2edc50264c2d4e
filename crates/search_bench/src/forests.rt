//! Forests from each FPGA of a board, over one workspace.
ghost use Rattle.std.specs.Prelude.{◌≡◌, ◌≤◌, false, length, replicate};
ghost use Rattle.board_graph.specs.Graph.{Graph};

use board_graph::BoardGraph;
use shortest_forest::{Lengths, Search, settle_all};
use std::alloc::{AllocError, Global};

/// Settles all FPGAs from each, so many times, and adds up the distances of the last one modulo 2^64.
pub(crate) fn settle_often<Q: Lengths>(
    alloc: Global,
    graph: &BoardGraph,
    lengths: &Q,
    turns: u32,
) -> Result<u64, AllocError>
    requires lengths { length graph.now.wires ≤ Q.covered lengths.now }
{
    let mut search = Search::new(alloc, graph)?;
    let mut sum = 0u64;
    for _ in 0..turns {
        sum = sum.wrapping_add(settle_each(&mut search, graph, lengths)?);
    }
    Ok(sum)
}

/// Settles all FPGAs from each, and adds up the distances of the last one modulo 2^64.
fn settle_each<Q: Lengths>(
    search: &mut Search,
    graph: &BoardGraph,
    lengths: &Q,
) -> Result<u64, AllocError>
    requires lengths { length graph.now.wires ≤ Q.covered lengths.now }
    requires count { length search.old.labels ≡ graph.now.fpgas }
    requires goals { search.old.goals ≡ replicate graph.now.fpgas false }
    ensures count { length search.new.labels ≡ length search.old.labels }
    ensures goals { search.new.goals ≡ search.old.goals }
{
    let fpgas = graph.fpgas();
    let mut sum = 0u64;
    for root in 0..fpgas {
        settle_all(search, graph, root, lengths)?;
        sum = sum.wrapping_add(search.distance(fpgas - 1).unwrap_or(0));
    }
    Ok(sum)
}
