//! A tree for each net of a board, by one builder.
ghost use Rattle.std.specs.Prelude.{◌≡◌, ◌≤◌, length};
ghost use Rattle.board_graph.specs.Graph.{graph_of};

use board_graph::BoardGraph;
use shortest_forest::{Lengths, MOST_CAP, NoBound};
use std::alloc::{AllocError, Global};
use steiner_build::TreeBuilder;
use tdm_problem::Problem;

/// Grows a tree for each net, from its source, and adds up their lengths modulo 2^64. Nets that no wires join
/// count as 0.
pub(crate) fn grow_all<Q: Lengths>(
    alloc: Global,
    problem: &Problem,
    graph: &BoardGraph,
    lengths: &Q,
) -> Result<u64, AllocError>
    requires graph { graph.now ≡ graph_of problem.now }
    requires lengths { length graph.now.wires ≤ Q.covered lengths.now }
{
    let mut builder = TreeBuilder::new(alloc, graph)?;
    let mut sum = 0u64;
    for n in 0..problem.nets() {
        let terminals = problem.net(n);
        let start = terminals[0];
        let grown = builder.grow(graph, lengths, &mut NoBound, terminals, start, MOST_CAP)?;
        sum = sum.wrapping_add(grown.unwrap_or(0));
    }
    Ok(sum)
}
