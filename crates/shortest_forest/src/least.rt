//! Forests of least lengths from one FPGA.
ghost use Rattle.std.specs.Prelude.{◌≡◌, ◌<◌, ◌≤◌, ℕ, None, false, length, replicate, slice_index_or, IfOk, OnOk, MatchOption};
ghost use Rattle.tdm_problem.specs.Distance.{IsDistance};
ghost use Rattle.board_graph.specs.Graph.{IsGraph, board_of};
ghost use Rattle.shortest_forest.specs.Labels.{label_at, distance_in, wire_in};
ghost use Rattle.shortest_forest.specs.LeastForest.{IsLeastForest};
ghost use Rattle.shortest_forest.specs.Reach.{HasNoWalk};
ghost use Rattle.shortest_forest.specs.Settled.{IsAllSettled};

use crate::hop_forest::Forest;
use crate::lengths::{BothWays, Lengths, NoBound};
use crate::nearest::{MOST_CAP, nearest_goal};
use crate::search::Search;
use board_graph::BoardGraph;
use std::alloc::{AllocError, Global};

/// The forest of least lengths from FPGA `root`, which is one of the graph, over lengths that cover the
/// graph's wires. The parent wire of an FPGA leads to one whose distance is less by the length of that wire;
/// following these wires, one comes to the root in fewer steps than the graph has FPGAs.
pub fn forest<Q: Lengths>(
    alloc: Global,
    graph: &BoardGraph,
    root: u32,
    lengths: &Q,
) -> Result<Forest, AllocError>
    requires root { root < graph.now.fpgas }
    requires lengths { length graph.now.wires ≤ Q.covered lengths.now }
    ensures root { IfOk result (λ forest. forest.root ≡ root) }
    ensures count { IfOk result (λ forest. length forest.distances ≡ graph.now.fpgas) }
    ensures least { IfOk result (IsLeastForest graph.now (Q.length lengths.now)) }
{
    let mut search = Search::new(alloc, graph)?;
    settle_all(&mut search, graph, root, lengths)?;
    let fpgas = graph.fpgas();
    let distances = distances_of(alloc, &search, fpgas)?;
    let parents = wires_of(alloc, &search, fpgas)?;
    Ok(Forest {
        root,
        distances,
        parents,
    })
}

/// Begins a search from FPGA `root` and settles all FPGAs that wires lead to: their distances are then the
/// least lengths of walks from the root, and the others have none. No FPGA is marked as a goal,
/// before or after, so the same workspace serves the next root, after want of memory too.
pub fn settle_all<Q: Lengths>(
    search: &mut Search,
    graph: &BoardGraph,
    root: u32,
    lengths: &Q,
) -> Result<(), AllocError>
    requires root { root < graph.now.fpgas }
    requires lengths { length graph.now.wires ≤ Q.covered lengths.now }
    requires count { length search.old.labels ≡ graph.now.fpgas }
    requires goals { search.old.goals ≡ replicate graph.now.fpgas false }
    ensures settled { OnOk result (IsAllSettled (board_of graph.now) (Q.length lengths.now) root search.new) }
    ensures exact { OnOk result ((f : ℕ) → f < graph.now.fpgas
        → MatchOption (distance_in (label_at search.new f)) (HasNoWalk (board_of graph.now) root f)
        (IsDistance (board_of graph.now) (Q.length lengths.now) root f)) }
    ensures goals { search.new.goals ≡ search.old.goals }
    ensures count { length search.new.labels ≡ length search.old.labels }
{
    let fpgas = graph.fpgas();
    search.begin();
    search.add_source(root)?;
    let _found = nearest_goal(search, graph, &BothWays(lengths), &NoBound, MOST_CAP)?;
    Ok(())
}

/// The distances that a search has found.
fn distances_of(alloc: Global, search: &Search, fpgas: u32) -> Result<Vec<Option<u64>>, AllocError>
    requires { length search.now.labels ≡ fpgas }
    ensures count { IfOk result (λ distances. length distances.items ≡ fpgas) }
    ensures exact { IfOk result (λ distances. (f : ℕ) → f < fpgas
        → slice_index_or distances.items f None ≡ distance_in (label_at search.now f)) }
{
    let mut distances = Vec::with_capacity(alloc, fpgas as usize)?;
    for f in 0..fpgas {
        distances.push(search.distance(f))?;
    }
    Ok(distances)
}

/// The wires by which the ways that a search has found enter.
fn wires_of(alloc: Global, search: &Search, fpgas: u32) -> Result<Vec<Option<u32>>, AllocError>
    requires { length search.now.labels ≡ fpgas }
    ensures count { IfOk result (λ wires. length wires.items ≡ fpgas) }
    ensures exact { IfOk result (λ wires. (f : ℕ) → f < fpgas
        → slice_index_or wires.items f None ≡ wire_in (label_at search.now f)) }
{
    let mut wires = Vec::with_capacity(alloc, fpgas as usize)?;
    for f in 0..fpgas {
        wires.push(search.wire(f))?;
    }
    Ok(wires)
}
