//! The breadth-first search for least numbers of hops.
ghost use Rattle.std.specs.Prelude.{◌≡◌, ◌<◌, ◌+◌, ℕ, length, slice_index, slice_index_or, None, IfOk, OnOk, MatchOption, IsTrue, ◌↔◌, Some};
ghost use Rattle.board_graph.specs.Graph.{board_of};
ghost use Rattle.shortest_forest.specs.Reach.{AreHops};
ghost use Rattle.shortest_forest.specs.BreadthFirst.{IsAt, IsSearch, IsReached, LeadsNearer, IsFirstNearer};

use board_graph::BoardGraph;
use std::alloc::{AllocError, Global};

/// The least number of hops from FPGA `source` to each FPGA, None where no wires lead.
pub(crate) fn distances_from(
    alloc: Global,
    graph: &BoardGraph,
    source: u32,
) -> Result<Vec<Option<u64>>, AllocError>
    requires { source < graph.now.fpgas }
    ensures hops { IfOk result (λ distances. AreHops (board_of graph.now) source distances.items) }
    ensures few { IfOk result (λ distances. (f d : ℕ) → IsAt distances.items f d → d < graph.now.fpgas) }
{
    let fpgas = graph.fpgas() as usize;
    let mut distances = vec![in alloc; None; fpgas]?;
    let mut queue = Vec::with_capacity(alloc, fpgas)?;
    reach(source, 0, &mut distances, &mut queue)?;
    let mut head = 0;
    while head < queue.len() {
        pass(graph, head, &mut distances, &mut queue)?;
        head += 1;
    }
    Ok(distances)
}

/// Reaches all neighbours of the FPGA that stands in the queue at `head`.
fn pass(
    graph: &BoardGraph,
    head: usize,
    distances: &mut Vec<Option<u64>>,
    queue: &mut Vec<u32>,
) -> Result<(), AllocError>
    requires search { IsSearch (board_of graph.now) distances.old.items queue.old.items head }
    requires waiting { head < length queue.old.items }
    ensures search { OnOk result (IsSearch (board_of graph.now) distances.new.items queue.new.items
        (head + 1)) }
    ensures first { OnOk result (slice_index queue.new.items 0 ≡ slice_index queue.old.items 0) }
{
    let f = queue[head];
    let next = distances[f as usize].unwrap_or(0) + 1;
    for neighbour in graph.neighbours(f) {
        reach(neighbour.fpga, next, distances, queue)?;
    }
    Ok(())
}

/// Gives FPGA `f` a distance and queues it, unless it has a distance.
fn reach(
    f: u32,
    distance: u64,
    distances: &mut Vec<Option<u64>>,
    queue: &mut Vec<u32>,
) -> Result<(), AllocError>
    requires { f < length distances.old.items }
    ensures { OnOk result (IsReached f distance distances.old.items distances.new.items queue.old.items
        queue.new.items) }
{
    if distances[f as usize].is_none() {
        queue.push(f)?;
        distances[f as usize] = Some(distance);
    }
    Ok(())
}

/// The wire of the least number that leads from FPGA `f` to one that is one hop nearer.
pub(crate) fn nearer_wire(graph: &BoardGraph, distances: &[Option<u64>], f: u32) -> Option<u32>
    requires there { f < graph.now.fpgas }
    requires count { length distances.now ≡ graph.now.fpgas }
    ensures { MatchOption result ((e d : ℕ) → ¬ LeadsNearer (board_of graph.now) distances.now f e d)
        (λ e. IsFirstNearer (board_of graph.now) distances.now f e) }
{
    let distance = distances[f as usize]?;
    for neighbour in graph.neighbours(f) {
        if is_one_less(distances[neighbour.fpga as usize], distance) {
            return Some(neighbour.wire);
        }
    }
    None
}

/// Whether `nearer` is a distance one less than `distance`.
fn is_one_less(nearer: Option<u64>, distance: u64) -> bool
    ensures { IsTrue result ↔ ((d : ℕ) × (nearer ≡ Some d) × (d + 1 ≡ distance)) }
{
    match nearer {
        Some(d) => d < distance && distance - d == 1,
        None => false,
    }
}
