//! The search for the nearest goal that ends there.
ghost use Rattle.std.specs.Prelude.{◌≡◌, ◌⊎◌, ◌+◌, ◌-◌, ◌^◌, ◌<◌, ◌≤◌, ℕ, length, IfOk, IfSome, IfNone, OnOk, ◌↔◌};
ghost use Rattle.board_graph.specs.Graph.{board_of};
ghost use Rattle.shortest_forest.specs.Arcs.{IsGoal};
ghost use Rattle.shortest_forest.specs.Labels.{IsSource, IsUnderWay, IsPassing, IsReached, KeepsMarks, GoesOn};
ghost use Rattle.shortest_forest.specs.LastGoal.{IsLimited, EndsAt, EndsFar};

use crate::lengths::{ArcLengths, NoBound};
use crate::nearest::reach;
use crate::search::Search;
use board_graph::BoardGraph;
use std::alloc::AllocError;

/// Goes on with the search until its nearest goal is settled, and answers it, as
/// [`nearest_goal`](crate::nearest_goal) does without bounds; None where no goal is nearer than `cap`. What
/// is farther than a goal that has a label is left out, so nothing is known behind the nearest goal, and
/// [`Search::begin`] comes before the next call. After want of memory the goals are as they were, but the
/// labels are those of no search.
pub fn last_goal<A: ArcLengths>(
    search: &mut Search,
    graph: &BoardGraph,
    arcs: &A,
    cap: u64,
) -> Result<Option<u32>, AllocError>
    requires arcs { length graph.now.wires ≤ A.arcs_covered arcs.now }
    requires few { graph.now.fpgas ≤ 4096 }
    requires cap { cap ≤ 2 ^ 64 - 2 ^ 51 }
    requires under_way { IsUnderWay (board_of graph.now) (A.arc_length arcs.now) (λ _. 0) cap search.old }
    ensures marks { KeepsMarks search.old search.new }
    ensures sources { OnOk result ((f : ℕ) → IsSource search.new f ↔ IsSource search.old f) }
    ensures found { IfOk result (λ found. IfSome found
        (EndsAt (board_of graph.now) (A.arc_length arcs.now) cap search.new)) }
    ensures far { IfOk result (λ found. IfNone found
        (EndsFar (board_of graph.now) (A.arc_length arcs.now) cap search.new)) }
{
    let mut limit = cap;
    while let Some(next) = search.first() {
        let key = next.0;
        let f = next.1;
        if key >= limit {
            return Ok(None);
        }
        let distance = search.distance(f).unwrap_or(0);
        if distance < key {
            search.take();
        } else if search.is_goal(f) {
            return Ok(Some(f));
        } else {
            search.take();
            limit = pass_below(search, graph, arcs, limit, f, distance)?;
        }
    }
    Ok(None)
}

/// Gives shorter labels along the arcs from FPGA `f`, which has this distance, and answers the limit that
/// these leave: a goal among them is nearer than that.
fn pass_below<A: ArcLengths>(
    search: &mut Search,
    graph: &BoardGraph,
    arcs: &A,
    cap: u64,
    f: u32,
    distance: u64,
) -> Result<u64, AllocError>
    requires arcs { length graph.now.wires ≤ A.arcs_covered arcs.now }
    requires few { graph.now.fpgas ≤ 4096 }
    requires cap { cap ≤ 2 ^ 64 - 2 ^ 51 }
    requires small { distance < 2 ^ 64 - 2 ^ 51 }
    requires there { f < graph.now.fpgas }
    requires passing { IsPassing (board_of graph.now)
        (A.arc_length arcs.now) (λ _. 0) cap f distance search.old }
    ensures marks { KeepsMarks search.old search.new }
    ensures falls { IfOk result (λ limit. limit ≤ cap) }
    ensures under_way { IfOk result (λ limit.
        IsUnderWay (board_of graph.now) (A.arc_length arcs.now) (λ _. 0) limit search.new) }
    ensures on { OnOk result (GoesOn search.old search.new) }
    ensures limited { IfOk result (λ limit. (whole : ℕ) → IsLimited whole cap search.old
        → IsLimited whole limit search.new) }
{
    let mut limit = cap;
    for neighbour in graph.neighbours(f) {
        let length = arcs.arc_len(neighbour.wire, f, neighbour.fpga);
        let far = distance + length;
        limit = reach_below(search, neighbour.fpga, neighbour.wire, far, limit)?;
    }
    Ok(limit)
}

/// Gives an FPGA this distance and the wire by which the way enters it, if that is shorter than its label,
/// and below the limit, and answers the limit that this leaves.
fn reach_below(
    search: &mut Search,
    fpga: u32,
    wire: u32,
    distance: u64,
    limit: u64,
) -> Result<u64, AllocError>
    requires there { fpga < length search.old.labels }
    requires marks { length search.old.goals ≡ length search.old.labels }
    requires few { fpga < 4096 }
    ensures reached { OnOk result (IsReached (λ _. 0) limit fpga wire distance search.old search.new) }
    ensures limit { IfOk result (λ left. (left ≡ limit)
        ⊎ (IsGoal search.new.goals fpga × (distance < limit) × (left ≡ distance + 1))) }
    ensures marks { KeepsMarks search.old search.new }
{
    reach(search, fpga, wire, distance, &NoBound, limit)?;
    if distance >= limit || !search.is_goal(fpga) {
        return Ok(limit);
    }
    Ok(distance + 1)
}
