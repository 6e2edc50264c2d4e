//! The search for the nearest goal over lengths of arcs.
ghost use Rattle.std.specs.Prelude.{◌≡◌, true, ◌+◌, ◌-◌, ◌^◌, ◌<◌, ◌≤◌, ℕ, length, IfOk, IfSome, IfNone, OnOk, ◌↔◌};
ghost use Rattle.board_graph.specs.Graph.{board_of, IsGraph};
ghost use Rattle.shortest_forest.specs.Labels.{IsSource, IsUnderWay, IsNearest, AreFar, IsPassing, IsReached, KeepsMarks, GoesOn};

use crate::lengths::{ArcLengths, LowerBounds};
use crate::search::Search;
use board_graph::BoardGraph;
use std::alloc::AllocError;

/// The greatest cap: no walk without repeats is so long, since a board has at most 4,096 FPGAs and an arc
/// is at most 2^51 long.
pub const MOST_CAP: u64 = u64::MAX - (1 << 51) + 1;

/// Goes on with the search until its nearest goal is settled, and answers it. None where nothing below
/// `cap` is left: where the bounds are true, no goal is nearer than that. Sources come first, the others in
/// the order of distance plus lower bound (Hart, Nilsson and Raphael, 1968), and those where this reaches the
/// cap are left out. [`Search::begin`] comes before the first call of a search. Within one search, the
/// lengths stay as they are, the cap may fall and bounds may rise. After want of memory the goals are as they
/// were, but the labels are those of no search: [`Search::begin`] comes before anything else is asked of
/// them.
pub fn nearest_goal<A: ArcLengths, B: LowerBounds>(
    search: &mut Search,
    graph: &BoardGraph,
    arcs: &A,
    bounds: &B,
    cap: u64,
) -> Result<Option<u32>, AllocError>
    requires arcs { length graph.now.wires ≤ A.arcs_covered arcs.now }
    requires bounds { graph.now.fpgas ≤ B.bounds_covered bounds.now }
    requires cap { cap ≤ 2 ^ 64 - 2 ^ 51 }
    requires under_way { IsUnderWay (board_of graph.now)
        (A.arc_length arcs.now) (B.lower_bound bounds.now) cap search.old }
    ensures under_way { OnOk result
        (IsUnderWay (board_of graph.now) (A.arc_length arcs.now) (B.lower_bound bounds.now) cap search.new) }
    ensures marks { KeepsMarks search.old search.new }
    ensures sources { OnOk result ((f : ℕ) → IsSource search.new f ↔ IsSource search.old f) }
    ensures found { IfOk result (λ found. IfSome found (IsNearest
        (board_of graph.now) (A.arc_length arcs.now) (B.lower_bound bounds.now) cap search.new)) }
    ensures far { IfOk result (λ found. IfNone found (AreFar
        (board_of graph.now) (A.arc_length arcs.now) (B.lower_bound bounds.now) cap search.new)) }
{
    while let Some(next) = search.first() {
        let key = next.0;
        let f = next.1;
        if key >= cap {
            return Ok(None);
        }
        let distance = search.distance(f).unwrap_or(0);
        let bound = bounds.bound_of(f);
        if bound >= cap - distance {
            search.take();
        } else if distance + bound < key {
            search.take();
        } else if is_early(key, distance, bound) {
            search.take();
            search.queue_again(f, distance + bound)?;
        } else if search.is_goal(f) {
            return Ok(Some(f));
        } else {
            search.take();
            pass(search, graph, arcs, bounds, cap, f, distance)?;
        }
    }
    Ok(None)
}

/// Whether an FPGA at this distance is taken from the queue before its turn. A source is not, whatever its
/// key: its distance cannot fall.
fn is_early(key: u64, distance: u64, bound: u64) -> bool
    requires { distance + bound < 2 ^ 64 }
    ensures { result ≡ true → key < distance + bound }
{
    distance > 0 && key < distance + bound
}

/// Gives shorter labels along the arcs from FPGA `f`, which has this distance.
fn pass<A: ArcLengths, B: LowerBounds>(
    search: &mut Search,
    graph: &BoardGraph,
    arcs: &A,
    bounds: &B,
    cap: u64,
    f: u32,
    distance: u64,
) -> Result<(), AllocError>
    requires arcs { length graph.now.wires ≤ A.arcs_covered arcs.now }
    requires bounds { graph.now.fpgas ≤ B.bounds_covered bounds.now }
    requires small { distance < 2 ^ 64 - 2 ^ 51 }
    requires there { f < graph.now.fpgas }
    requires passing { IsPassing (board_of graph.now)
        (A.arc_length arcs.now) (B.lower_bound bounds.now) cap f distance search.old }
    ensures under_way { OnOk result
        (IsUnderWay (board_of graph.now) (A.arc_length arcs.now) (B.lower_bound bounds.now) cap search.new) }
    ensures marks { KeepsMarks search.old search.new }
    ensures on { OnOk result (GoesOn search.old search.new) }
{
    for neighbour in graph.neighbours(f) {
        let length = arcs.arc_len(neighbour.wire, f, neighbour.fpga);
        let far = distance + length;
        reach(search, neighbour.fpga, neighbour.wire, far, bounds, cap)?;
    }
    Ok(())
}

/// Gives an FPGA this distance and the wire by which the way enters it, if that is shorter than its label,
/// and below the cap with the lower bound.
pub(crate) fn reach<B: LowerBounds>(
    search: &mut Search,
    fpga: u32,
    wire: u32,
    distance: u64,
    bounds: &B,
    cap: u64,
) -> Result<(), AllocError>
    requires there { fpga < length search.old.labels }
    requires bounds { fpga < B.bounds_covered bounds.now }
    ensures reached { OnOk result
        (IsReached (B.lower_bound bounds.now) cap fpga wire distance search.old search.new) }
    ensures marks { KeepsMarks search.old search.new }
{
    if distance >= cap {
        return Ok(());
    }
    if let Some(near) = search.distance(fpga) {
        if near <= distance {
            return Ok(());
        }
    }
    let bound = bounds.bound_of(fpga);
    if bound >= cap - distance {
        return Ok(());
    }
    search.lower(fpga, distance, Some(wire), distance + bound)?;
    Ok(())
}
