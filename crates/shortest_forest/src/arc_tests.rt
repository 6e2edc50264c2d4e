ghost use Rattle.std.specs.Prelude.{◌≡◌, ◌<◌, ◌≤◌, ◌-◌, ◌^◌, nat_lt, if◌then◌else◌};
ghost use Rattle.std.proofs.Common.{rules};

use crate::{
    ArcLengths, LowerBounds, MOST_CAP, NoBound, Search, last_goal, nearest_goal, way_back,
};
use board_graph::BoardGraph;
use std::alloc::{AllocError, Global};
use tdm_problem::{ProblemDraft, Wire};

/// Wires of length 1 to FPGAs of greater numbers, and 5 back.
#[derive(Drop)]
struct Slope;

impl ArcLengths for Slope {
    ghost arcs_covered = { λ _. 65536 };

    ghost arc_length = { λ _ _ from to. if nat_lt from to then 1 else 5 };

    ghost arc_limit = { Prim.search rules };

    fn arc_len(&self, _wire: u32, from: u32, to: u32) -> u64 {
        if from < to { 1 } else { 5 }
    }
}

/// As many wires as lead from an FPGA to FPGA 2 on a path, where none has a greater number.
#[derive(Drop)]
struct ByHops;

impl LowerBounds for ByHops {
    ghost bounds_covered = { λ _. 4096 };

    ghost lower_bound = { λ _ f. 2 - f };

    fn bound_of(&self, fpga: u32) -> u64 {
        if fpga < 2 { 2 - fpga as u64 } else { 0 }
    }
}

/// The distance of the nearer of two FPGAs from the nearer of two others, over arcs that are shorter to FPGAs
/// of greater numbers, and the wires of the way back. None where neither is nearer than the cap.
fn nearer_of_two<B: LowerBounds>(
    alloc: Global,
    graph: &BoardGraph,
    bounds: &B,
    from: (u32, u32),
    goals: (u32, u32),
    cap: u64,
    wires: &mut Vec<u32>,
) -> Result<Option<u64>, AllocError>
    requires bounds { graph.now.fpgas ≤ B.bounds_covered bounds.now }
    requires source { from.0 < graph.now.fpgas }
    requires other { from.1 < graph.now.fpgas }
    requires first { goals.0 < graph.now.fpgas }
    requires second { goals.1 < graph.now.fpgas }
    requires cap { cap ≤ 2 ^ 64 - 2 ^ 51 }
{
    let _wires = graph.wires();
    let mut search = Search::new(alloc, graph)?;
    search.begin();
    search.add_goal(goals.0);
    search.add_goal(goals.1);
    search.add_source(from.0)?;
    search.add_source(from.1)?;
    let Some(goal) = nearest_goal(&mut search, graph, &Slope, bounds, cap)? else {
        return Ok(None);
    };
    way_back(&search, graph, goal, wires)?;
    Ok(search.distance(goal))
}

/// The distance of the nearer of two FPGAs from another, by a search that ends there, over the same arcs.
/// None where neither is nearer than the cap.
fn end_at_nearer(
    alloc: Global,
    graph: &BoardGraph,
    from: u32,
    goals: (u32, u32),
    cap: u64,
) -> Result<Option<u64>, AllocError>
    requires few { graph.now.fpgas ≤ 4096 }
    requires source { from < graph.now.fpgas }
    requires first { goals.0 < graph.now.fpgas }
    requires second { goals.1 < graph.now.fpgas }
    requires cap { cap ≤ 2 ^ 64 - 2 ^ 51 }
{
    let _wires = graph.wires();
    let mut search = Search::new(alloc, graph)?;
    search.begin();
    search.add_goal(goals.0);
    search.add_goal(goals.1);
    search.add_source(from)?;
    let Some(goal) = last_goal(&mut search, graph, &Slope, cap)? else {
        return Ok(None);
    };
    Ok(search.distance(goal))
}

#[test]
fn a_search_ends_at_the_nearer_goal(rt: HostRuntime) {
    let mut draft = ProblemDraft::new(rt.alloc(), 4);
    assert!(rt; draft.push_wire(Wire { a: 0, b: 1 }).is_ok());
    assert!(rt; draft.push_wire(Wire { a: 1, b: 2 }).is_ok());
    assert!(rt; draft.push_wire(Wire { a: 2, b: 3 }).is_ok());
    let graph = BoardGraph::of(rt.alloc(), &draft.into_problem()).expect(&rt, "memory");
    assert_eq!(rt; graph.fpgas(), 4);
    let near = end_at_nearer(rt.alloc(), &graph, 1, (0, 3), MOST_CAP);
    assert!(rt; near.expect(&rt, "memory") == Some(2));
    let back = end_at_nearer(rt.alloc(), &graph, 3, (0, 2), 6);
    assert!(rt; back.expect(&rt, "memory") == Some(5));
    let at_cap = end_at_nearer(rt.alloc(), &graph, 1, (0, 3), 2);
    assert!(rt; at_cap.expect(&rt, "memory").is_none());
}

#[test]
fn arcs_are_longer_one_way(rt: HostRuntime) {
    let mut draft = ProblemDraft::new(rt.alloc(), 4);
    assert!(rt; draft.push_wire(Wire { a: 0, b: 1 }).is_ok());
    assert!(rt; draft.push_wire(Wire { a: 1, b: 2 }).is_ok());
    assert!(rt; draft.push_wire(Wire { a: 2, b: 3 }).is_ok());
    let graph = BoardGraph::of(rt.alloc(), &draft.into_problem()).expect(&rt, "memory");
    assert_eq!(rt; graph.fpgas(), 4);
    let mut wires = Vec::new(rt.alloc());
    let up = nearer_of_two(
        rt.alloc(),
        &graph,
        &NoBound,
        (1, 1),
        (0, 3),
        MOST_CAP,
        &mut wires,
    );
    assert!(rt; up.expect(&rt, "memory") == Some(2));
    assert!(rt; wires.as_slice() == [2, 1].as_slice());
    let down = nearer_of_two(
        rt.alloc(),
        &graph,
        &NoBound,
        (2, 2),
        (0, 1),
        MOST_CAP,
        &mut wires,
    );
    assert!(rt; down.expect(&rt, "memory") == Some(5));
    assert!(rt; wires.as_slice() == [2, 1, 1].as_slice());
}

#[test]
fn a_goal_at_the_cap_is_too_far(rt: HostRuntime) {
    let mut draft = ProblemDraft::new(rt.alloc(), 3);
    assert!(rt; draft.push_wire(Wire { a: 0, b: 1 }).is_ok());
    assert!(rt; draft.push_wire(Wire { a: 1, b: 2 }).is_ok());
    let graph = BoardGraph::of(rt.alloc(), &draft.into_problem()).expect(&rt, "memory");
    assert_eq!(rt; graph.fpgas(), 3);
    let mut wires = Vec::new(rt.alloc());
    let at_cap = nearer_of_two(rt.alloc(), &graph, &NoBound, (0, 0), (2, 2), 2, &mut wires);
    assert!(rt; at_cap.expect(&rt, "memory").is_none() && wires.is_empty());
    let below_cap = nearer_of_two(rt.alloc(), &graph, &NoBound, (0, 0), (2, 2), 3, &mut wires);
    assert!(rt; below_cap.expect(&rt, "memory") == Some(2));
}

#[test]
fn bounds_leave_out_what_reaches_the_cap(rt: HostRuntime) {
    let mut draft = ProblemDraft::new(rt.alloc(), 3);
    assert!(rt; draft.push_wire(Wire { a: 0, b: 1 }).is_ok());
    assert!(rt; draft.push_wire(Wire { a: 1, b: 2 }).is_ok());
    let graph = BoardGraph::of(rt.alloc(), &draft.into_problem()).expect(&rt, "memory");
    assert_eq!(rt; graph.fpgas(), 3);
    let mut wires = Vec::new(rt.alloc());
    let at_cap = nearer_of_two(rt.alloc(), &graph, &ByHops, (0, 0), (2, 2), 2, &mut wires);
    assert!(rt; at_cap.expect(&rt, "memory").is_none() && wires.is_empty());
    let below_cap = nearer_of_two(rt.alloc(), &graph, &ByHops, (0, 0), (2, 2), 3, &mut wires);
    assert!(rt; below_cap.expect(&rt, "memory") == Some(2));
    assert!(rt; wires.as_slice() == [1, 0].as_slice());
}

#[test]
fn the_way_begins_at_the_nearer_source(rt: HostRuntime) {
    let mut draft = ProblemDraft::new(rt.alloc(), 5);
    assert!(rt; draft.push_wire(Wire { a: 0, b: 1 }).is_ok());
    assert!(rt; draft.push_wire(Wire { a: 1, b: 2 }).is_ok());
    assert!(rt; draft.push_wire(Wire { a: 2, b: 3 }).is_ok());
    assert!(rt; draft.push_wire(Wire { a: 3, b: 4 }).is_ok());
    let graph = BoardGraph::of(rt.alloc(), &draft.into_problem()).expect(&rt, "memory");
    assert_eq!(rt; graph.fpgas(), 5);
    let mut wires = Vec::new(rt.alloc());
    let up = nearer_of_two(
        rt.alloc(),
        &graph,
        &NoBound,
        (0, 4),
        (2, 2),
        MOST_CAP,
        &mut wires,
    );
    assert!(rt; up.expect(&rt, "memory") == Some(2));
    assert!(rt; wires.as_slice() == [1, 0].as_slice());
}
