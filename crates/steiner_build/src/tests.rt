ghost use Rattle.std.specs.Prelude.{◌≡◌, ◌-◌, ◌^◌, ◌<◌, ◌≤◌, length, IfOk};

use crate::{BuildFault, TreeBounds, TreeBuilder, build};
use board_graph::BoardGraph;
use shortest_forest::{Lengths, LowerBounds, MOST_CAP, NoBound};
use std::alloc::{AllocError, Global};
use tdm_problem::{ProblemDraft, Wire};

/// Each wire is as long as its number.
struct ByNumber;

impl Lengths for ByNumber {
    ghost use Rattle.std.specs.Prelude.{◌^◌};
    ghost use Rattle.std.proofs.Common.{arith};

    ghost covered = { λ _. 2 ^ 16 };

    ghost length = { λ _ e. e };

    ghost limit = { λ s e below. Prim.omega arith };

    fn len_of(&self, wire: u32) -> u64 {
        wire as u64
    }
}

/// All wires are equally long, and no longer than a wire may be.
#[derive(Drop)]
struct Alike(u64);

impl Lengths for Alike {
    ghost use Rattle.std.specs.Prelude.{◌^◌, min};
    ghost use Rattle.std.proofs.Common.{rules};

    ghost covered = { λ _. 2 ^ 16 };

    ghost length = { λ s _. min s.0 (2 ^ 51) };

    ghost limit = { Prim.search rules };

    fn len_of(&self, _wire: u32) -> u64 {
        self.0.min(1 << 51)
    }
}

/// FPGA 2 is a terminal, and at least one wire leads to it from every other.
#[derive(Drop)]
struct OneFromElsewhere;

impl LowerBounds for OneFromElsewhere {
    ghost use Rattle.std.specs.Prelude.{nat_eq, if◌then◌else◌};

    ghost bounds_covered = { λ _. 4096 };

    ghost lower_bound = { λ _ f. if nat_eq f 2 then 0 else 1 };

    fn bound_of(&self, fpga: u32) -> u64 {
        if fpga == 2 { 0 } else { 1 }
    }
}

impl TreeBounds for OneFromElsewhere {
    ghost use Rattle.std.specs.Prelude.{nat_eq, if◌then◌else◌};
    ghost use Rattle.shortest_forest.specs.Arcs.{IsLowerBound, both_ways};

    ghost are_true = { λ _ board wire_length goals.
        IsLowerBound board (both_ways wire_length) goals (λ f. if nat_eq f 2 then 0 else 1) };

    ghost below = { λ _ _ _ _ true. true };

    fn join(&mut self, _terminal: u32) {}
}

/// Wire 1 is long, and wire 3 is longer than wire 0.
struct Uneven;

impl Lengths for Uneven {
    ghost use Rattle.std.specs.Prelude.{◌^◌, nat_eq, if◌then◌else◌};
    ghost use Rattle.std.proofs.Common.{rules};

    ghost covered = { λ _. 2 ^ 16 };

    ghost length = { λ _ e. if nat_eq e 1 then 9 else if nat_eq e 3 then 2 else 1 };

    ghost limit = { Prim.search rules };

    fn len_of(&self, wire: u32) -> u64 {
        if wire == 1 {
            9
        } else if wire == 3 {
            2
        } else {
            1
        }
    }
}

/// Three arms.
fn star(alloc: Global) -> Result<BoardGraph, AllocError> {
    let mut draft = ProblemDraft::new(alloc, 4);
    draft.push_wire(Wire { a: 0, b: 1 })?;
    draft.push_wire(Wire { a: 0, b: 2 })?;
    draft.push_wire(Wire { a: 0, b: 3 })?;
    BoardGraph::of(alloc, &draft.into_problem())
}

/// Two wires apart.
fn split(alloc: Global) -> Result<BoardGraph, AllocError> {
    let mut draft = ProblemDraft::new(alloc, 4);
    draft.push_wire(Wire { a: 0, b: 1 })?;
    draft.push_wire(Wire { a: 2, b: 3 })?;
    BoardGraph::of(alloc, &draft.into_problem())
}

/// A ring of four, whose wire 3 leads from its last FPGA to its first.
fn ring(alloc: Global) -> Result<BoardGraph, AllocError> {
    let mut draft = ProblemDraft::new(alloc, 4);
    draft.push_wire(Wire { a: 0, b: 1 })?;
    draft.push_wire(Wire { a: 1, b: 2 })?;
    draft.push_wire(Wire { a: 2, b: 3 })?;
    draft.push_wire(Wire { a: 3, b: 0 })?;
    BoardGraph::of(alloc, &draft.into_problem())
}

/// A path of 4,096 FPGAs.
fn longest_path(alloc: Global) -> Result<BoardGraph, AllocError>
    ensures fpgas { IfOk result (λ graph. graph.fpgas ≡ 4096) }
    ensures wires { IfOk result (λ graph. length graph.wires ≡ 4095) }
{
    let mut draft = ProblemDraft::new(alloc, 4096);
    for f in 0..4095 {
        draft.push_wire(Wire { a: f, b: f + 1 })?;
    }
    BoardGraph::of(alloc, &draft.into_problem())
}

#[test]
fn star_is_joined_by_its_arms(rt: HostRuntime) {
    let graph = star(rt.alloc()).expect(&rt, "memory");
    assert_eq!(rt; graph.fpgas(), 4);
    assert_eq!(rt; graph.wires(), 3);
    let wires = build(rt.alloc(), &graph, &[1, 2, 3], &Alike(1)).expect(&rt, "tree");
    assert!(rt; wires.as_slice() == [0, 1, 2].as_slice());
    let free = build(rt.alloc(), &graph, &[1, 2, 3], &Alike(0)).expect(&rt, "tree");
    assert!(rt; free.as_slice() == [0, 1, 2].as_slice());
    let alone = build(rt.alloc(), &graph, &[2], &Alike(1)).expect(&rt, "tree");
    assert!(rt; alone.is_empty());
}

#[test]
fn terminals_apart_are_not_connectable(rt: HostRuntime) {
    let graph = split(rt.alloc()).expect(&rt, "memory");
    assert_eq!(rt; graph.fpgas(), 4);
    assert_eq!(rt; graph.wires(), 2);
    let tree = build(rt.alloc(), &graph, &[0, 2], &Alike(1));
    assert!(rt; tree == Err(BuildFault::NotConnectable));
}

#[test]
fn caps_are_passed_by_no_tree(rt: HostRuntime) {
    let graph = ring(rt.alloc()).expect(&rt, "memory");
    assert_eq!(rt; graph.fpgas(), 4);
    assert_eq!(rt; graph.wires(), 4);
    let mut builder = TreeBuilder::new(rt.alloc(), &graph).expect(&rt, "memory");
    let pair = builder.grow(&graph, &ByNumber, &mut NoBound, &[0, 2], 0, MOST_CAP);
    assert!(rt; pair == Ok(Some(1)));
    assert!(rt; builder.wires() == [0, 1].as_slice());
    assert!(rt; builder.grow(&graph, &ByNumber, &mut NoBound, &[0, 2], 2, 1) == Ok(None));
    assert!(rt; builder.grow(&graph, &ByNumber, &mut NoBound, &[0, 2], 2, 2) == Ok(Some(1)));
    assert!(rt; builder.grow(&graph, &ByNumber, &mut NoBound, &[0, 1, 3], 0, 3) == Ok(None));
    assert!(rt; builder.grow(&graph, &ByNumber, &mut NoBound, &[0, 1, 2], 2, 2) == Ok(Some(1)));
    assert!(rt; builder.wires() == [0, 1].as_slice());
}

/// Grows a tree of FPGAs 0 and 2 from the first, with bounds, where all wires are 1 long.
fn grow_pair(
    builder: &mut TreeBuilder,
    graph: &BoardGraph,
    cap: u64,
) -> Result<Option<u64>, AllocError>
    requires graph { builder.old.fpgas ≡ graph.now.fpgas }
    requires there { 2 < graph.now.fpgas }
    requires cap { cap ≤ 2 ^ 64 - 2 ^ 51 }
    ensures { builder.new.fpgas ≡ builder.old.fpgas }
{
    let _wires = graph.wires();
    builder.grow(graph, &Alike(1), &mut OneFromElsewhere, &[0, 2], 0, cap)
}

#[test]
fn bounds_leave_out_what_reaches_the_cap(rt: HostRuntime) {
    let graph = ring(rt.alloc()).expect(&rt, "memory");
    assert_eq!(rt; graph.fpgas(), 4);
    let mut builder = TreeBuilder::new(rt.alloc(), &graph).expect(&rt, "memory");
    assert!(rt; grow_pair(&mut builder, &graph, 2) == Ok(None));
    assert!(rt; grow_pair(&mut builder, &graph, 3) == Ok(Some(2)));
    assert_eq!(rt; builder.wires().len(), 2);
}

#[test]
fn a_least_path_may_begin_with_a_longer_wire(rt: HostRuntime) {
    let graph = ring(rt.alloc()).expect(&rt, "memory");
    assert_eq!(rt; graph.fpgas(), 4);
    assert_eq!(rt; graph.wires(), 4);
    let pair = build(rt.alloc(), &graph, &[0, 2], &Uneven).expect(&rt, "tree");
    assert!(rt; pair.as_slice() == [2, 3].as_slice());
}

#[test]
fn the_longest_tree_has_an_exact_length(rt: HostRuntime) {
    let graph = longest_path(rt.alloc()).expect(&rt, "memory");
    let mut builder = TreeBuilder::new(rt.alloc(), &graph).expect(&rt, "memory");
    let longest = Alike(1 << 51);
    let ends = builder.grow(&graph, &longest, &mut NoBound, &[0, 4095], 4095, MOST_CAP);
    assert!(rt; ends == Ok(Some(4095 << 51)));
    let wires = builder.into_wires();
    assert!(rt; wires.len() == 4095 && wires[0] == 0 && wires[4094] == 4094);
}
