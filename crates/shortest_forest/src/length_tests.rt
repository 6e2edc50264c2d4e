ghost use Rattle.std.specs.Prelude.{◌≡◌, ◌^◌, min, length, slice_index, IfOk};
ghost use Rattle.std.proofs.Common.{rules};

use crate::{Lengths, Search, forest, settle_all};
use board_graph::BoardGraph;
use std::alloc::{AllocError, Global};
use tdm_problem::{ProblemDraft, Wire};

/// Three lengths, the greatest length in place of a greater one.
#[derive(Drop)]
struct Three([u64; 3]);

impl Lengths for Three {
    ghost covered = { λ _. 3 };

    ghost length = { λ s e. min (slice_index s.0 e) (2 ^ 51) };

    ghost limit = { Prim.search rules };

    fn len_of(&self, wire: u32) -> u64 {
        self.0[wire as usize].min(1 << 51)
    }
}

/// All wires are as long as a wire may be.
#[derive(Drop)]
struct Longest;

impl Lengths for Longest {
    ghost covered = { λ _. 65536 };

    ghost length = { λ _ _. 2 ^ 51 };

    ghost limit = { Prim.search rules };

    fn len_of(&self, _wire: u32) -> u64 {
        1 << 51
    }
}

#[test]
fn two_short_wires_beat_a_long_one(rt: HostRuntime) {
    let mut draft = ProblemDraft::new(rt.alloc(), 3);
    assert!(rt; draft.push_wire(Wire { a: 0, b: 1 }).is_ok());
    assert!(rt; draft.push_wire(Wire { a: 1, b: 2 }).is_ok());
    assert!(rt; draft.push_wire(Wire { a: 0, b: 2 }).is_ok());
    let graph = BoardGraph::of(rt.alloc(), &draft.into_problem()).expect(&rt, "memory");
    assert_eq!(rt; graph.fpgas(), 3);
    assert_eq!(rt; graph.wires(), 3);
    let least = forest(rt.alloc(), &graph, 0, &Three([1, 1, 5])).expect(&rt, "memory");
    assert!(rt; least.dist(0) == Some(0) && least.parent_wire(0).is_none());
    assert!(rt; least.dist(1) == Some(1) && least.parent_wire(1) == Some(0));
    assert!(rt; least.dist(2) == Some(2) && least.parent_wire(2) == Some(1));
    let dearer_first = forest(rt.alloc(), &graph, 0, &Three([2, 9, 3])).expect(&rt, "memory");
    assert!(rt; dearer_first.dist(2) == Some(3) && dearer_first.parent_wire(2) == Some(2));
    assert!(rt; dearer_first.dist(1) == Some(2) && dearer_first.parent_wire(1) == Some(0));
}

#[test]
fn lengths_of_0_lead_to_the_root(rt: HostRuntime) {
    let mut draft = ProblemDraft::new(rt.alloc(), 4);
    assert!(rt; draft.push_wire(Wire { a: 0, b: 1 }).is_ok());
    assert!(rt; draft.push_wire(Wire { a: 0, b: 2 }).is_ok());
    assert!(rt; draft.push_wire(Wire { a: 0, b: 3 }).is_ok());
    let graph = BoardGraph::of(rt.alloc(), &draft.into_problem()).expect(&rt, "memory");
    assert_eq!(rt; graph.fpgas(), 4);
    assert_eq!(rt; graph.wires(), 3);
    let least = forest(rt.alloc(), &graph, 1, &Three([0, 0, 0])).expect(&rt, "memory");
    assert!(rt; least.dist(0) == Some(0) && least.parent_wire(0) == Some(0));
    assert!(rt; least.dist(1) == Some(0) && least.parent_wire(1).is_none());
    assert!(rt; least.dist(2) == Some(0) && least.parent_wire(2) == Some(1));
    assert!(rt; least.dist(3) == Some(0) && least.parent_wire(3) == Some(2));
}

/// A path of 4,096 FPGAs.
fn longest_path(alloc: Global) -> Result<BoardGraph, AllocError>
    ensures fpgas { IfOk result (λ graph. graph.fpgas ≡ 4096) }
    ensures wires { IfOk result (λ graph. length graph.wires ≡ 4095) }
{
    let mut draft = ProblemDraft::new(alloc, 4096);
    for f in 0..4095 {
        draft.push_wire(Wire { a: f, b: f + 1 })?;
    }
    BoardGraph::of(alloc, &draft.into_problem())
}

#[test]
fn sums_of_the_greatest_lengths_are_exact(rt: HostRuntime) {
    let graph = longest_path(rt.alloc()).expect(&rt, "memory");
    let least = forest(rt.alloc(), &graph, 0, &Longest).expect(&rt, "memory");
    assert!(rt; least.dist(1) == Some(1 << 51) && least.parent_wire(1) == Some(0));
    assert!(rt; least.dist(4095) == Some(4095 << 51) && least.parent_wire(4095) == Some(4094));
}

#[test]
fn two_fpgas_apart_have_no_distance(rt: HostRuntime) {
    let mut draft = ProblemDraft::new(rt.alloc(), 3);
    assert!(rt; draft.push_wire(Wire { a: 0, b: 1 }).is_ok());
    let graph = BoardGraph::of(rt.alloc(), &draft.into_problem()).expect(&rt, "memory");
    assert_eq!(rt; graph.fpgas(), 3);
    assert_eq!(rt; graph.wires(), 1);
    let least = forest(rt.alloc(), &graph, 0, &Three([7, 0, 0])).expect(&rt, "memory");
    assert!(rt; least.dist(1) == Some(7));
    assert!(rt; least.dist(2).is_none() && least.parent_wire(2).is_none());
}

#[test]
fn one_workspace_serves_both_roots(rt: HostRuntime) {
    let mut draft = ProblemDraft::new(rt.alloc(), 3);
    assert!(rt; draft.push_wire(Wire { a: 0, b: 1 }).is_ok());
    assert!(rt; draft.push_wire(Wire { a: 1, b: 2 }).is_ok());
    let graph = BoardGraph::of(rt.alloc(), &draft.into_problem()).expect(&rt, "memory");
    assert_eq!(rt; graph.fpgas(), 3);
    assert_eq!(rt; graph.wires(), 2);
    let mut search = Search::new(rt.alloc(), &graph).expect(&rt, "memory");
    assert!(rt; settle_all(&mut search, &graph, 0, &Three([1, 4, 0])).is_ok());
    assert!(rt; search.distance(2) == Some(5) && search.wire(2) == Some(1));
    assert!(rt; settle_all(&mut search, &graph, 2, &Three([1, 4, 0])).is_ok());
    assert!(rt; search.distance(2) == Some(0) && search.wire(2).is_none());
    assert!(rt; search.distance(0) == Some(5) && search.wire(0) == Some(0));
}
