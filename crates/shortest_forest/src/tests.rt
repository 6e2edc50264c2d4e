use crate::{base_tree, hops};
use board_graph::BoardGraph;
use tdm_problem::{ProblemDraft, Wire};

#[test]
fn star_is_seen_from_one_of_its_arms(rt: HostRuntime) {
    let mut draft = ProblemDraft::new(rt.alloc(), 4);
    assert!(rt; draft.push_wire(Wire { a: 0, b: 1 }).is_ok());
    assert!(rt; draft.push_wire(Wire { a: 0, b: 2 }).is_ok());
    assert!(rt; draft.push_wire(Wire { a: 0, b: 3 }).is_ok());
    let graph = BoardGraph::of(rt.alloc(), &draft.into_problem()).expect(&rt, "memory");
    assert_eq!(rt; graph.fpgas(), 4);
    let forest = hops(rt.alloc(), &graph, 1).expect(&rt, "memory");
    assert_eq!(rt; forest.root(), 1);
    assert!(rt; forest.dist(0) == Some(1) && forest.parent_wire(0) == Some(0));
    assert!(rt; forest.dist(1) == Some(0) && forest.parent_wire(1).is_none());
    assert!(rt; forest.dist(2) == Some(2) && forest.parent_wire(2) == Some(1));
    assert!(rt; forest.dist(3) == Some(2) && forest.parent_wire(3) == Some(2));
    let tree = base_tree(rt.alloc(), &graph, &forest, &[1, 2, 3]).expect(&rt, "memory");
    let wires = tree.expect(&rt, "tree");
    assert!(rt; wires.as_slice() == [0, 1, 2].as_slice());
}

#[test]
fn no_tree_joins_two_parts_of_a_board(rt: HostRuntime) {
    let mut draft = ProblemDraft::new(rt.alloc(), 4);
    assert!(rt; draft.push_wire(Wire { a: 0, b: 1 }).is_ok());
    assert!(rt; draft.push_wire(Wire { a: 2, b: 3 }).is_ok());
    let graph = BoardGraph::of(rt.alloc(), &draft.into_problem()).expect(&rt, "memory");
    assert_eq!(rt; graph.fpgas(), 4);
    let forest = hops(rt.alloc(), &graph, 0).expect(&rt, "memory");
    assert_eq!(rt; forest.root(), 0);
    assert!(rt; forest.dist(2).is_none());
    let tree = base_tree(rt.alloc(), &graph, &forest, &[0, 2]).expect(&rt, "memory");
    assert!(rt; tree.is_none());
}
