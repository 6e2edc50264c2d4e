//! Baseline trees: the parent chains of a net's FPGAs, taken together.
ghost use Rattle.std.specs.Prelude.{◌≡◌, ◌<◌, ◌⊎◌, ℕ, Bool, List, [], length, true, false, All, Contains, IsSome, IfOk, OnOk, IfNone, IfSome, OnSome};
ghost use Rattle.tdm_problem.specs.Board.{Board};
ghost use Rattle.tdm_problem.specs.Walk.{IsConnectable, IsMinimalTree};
ghost use Rattle.board_graph.specs.Graph.{graph_of, board_of};
ghost use Rattle.shortest_forest.specs.Baseline.{IsBaseTree, IsParentChain};
ghost use Rattle.shortest_forest.specs.Reach.{distance_of, IsHopForest};
ghost use Rattle.shortest_forest.specs.Climb.{IsMarked, IsCollected};

use crate::hop_forest::Forest;
use crate::marks::Marks;
use crate::wire_ends::other_end;
use board_graph::BoardGraph;
use std::alloc::{AllocError, Global};
use std::marker::Model;

/// Builds baseline trees on one graph. It is made once, and its memory serves every tree: a call allocates
/// only where a tree is larger than any before.
#[derive(Drop)]
pub struct BaseTrees {
    marks: Marks,
    wires: Vec<u32>,
}

impl Model for BaseTrees {
    ghost use Rattle.std.specs.Prelude.{length};
    ghost use Rattle.shortest_forest.specs.Climb.{BaseBuilder};

    ghost Value = { BaseBuilder };

    ghost view = { λ b. record { fpgas = length b.marks; wires = b.wires.items } };
}

impl BaseTrees {
    /// A builder for a graph.
    pub fn new(alloc: Global, graph: &BoardGraph) -> Result<BaseTrees, AllocError>
        ensures { IfOk result (λ trees. trees.fpgas ≡ graph.now.fpgas) }
    {
        let marks = Marks::new(alloc, graph)?;
        Ok(BaseTrees {
            marks,
            wires: Vec::new(alloc),
        })
    }

    /// The wires of the tree that was built last, rising.
    pub fn wires(&self) -> &[u32]
        ensures { result.now ≡ self.now.wires }
    {
        &self.wires
    }

    /// The wires of the tree that was built last, rising.
    pub fn into_wires(self) -> Vec<u32>
        ensures { result.items ≡ self.wires }
    {
        self.wires
    }

    /// Builds the baseline tree of `terminals`: the parent chains of all of them to the root. False where all
    /// wires of the graph together do not join them; the wires say nothing then, nor after want of memory,
    /// but the builder may be used again. The forest is what [`crate::hops`] answers on the graph that the
    /// builder was made for, the terminals are FPGAs of it, and the forest's root is one of them.
    pub fn build(
        &mut self,
        graph: &BoardGraph,
        forest: &Forest,
        terminals: &[u32],
    ) -> Result<bool, AllocError>
        requires graph { self.old.fpgas ≡ graph.now.fpgas }
        requires hops { IsHopForest graph.now forest.now }
        requires there { All (λ t. t < graph.now.fpgas) terminals.now }
        requires rooted { Contains terminals.now forest.now.root }
        ensures fpgas { self.new.fpgas ≡ self.old.fpgas }
        ensures none { IfOk result (λ built. built ≡ false → (board : Board) → graph.now ≡ graph_of board
            → ¬ IsConnectable board terminals.now) }
        ensures some { IfOk result (λ built. built ≡ true → (board : Board) → graph.now ≡ graph_of board
            → IsConnectable board terminals.now) }
        ensures base { IfOk result (λ built. built ≡ true → (board : Board) → graph.now ≡ graph_of board
            → IsBaseTree board forest.now.root terminals.now self.new.wires) }
        ensures minimal { IfOk result (λ built. built ≡ true → (board : Board) → graph.now ≡ graph_of board
            → IsMinimalTree board self.new.wires terminals.now) }
    {
        let _fpgas = graph.fpgas();
        self.marks.clear();
        self.wires.clear();
        for t in terminals {
            if forest.dist(*t).is_none() {
                return Ok(false);
            }
            climb(graph, forest, *t, &mut self.marks, &mut self.wires)?;
        }
        self.wires.sort_unstable();
        Ok(true)
    }
}

/// The baseline tree of `terminals`, wires rising: the parent chains of all of them to the root. None where
/// all wires of the graph together do not join them. The forest is what [`crate::hops`] answers on this
/// graph, the terminals are FPGAs of it, and the forest's root is one of them.
pub fn base_tree(
    alloc: Global,
    graph: &BoardGraph,
    forest: &Forest,
    terminals: &[u32],
) -> Result<Option<Vec<u32>>, AllocError>
    requires hops { IsHopForest graph.now forest.now }
    requires there { All (λ t. t < graph.now.fpgas) terminals.now }
    requires rooted { Contains terminals.now forest.now.root }
    ensures none { IfOk result (λ tree. IfNone tree ((board : Board) → graph.now ≡ graph_of board
        → ¬ IsConnectable board terminals.now)) }
    ensures some { IfOk result (λ tree. OnSome tree ((board : Board) → graph.now ≡ graph_of board
        → IsConnectable board terminals.now)) }
    ensures base { IfOk result (λ tree. IfSome tree (λ wires. (board : Board) → graph.now ≡ graph_of board
        → IsBaseTree board forest.now.root terminals.now wires.items)) }
    ensures minimal { IfOk result (λ tree. IfSome tree (λ wires. (board : Board) → graph.now ≡ graph_of board
        → IsMinimalTree board wires.items terminals.now)) }
{
    let mut trees = BaseTrees::new(alloc, graph)?;
    if trees.build(graph, forest, terminals)? {
        Ok(Some(trees.into_wires()))
    } else {
        Ok(None)
    }
}

/// Marks the FPGAs on the way from one of them to the root, up to the first that is marked already, and
/// collects their parent wires.
fn climb(
    graph: &BoardGraph,
    forest: &Forest,
    from: u32,
    marks: &mut Marks,
    wires: &mut Vec<u32>,
) -> Result<(), AllocError>
    requires hops { IsHopForest graph.now forest.now }
    requires there { from < graph.now.fpgas }
    requires reached { IsSome (distance_of forest.now from) }
    requires collected { IsCollected (board_of graph.now) forest.now marks.old wires.old.items
        (IsMarked marks.old) }
    ensures collected { OnOk result (IsCollected
        (board_of graph.now) forest.now marks.new wires.new.items (IsMarked marks.new)) }
    ensures size { length marks.new ≡ length marks.old }
    ensures marked { OnOk result (IsMarked marks.new from) }
    ensures kept { OnOk result ((f : ℕ) → IsMarked marks.old f → IsMarked marks.new f) }
    ensures above { OnOk result ((f : ℕ) → IsMarked marks.new f
        → IsMarked marks.old f ⊎ ((es : List ℕ)
        × IsParentChain (board_of graph.now) forest.now.root from es f)) }
{
    let mut f = from;
    while !marks.is_marked(f) {
        marks.mark(f);
        if let Some(e) = forest.parent_wire(f) {
            wires.push(e)?;
            f = other_end(graph.wire(e), f);
        }
    }
    Ok(())
}
