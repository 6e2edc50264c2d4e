//! What builds trees on one graph, again and again.
ghost use Rattle.std.specs.Prelude.{◌≡◌, ◌+◌, ◌-◌, ◌^◌, ◌<◌, ◌≤◌, ℕ, Bool, [], ◌∷◌, List, length, slice_index, All, Contains, IfOk, IfSome, IfNone, IfErr, OnOk};
ghost use Rattle.std.specs.List.Sorted.{IsStrictlyIncreasing};
ghost use Rattle.tdm_problem.specs.Board.{Board};
ghost use Rattle.tdm_problem.specs.Walk.{IsMinimalTree, IsConnectable};
ghost use Rattle.tdm_problem.specs.Distance.{length_of};
ghost use Rattle.board_graph.specs.Graph.{board_of, graph_of};
ghost use Rattle.steiner_build.specs.declared.fault.BuildFault.TheVariants.{NotConnectable};
ghost use Rattle.steiner_build.specs.Building.{IsWithinWalks, IsWithinDistances, IsWithinJoining};
ghost use Rattle.steiner_build.specs.Joining.{AreOthers};

use crate::bounds::TreeBounds;
use crate::fault::BuildFault;
use crate::joining::{join_all, mark, unmark};
use board_graph::BoardGraph;
use shortest_forest::{Lengths, MOST_CAP, NoBound, Search};
use std::alloc::{AllocError, Global};
use std::marker::Model;

/// Builds trees on one graph. It is made once, and its memory serves every tree: a call allocates only
/// where a tree or the queue of a search is larger than any before.
#[derive(Drop)]
pub struct TreeBuilder {
    search: Search,
    wires: Vec<u32>,
}

impl Model for TreeBuilder {
    ghost use Rattle.std.specs.Prelude.{◌≡◌, length};
    ghost use Rattle.steiner_build.specs.Building.{Builder};
    ghost use Rattle.steiner_build.specs.Joining.{HasNoGoals};

    ghost Value = { Builder };

    ghost view = { λ b. record { fpgas = length b.search.labels; wires = b.wires.items } };

    ghost invariant = { λ b. HasNoGoals b.search.goals × (length b.search.goals ≡ length b.search.labels) };
}

impl TreeBuilder {
    /// A builder for a graph.
    pub fn new(alloc: Global, graph: &BoardGraph) -> Result<TreeBuilder, AllocError>
        ensures fpgas { IfOk result (λ builder. builder.fpgas ≡ graph.now.fpgas) }
        ensures wires { IfOk result (λ builder. builder.wires ≡ []) }
    {
        let search = Search::new(alloc, graph)?;
        Ok(TreeBuilder {
            search,
            wires: Vec::new(alloc),
        })
    }

    /// The wires of the tree that was grown last, rising.
    pub fn wires(&self) -> &[u32]
        ensures { result.now ≡ self.now.wires }
    {
        &self.wires
    }

    /// The wires of the tree that was grown last, rising.
    pub fn into_wires(self) -> Vec<u32>
        ensures { result.items ≡ self.wires }
    {
        self.wires
    }

    /// Grows a minimal tree of the terminals from `start`, one of them: the nearest of the others is joined
    /// by a least path, again and again. Answers the tree's length, where that is below `cap`; its wires are
    /// then [`TreeBuilder::wires`]. None where walks from `start` to the terminals are together at least as
    /// long as `cap`; with the greatest cap no wires connect the terminals. They are FPGAs of the graph that
    /// the builder was made for. The bound of an FPGA is at most the length of every walk from there to a
    /// terminal other than `start`, and is told of each terminal that is joined. After each answer, and after
    /// want of memory, the builder may be used again; without a tree, its wires say nothing, nor do the
    /// bounds.
    pub fn grow<Q: Lengths, B: TreeBounds>(
        &mut self,
        graph: &BoardGraph,
        lengths: &Q,
        bounds: &mut B,
        terminals: &[u32],
        start: u32,
        cap: u64,
    ) -> Result<Option<u64>, AllocError>
        requires graph { self.old.fpgas ≡ graph.now.fpgas }
        requires lengths { length graph.now.wires ≤ Q.covered lengths.now }
        requires bounds { graph.now.fpgas ≤ B.bounds_covered bounds.old }
        requires lawful { (goals : List Bool) → AreOthers terminals.now start goals
            → B.are_true bounds.old (board_of graph.now) (Q.length lengths.now) goals }
        requires there { All (λ t. t < graph.now.fpgas) terminals.now }
        requires start { Contains terminals.now start }
        requires cap { cap ≤ 2 ^ 64 - 2 ^ 51 }
        ensures fpgas { self.new.fpgas ≡ self.old.fpgas }
        ensures minimal { IfOk result (λ grown. IfSome grown (λ _. (board : Board)
            → graph.now ≡ graph_of board
            → IsMinimalTree board self.new.wires terminals.now)) }
        ensures rising { IfOk result (λ grown. IfSome grown (λ _. IsStrictlyIncreasing self.new.wires)) }
        ensures inside { IfOk result (λ grown. IfSome grown (λ _. All (λ e. e < length graph.now.wires)
            self.new.wires)) }
        ensures total { IfOk result (λ grown. IfSome grown (λ total. total
            ≡ length_of (Q.length lengths.now) self.new.wires)) }
        ensures below { IfOk result (λ grown. IfSome grown (λ total. total < cap)) }
        ensures short { IfOk result (λ grown. IfSome grown
            (IsWithinWalks (board_of graph.now) (Q.length lengths.now) start terminals.now)) }
        ensures far { IfOk result (λ grown. IfNone grown
            (IsWithinWalks (board_of graph.now) (Q.length lengths.now) start terminals.now cap)) }
        ensures apart { IfOk result (λ grown. IfNone grown (2 ^ 64 - 2 ^ 51 ≤ cap → (board : Board)
            → graph.now ≡ graph_of board → ¬ IsConnectable board terminals.now)) }
    {
        if cap == 0 {
            return Ok(None);
        }
        self.wires.clear();
        self.wires.reserve(graph.fpgas() as usize)?;
        self.search.begin();
        let others = mark(&mut self.search, terminals, start);
        let grown = join_all(
            &mut self.search,
            &mut self.wires,
            graph,
            lengths,
            bounds,
            start,
            others,
            cap,
        );
        unmark(&mut self.search, terminals);
        self.wires.sort_unstable();
        grown
    }
}

/// A minimal tree of the terminals, wires rising: from the first terminal on, the nearest of the others is
/// joined by a least path, again and again. It is not longer than the sum of the least distances of the
/// terminals from the first one; for two terminals it is the shortest of all sets of wires that join them.
/// The terminals are FPGAs of the graph, at least one, and the lengths cover its wires.
pub fn build<Q: Lengths>(
    alloc: Global,
    graph: &BoardGraph,
    terminals: &[u32],
    lengths: &Q,
) -> Result<Vec<u32>, BuildFault>
    requires some { 0 < length terminals.now }
    requires there { All (λ t. t < graph.now.fpgas) terminals.now }
    requires lengths { length graph.now.wires ≤ Q.covered lengths.now }
    ensures minimal { IfOk result (λ wires. (board : Board) → graph.now ≡ graph_of board
        → IsMinimalTree board wires.items terminals.now) }
    ensures rising { IfOk result (λ wires. IsStrictlyIncreasing wires.items) }
    ensures short { IfOk result (λ wires. IsWithinDistances (board_of graph.now) (Q.length lengths.now)
        (slice_index terminals.now 0) terminals.now (length_of (Q.length lengths.now) wires.items)) }
    ensures pair { IfOk result (λ wires. (a b : ℕ) → terminals.now ≡ a ∷ b ∷ []
        → IsWithinJoining (board_of graph.now) (Q.length lengths.now)
        terminals.now (length_of (Q.length lengths.now) wires.items)) }
    ensures connectable { IfOk result (λ _. (board : Board) → graph.now ≡ graph_of board
        → IsConnectable board terminals.now) }
    ensures apart { IfErr result (λ fault. fault ≡ NotConnectable → (board : Board)
        → graph.now ≡ graph_of board
        → ¬ IsConnectable board terminals.now) }
{
    let _fpgas = graph.fpgas();
    let mut builder = TreeBuilder::new(alloc, graph)?;
    let first = terminals[0];
    match builder.grow(graph, lengths, &mut NoBound, terminals, first, MOST_CAP)? {
        Some(_) => Ok(builder.into_wires()),
        None => Err(BuildFault::NotConnectable),
    }
}
