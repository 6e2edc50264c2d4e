//! Forests of shortest paths from one FPGA.
ghost use Rattle.std.specs.Prelude.{◌≡◌, ◌<◌, ℕ, length, slice_index_or, None, IfOk, MatchOption};
ghost use Rattle.board_graph.specs.Graph.{IsGraph, board_of};
ghost use Rattle.shortest_forest.specs.Reach.{distance_of, parent_of, IsHopForest};
ghost use Rattle.shortest_forest.specs.BreadthFirst.{LeadsNearer, IsFirstNearer};

use crate::breadth_first::{distances_from, nearer_wire};
use board_graph::BoardGraph;
use std::alloc::{AllocError, Global};
use std::marker::Model;

/// For each FPGA of a graph its distance from a root, and the wire by which a shortest way to the root
/// leaves it. Following these wires, one comes to the root in fewer steps than the graph has FPGAs.
#[derive(Drop)]
pub struct Forest {
    pub(crate) root: u32,
    pub(crate) distances: Vec<Option<u64>>,
    pub(crate) parents: Vec<Option<u32>>,
}

impl Model for Forest {
    ghost use Rattle.std.specs.Prelude.{◌≡◌, length};
    ghost use Rattle.shortest_forest.specs.Reach.{Reach};

    ghost Value = { Reach };

    ghost view = { λ f. record { root = f.root; distances = f.distances.items; parents = f.parents.items } };

    ghost invariant = { λ f. length f.parents.items ≡ length f.distances.items };
}

impl Forest {
    /// The FPGA that all ways lead to.
    pub fn root(&self) -> u32
        ensures { result ≡ self.now.root }
    {
        self.root
    }

    /// The distance of FPGA `f` from the root, None where no wires lead there.
    pub fn dist(&self, f: u32) -> Option<u64>
        requires { f < length self.now.distances }
        ensures { result ≡ distance_of self.now f }
    {
        self.distances[f as usize]
    }

    /// The wire by which a shortest way from FPGA `f` to the root begins, None at the root and where no
    /// wires lead there.
    pub fn parent_wire(&self, f: u32) -> Option<u32>
        requires { f < length self.now.distances }
        ensures { result ≡ parent_of self.now f }
    {
        self.parents[f as usize]
    }
}

/// The forest of least numbers of hops from FPGA `root`, which is one of the graph. The parent wire of an
/// FPGA is the least-numbered one that leads to an FPGA one hop nearer to the root. It takes time in
/// proportion to the FPGAs and wires.
pub fn hops(alloc: Global, graph: &BoardGraph, root: u32) -> Result<Forest, AllocError>
    requires { root < graph.now.fpgas }
    ensures root { IfOk result (λ forest. forest.root ≡ root) }
    ensures count { IfOk result (λ forest. length forest.distances ≡ graph.now.fpgas) }
    ensures hops { IfOk result (IsHopForest graph.now) }
{
    let distances = distances_from(alloc, graph, root)?;
    let parents = parents_of(alloc, graph, &distances)?;
    Ok(Forest {
        root,
        distances,
        parents,
    })
}

/// The least-numbered wire that leads from each FPGA to one that is one hop nearer.
fn parents_of(
    alloc: Global,
    graph: &BoardGraph,
    distances: &[Option<u64>],
) -> Result<Vec<Option<u32>>, AllocError>
    requires { length distances.now ≡ graph.now.fpgas }
    ensures graph { IsGraph graph.now }
    ensures count { IfOk result (λ parents. length parents.items ≡ graph.now.fpgas) }
    ensures exact { IfOk result (λ parents. (f : ℕ) → f < graph.now.fpgas
        → MatchOption (slice_index_or parents.items f None) ((e d : ℕ)
        → ¬ LeadsNearer (board_of graph.now) distances.now f e d)
        (λ e. IsFirstNearer (board_of graph.now) distances.now f e)) }
{
    let fpgas = graph.fpgas();
    let mut parents = Vec::with_capacity(alloc, fpgas as usize)?;
    for f in 0..fpgas {
        parents.push(nearer_wire(graph, distances, f))?;
    }
    Ok(parents)
}
