//! What the turns of a call work with.
ghost use Rattle.std.specs.Prelude.{◌≡◌, ℕ, List, length, IfOk};
ghost use Rattle.board_graph.specs.Graph.{board_of};
ghost use Rattle.tdm_problem.specs.Trees.{AreTreesFor};
ghost use Rattle.ripup_reroute.specs.Bounds.{IsTableAt};
ghost use Rattle.ripup_reroute.specs.Working.{AreNumbers};

use crate::effort::Effort;
use crate::table::Table;
use board_graph::BoardGraph;
use std::alloc::{AllocError, Global};
use steiner_build::TreeBuilder;
use tdm_problem::{Problem, Trees};

/// What turns work with. It is made once a call, and its memory serves every turn.
#[derive(Drop)]
pub(crate) struct Tools {
    pub(crate) builder: TreeBuilder,
    pub(crate) table: Table,
    /// The wires of the tree that was found last.
    pub(crate) found: Vec<u32>,
    /// The trees of a net with at least this number are grown from several of its terminals.
    pub(crate) heavy: u64,
}

impl Tools {
    /// Tools for a board.
    pub(crate) fn new(
        alloc: Global,
        graph: &BoardGraph,
        nets: u32,
        heavy: u64,
    ) -> Result<Tools, AllocError>
        ensures builder { IfOk result (λ tools. tools.builder.fpgas ≡ graph.now.fpgas) }
        ensures table { IfOk result (λ tools. (loads : List ℕ)
            → IsTableAt (board_of graph.now) loads tools.table) }
    {
        Ok(Tools {
            builder: TreeBuilder::new(alloc, graph)?,
            table: Table::new(alloc, graph, nets)?,
            found: Vec::new(alloc),
            heavy,
        })
    }
}
