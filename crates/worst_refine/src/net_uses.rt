//! The wires of all nets' trees in one list, since a trade goes over them many times: with a row for each net,
//! the end of each short row is a branch that a processor guesses wrong.
ghost use Rattle.std.specs.Prelude.{◌<◌, length, All, IfOk, OnOk};
ghost use Rattle.tdm_problem.specs.Board.{Board};
ghost use Rattle.tdm_problem.specs.Trees.{AreTreesFor};
ghost use Rattle.worst_refine.specs.NetUses.{AreUsesOn};

use std::alloc::{AllocError, Global};
use tdm_problem::{Problem, Trees};

/// A net and a wire of its tree.
#[derive(Clone, Copy)]
pub(crate) struct NetUse {
    pub net: u32,
    pub wire: u32,
}

/// Each net with each wire of its tree, nets rising. The only error is want of memory.
pub(crate) fn uses_of_trees(
    alloc: Global,
    problem: &Problem,
    trees: &Trees,
) -> Result<Vec<NetUse>, AllocError>
    requires { AreTreesFor problem.now trees.now }
    ensures { IfOk result (λ uses. AreUsesOn problem.now uses.items) }
{
    let mut uses = Vec::with_capacity(alloc, count_of(trees))?;
    for n in 0..trees.nets() {
        add_wires(&mut uses, n, trees.wires_of(n))?;
    }
    Ok(uses)
}

/// How many uses there are.
fn count_of(trees: &Trees) -> usize {
    let mut count = 0usize;
    for n in 0..trees.nets() {
        count = count.saturating_add(trees.wires_of(n).len());
    }
    count
}

/// Adds a net with each of these wires.
fn add_wires(uses: &mut Vec<NetUse>, net: u32, wires: &[u32]) -> Result<(), AllocError>
    ensures { OnOk result ((board : Board) → net < length board.nets
        → All (λ e. e < length board.wires) wires.now
        → AreUsesOn board uses.old.items → AreUsesOn board uses.new.items) }
{
    for wire in wires {
        uses.push(NetUse { net, wire: *wire })?;
    }
    Ok(())
}
