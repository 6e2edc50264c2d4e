//! Rerouting of all nets of a board, round by round.
ghost use Rattle.std.specs.Prelude.{◌≡◌, ◌<◌, ◌≤◌, ◌^◌, [], ◌∷◌, ◌++◌, length, All, IfOk, OnOk};
ghost use Rattle.board_graph.specs.Graph.{graph_of};
ghost use Rattle.tdm_problem.specs.Board.{Board};
ghost use Rattle.tdm_problem.specs.Limits.{most_nets};
ghost use Rattle.tdm_problem.specs.Walk.{IsMinimalTree};
ghost use Rattle.ripup_reroute.specs.Rerouting.{AreMinimalTrees};

use board_graph::BoardGraph;
use ripup_reroute::{Effort, reroute_with};
use shortest_forest::{Lengths, MOST_CAP, NoBound};
use std::alloc::{AllocError, Global};
use steiner_build::TreeBuilder;
use tdm_problem::{Problem, Trees};

/// Each round has at most so many passes.
const PASSES: u32 = 4;

/// Each wire has the length 1.
struct Hops;

impl Lengths for Hops {
    ghost use Rattle.std.specs.Prelude.{◌^◌};
    ghost use Rattle.std.proofs.Common.{arith};

    ghost covered = { λ _. 2 ^ 16 };

    ghost length = { λ _ e. 1 };

    ghost limit = { λ s e below. Prim.omega arith };

    fn len_of(&self, _wire: u32) -> u64 {
        1
    }
}

/// Adds a tree of few wires that joins these terminals. Where no wires join them, the answer is that of want
/// of memory.
fn push_tree(
    trees: &mut Trees,
    builder: &mut TreeBuilder,
    graph: &BoardGraph,
    terminals: &[u32],
) -> Result<(), AllocError>
    requires graph { builder.old.fpgas ≡ graph.now.fpgas }
    requires few { graph.now.fpgas ≤ 4096 }
    requires wires { length graph.now.wires ≤ 2 ^ 16 }
    requires some { 0 < length terminals.now }
    requires there { All (λ t. t < graph.now.fpgas) terminals.now }
    requires room { length trees.old < most_nets }
    ensures builder { builder.new.fpgas ≡ builder.old.fpgas }
    ensures pushed { OnOk result (trees.new ≡ trees.old ++ builder.new.wires ∷ []) }
    ensures there { OnOk result (All (λ e. e < length graph.now.wires) builder.new.wires) }
    ensures minimal { OnOk result ((board : Board) → graph.now ≡ graph_of board
        → IsMinimalTree board builder.new.wires terminals.now) }
{
    match builder.grow(
        graph,
        &Hops,
        &mut NoBound,
        terminals,
        terminals[0],
        MOST_CAP,
    )? {
        Some(_) => trees.push_net(builder.wires()),
        None => Err(AllocError),
    }
}

/// A tree of few wires for each net.
fn first_trees(alloc: Global, problem: &Problem, graph: &BoardGraph) -> Result<Trees, AllocError>
    requires { graph.now ≡ graph_of problem.now }
    ensures { IfOk result (λ trees. AreMinimalTrees problem.now trees) }
{
    let mut builder = TreeBuilder::new(alloc, graph)?;
    let mut trees = Trees::new(alloc);
    for n in 0..problem.nets() {
        push_tree(&mut trees, &mut builder, graph, problem.net(n))?;
    }
    Ok(trees)
}

/// The number of a net in a round: from 256 to 4,351, which the numbers of nets mix, and up to a quarter
/// more, which changes from round to round.
fn number_of(n: u32, done: u32) -> u64
    ensures { result ≤ 2 ^ 30 }
{
    let base = u64::from(n.wrapping_mul(2_654_435_761) >> 20) + 256;
    let noise = u64::from(
        n.wrapping_mul(40_503)
            .wrapping_add(done.wrapping_mul(2_246_822_519))
            >> 24,
    );
    base * (noise + 1024) / 1024
}

/// The numbers of all nets in a round.
fn numbers_at(alloc: Global, nets: u32, done: u32) -> Result<Vec<u64>, AllocError>
    ensures count { IfOk result (λ numbers. length numbers.items ≡ nets) }
    ensures small { IfOk result (λ numbers. All (λ s. s ≤ 2 ^ 30) numbers.items) }
{
    let mut numbers = Vec::with_capacity(alloc, nets as usize)?;
    for n in 0..nets {
        numbers.push(number_of(n, done))?;
    }
    Ok(numbers)
}

/// All nets, in order.
fn all_nets(alloc: Global, nets: u32) -> Result<Vec<u32>, AllocError>
    ensures { IfOk result (λ picks. All (λ n. n < nets) picks.items) }
{
    let mut picks = Vec::with_capacity(alloc, nets as usize)?;
    for n in 0..nets {
        picks.push(n)?;
    }
    Ok(picks)
}

/// A round of passes over all nets. Answers the cost afterwards in units of 2^20.
fn round(
    alloc: Global,
    problem: &Problem,
    graph: &BoardGraph,
    picks: &[u32],
    done: u32,
    trees: &mut Trees,
) -> Result<u64, AllocError>
    requires graph { graph.now ≡ graph_of problem.now }
    requires trees { AreMinimalTrees problem.now trees.old }
    requires there { All (λ n. n < length problem.now.nets) picks.now }
    ensures { OnOk result (AreMinimalTrees problem.now trees.new) }
{
    let numbers = numbers_at(alloc, problem.nets(), done)?;
    let effort = Effort::of_round(done);
    let rerouted = reroute_with(
        alloc, problem, graph, trees, &numbers, picks, PASSES, effort,
    )?;
    Ok((rerouted.phi >> 20 & 0xffff_ffff_ffff) as u64)
}

/// Makes a tree for each net and reroutes them for so many rounds. Answers the cost at the end in units of
/// 2^20, and 0 without a round.
pub(crate) fn reroute_often(
    alloc: Global,
    problem: &Problem,
    graph: &BoardGraph,
    rounds: u32,
) -> Result<u64, AllocError>
    requires { graph.now ≡ graph_of problem.now }
{
    let mut trees = first_trees(alloc, problem, graph)?;
    let picks = all_nets(alloc, problem.nets())?;
    let mut last = 0;
    for done in 0..rounds {
        last = round(alloc, problem, graph, &picks, done, &mut trees)?;
    }
    Ok(last)
}
