//! A turn: one net is taken off its wires and gets another tree where that costs less.
ghost use Rattle.std.specs.Prelude.{◌≡◌, ◌*◌, ◌<◌, ◌≤◌, true, false, length, slice_index, IfOk, OnOk, OnErr};
ghost use Rattle.board_graph.specs.Graph.{board_of, graph_of};
ghost use Rattle.tdm_problem.specs.Board.{IsBoard};
ghost use Rattle.tdm_problem.specs.Loads.{load_cost, load_of, without_net};
ghost use Rattle.ripup_reroute.specs.Bounds.{IsScaled, IsTable, IsTableAt};
ghost use Rattle.ripup_reroute.specs.Turns.{IsTurn};
ghost use Rattle.ripup_reroute.specs.Rerouting.{AreMinimalTrees, IsSettledFor};
ghost use Rattle.ripup_reroute.specs.Working.{AreLoads, AreNumbers, IsBetter, IsWithinNet, old_length};

use crate::growing::grow_best;
use crate::loads::{add_number, take_number};
use crate::marginals::{Marginals, capped_length};
use crate::tools::Tools;
use crate::walks::walks_reach;
use board_graph::BoardGraph;
use std::alloc::AllocError;
use tdm_problem::{Problem, Trees};

/// Trees are grown from at most so many terminals.
const MOST_STARTS: usize = 41;

/// The turn of net `n`: it gets another minimal tree where that makes the cost of the loads smaller. Answers
/// whether it did. A net with the number 0 keeps its tree. A lazy turn does not look for another where the
/// tree is no longer than walks from the first FPGA to the others. Where memory is wanting, the trees are
/// unchanged, and the loads and the tools are of no use.
pub(crate) fn turn(
    problem: &Problem,
    graph: &BoardGraph,
    numbers: &[u64],
    n: u32,
    lazy: bool,
    trees: &mut Trees,
    loads: &mut Vec<u64>,
    tools: &mut Tools,
) -> Result<bool, AllocError>
    requires board { IsBoard problem.now }
    requires graph { graph.now ≡ graph_of problem.now }
    requires numbers { AreNumbers problem.now numbers.now }
    requires there { n < length problem.now.nets }
    requires minimal { AreMinimalTrees problem.now trees.old }
    requires loads { AreLoads problem.now trees.old numbers.now loads.old.items }
    requires builder { tools.old.builder.fpgas ≡ graph.now.fpgas }
    requires table { IsTableAt (board_of graph.now) loads.old.items tools.old.table }
    ensures builder { tools.new.builder.fpgas ≡ tools.old.builder.fpgas }
    ensures table { OnOk result (IsTableAt (board_of graph.now) loads.new.items tools.new.table) }
    ensures minimal { AreMinimalTrees problem.now trees.new }
    ensures err { OnErr result (trees.new ≡ trees.old) }
    ensures loads { OnOk result (AreLoads problem.now trees.new numbers.now loads.new.items) }
    ensures turn { OnOk result (IsTurn problem.now numbers.now n trees.old trees.new) }
    ensures moved { IfOk result (λ moved. moved ≡ true
        → load_cost problem.now trees.new numbers.now < load_cost problem.now trees.old numbers.now) }
    ensures kept { IfOk result (λ moved. moved ≡ false → trees.new ≡ trees.old) }
    ensures settled { IfOk result (λ moved. moved ≡ false
        → IsSettledFor problem.now numbers.now n trees.new) }
{
    let own = numbers[n as usize];
    let tree = trees.wires_of(n);
    if own == 0 {
        return Ok(false);
    }
    tools.table.begin_turn(graph, loads)?;
    take_number(loads, tree, own);
    if find_better(problem, graph, numbers, n, lazy, trees, loads, tools)? {
        add_number(loads, &tools.found, own);
        tools.table.lower(&Marginals { loads, own: 0 }, tree);
        trees.replace(n, &tools.found)?;
        return Ok(true);
    }
    add_number(loads, trees.wires_of(n), own);
    Ok(false)
}

/// Looks for a minimal tree of net `n` that is shorter than its own at its marginal lengths, beside loads
/// that do not count the net. Answers whether there is one, which is then `found` of the tools. If not, the
/// tree of the net is no longer than the least walks from its first FPGA to its others together.
fn find_better(
    problem: &Problem,
    graph: &BoardGraph,
    numbers: &[u64],
    n: u32,
    lazy: bool,
    trees: &Trees,
    loads: &[u64],
    tools: &mut Tools,
) -> Result<bool, AllocError>
    requires board { IsBoard problem.now }
    requires graph { graph.now ≡ graph_of problem.now }
    requires numbers { AreNumbers problem.now numbers.now }
    requires there { n < length problem.now.nets }
    requires minimal { AreMinimalTrees problem.now trees.now }
    requires loads { AreLoads problem.now (without_net trees.now n) numbers.now loads.now }
    requires builder { tools.old.builder.fpgas ≡ graph.now.fpgas }
    requires table { IsTable (board_of graph.now) tools.old.table }
    requires scaled { IsScaled tools.old.table tools.old.table.scale
        (λ e. 2 * load_of trees.now numbers.now e) }
    ensures builder { tools.new.builder.fpgas ≡ tools.old.builder.fpgas }
    ensures table { tools.new.table ≡ tools.old.table }
    ensures better { IfOk result (λ found. found ≡ true
        → IsBetter problem.now trees.now numbers.now n tools.new.found.items) }
    ensures best { IfOk result (λ found. found ≡ false
        → IsWithinNet problem.now trees.now numbers.now n (old_length trees.now numbers.now n)) }
{
    let own = numbers[n as usize];
    let lengths = Marginals { loads, own };
    let tree = trees.wires_of(n);
    let cap = capped_length(&lengths, tree);
    let terminals = problem.net(n);
    let scale = tools.table.scale_for(&lengths, tree);
    if walks_reach(
        graph,
        &lengths,
        &tools.table,
        scale,
        terminals,
        lazy,
        cap,
        &mut tools.builder,
    )? {
        return Ok(false);
    }
    let starts = starts_of(terminals.len(), own >= tools.heavy);
    match grow_best(graph, &lengths, scale, terminals, starts, cap, tools)? {
        Some(_) => Ok(true),
        None => Ok(false),
    }
}

/// From how many terminals trees of so many are grown.
fn starts_of(terminals: usize, heavy: bool) -> usize
    requires { 0 < terminals }
    ensures some { 0 < result }
    ensures few { result ≤ terminals }
{
    if terminals <= 2 || !heavy {
        return 1;
    }
    if terminals < MOST_STARTS {
        return terminals;
    }
    MOST_STARTS
}
