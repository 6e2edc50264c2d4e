//! Passes of turns.
ghost use Rattle.std.specs.Prelude.{◌≡◌, ℕ, ◌<◌, ◌≤◌, true, false, length, All, IfOk, OnOk};
ghost use Rattle.board_graph.specs.Graph.{board_of, graph_of};
ghost use Rattle.tdm_problem.specs.Limits.{most_number};
ghost use Rattle.tdm_problem.specs.Board.{IsBoard};
ghost use Rattle.tdm_problem.specs.Loads.{load_cost};
ghost use Rattle.ripup_reroute.specs.Bounds.{IsTableAt};
ghost use Rattle.ripup_reroute.specs.Turns.{IsPass, ArePasses, ComesToRest, AreFallingPasses};
ghost use Rattle.ripup_reroute.specs.Rerouting.{AreMinimalTrees, AreRerouted, IsSettled, IsOutcome};
ghost use Rattle.ripup_reroute.specs.Working.{AreLoads, AreNumbers};

use crate::effort::Effort;
use crate::loads::{cost_of, loads_of, mean_number};
use crate::tools::Tools;
use crate::turn::turn;
use board_graph::BoardGraph;
use std::alloc::{AllocError, Global};
use tdm_problem::{Problem, Trees};

/// What rerouting came to: whether a pass replaced no tree, and the cost of the loads.
#[derive(Clone, Copy, Debug, PartialEq, Eq)]
pub struct Rerouted {
    /// Whether a whole pass replaced no tree.
    pub settled: bool,
    /// The sum of the squares of the loads of the trees afterwards.
    pub phi: u128,
}

/// Every pass looks for shorter trees of all nets, and from several FPGAs of the heavy ones.
const THOROUGH: Effort = Effort {
    full_passes: u32::MAX,
    several_starts: true,
};

/// So many passes of turns over the picked nets, in their order, with a number at most 2^30 for each net. The
/// load of a wire is the sum of the numbers of the nets whose tree has it, and the cost is the sum of the
/// squares of the loads. The graph is the problem's, each net has a minimal tree, and each pick is a net. In
/// its turn a net is taken off its wires, and keeps its tree or gets another minimal tree that makes the cost
/// smaller; after it the tree is no longer, at the marginal lengths, than the least walks from the net's
/// first FPGA to its others together. A pass that replaces no tree is the last: then it is settled. Picks may
/// repeat, and there may be none. The only error is want of memory: then the trees are minimal, those of nets
/// that were not picked are as they were, and the cost has not risen. Method: rip-up and reroute by marginal
/// cost; a tree joins the nearest terminal, again and again (Takahashi and Matsuyama, 1980).
pub fn reroute(
    alloc: Global,
    problem: &Problem,
    graph: &BoardGraph,
    trees: &mut Trees,
    s: &[u64],
    picks: &[u32],
    passes: u32,
) -> Result<Rerouted, AllocError>
    requires graph { graph.now ≡ graph_of problem.now }
    requires trees { AreMinimalTrees problem.now trees.old }
    requires count { length s.now ≡ length problem.now.nets }
    requires small { All (λ x. x ≤ most_number) s.now }
    requires there { All (λ n. n < length problem.now.nets) picks.now }
    ensures rerouted { AreRerouted problem.now s.now picks.now trees.old trees.new }
    ensures passes { IfOk result (λ r. ArePasses problem.now s.now picks.now passes trees.old trees.new) }
    ensures outcome { IfOk result (λ r. IsOutcome problem.now s.now picks.now passes trees.old trees.new
        r.settled r.phi) }
{
    reroute_with(alloc, problem, graph, trees, s, picks, passes, THOROUGH)
}

/// As [`reroute`], but with so much effort.
pub fn reroute_with(
    alloc: Global,
    problem: &Problem,
    graph: &BoardGraph,
    trees: &mut Trees,
    s: &[u64],
    picks: &[u32],
    passes: u32,
    effort: Effort,
) -> Result<Rerouted, AllocError>
    requires graph { graph.now ≡ graph_of problem.now }
    requires trees { AreMinimalTrees problem.now trees.old }
    requires count { length s.now ≡ length problem.now.nets }
    requires small { All (λ x. x ≤ most_number) s.now }
    requires there { All (λ n. n < length problem.now.nets) picks.now }
    ensures rerouted { AreRerouted problem.now s.now picks.now trees.old trees.new }
    ensures passes { IfOk result (λ r. ArePasses problem.now s.now picks.now passes trees.old trees.new) }
    ensures outcome { IfOk result (λ r. IsOutcome problem.now s.now picks.now passes trees.old trees.new
        r.settled r.phi) }
{
    let mut loads = loads_of(alloc, problem, trees, s)?;
    let heavy = if effort.several_starts {
        mean_number(trees, s)
    } else {
        u64::MAX
    };
    let mut tools = Tools::new(alloc, graph, problem.nets(), heavy)?;
    let settled = all_passes(
        problem,
        graph,
        s,
        picks,
        passes,
        effort.full_passes,
        trees,
        &mut loads,
        &mut tools,
    )?;
    let phi = cost_of(&loads);
    Ok(Rerouted { settled, phi })
}

/// Passes, at most so many: one that replaces no tree is the last. Answers whether there was such a pass.
/// Where memory is wanting, the loads are of no use.
fn all_passes(
    problem: &Problem,
    graph: &BoardGraph,
    numbers: &[u64],
    picks: &[u32],
    passes: u32,
    full_passes: u32,
    trees: &mut Trees,
    loads: &mut Vec<u64>,
    tools: &mut Tools,
) -> Result<bool, AllocError>
    requires board { IsBoard problem.now }
    requires graph { graph.now ≡ graph_of problem.now }
    requires numbers { AreNumbers problem.now numbers.now }
    requires there { All (λ n. n < length problem.now.nets) picks.now }
    requires minimal { AreMinimalTrees problem.now trees.old }
    requires loads { AreLoads problem.now trees.old numbers.now loads.old.items }
    requires builder { tools.old.builder.fpgas ≡ graph.now.fpgas }
    requires table { IsTableAt (board_of graph.now) loads.old.items tools.old.table }
    ensures rerouted { AreRerouted problem.now numbers.now picks.now trees.old trees.new }
    ensures loads { OnOk result (AreLoads problem.now trees.new numbers.now loads.new.items) }
    ensures settled { IfOk result (λ settled. settled ≡ true
        → IsSettled problem.now numbers.now picks.now trees.new) }
    ensures rest { IfOk result (λ settled. settled ≡ true
        → ComesToRest problem.now numbers.now picks.now passes trees.old trees.new) }
    ensures falling { IfOk result (λ settled. settled ≡ false
        → AreFallingPasses problem.now numbers.now picks.now passes trees.old trees.new) }
{
    for done in 0..passes {
        let lazy = done >= full_passes;
        if !pass(problem, graph, numbers, picks, lazy, trees, loads, tools)? {
            return Ok(true);
        }
    }
    Ok(false)
}

/// A pass: a turn of each picked net, in order. Answers whether a tree was replaced. Where memory is wanting,
/// the loads are of no use.
fn pass(
    problem: &Problem,
    graph: &BoardGraph,
    numbers: &[u64],
    picks: &[u32],
    lazy: bool,
    trees: &mut Trees,
    loads: &mut Vec<u64>,
    tools: &mut Tools,
) -> Result<bool, AllocError>
    requires board { IsBoard problem.now }
    requires graph { graph.now ≡ graph_of problem.now }
    requires numbers { AreNumbers problem.now numbers.now }
    requires there { All (λ n. n < length problem.now.nets) picks.now }
    requires minimal { AreMinimalTrees problem.now trees.old }
    requires loads { AreLoads problem.now trees.old numbers.now loads.old.items }
    requires builder { tools.old.builder.fpgas ≡ graph.now.fpgas }
    requires table { IsTableAt (board_of graph.now) loads.old.items tools.old.table }
    ensures builder { tools.new.builder.fpgas ≡ tools.old.builder.fpgas }
    ensures table { OnOk result (IsTableAt (board_of graph.now) loads.new.items tools.new.table) }
    ensures rerouted { AreRerouted problem.now numbers.now picks.now trees.old trees.new }
    ensures loads { OnOk result (AreLoads problem.now trees.new numbers.now loads.new.items) }
    ensures pass { OnOk result (IsPass problem.now numbers.now picks.now trees.old trees.new) }
    ensures moved { IfOk result (λ moved. moved ≡ true
        → load_cost problem.now trees.new numbers.now < load_cost problem.now trees.old numbers.now) }
    ensures kept { IfOk result (λ moved. moved ≡ false → trees.new ≡ trees.old) }
    ensures settled { IfOk result (λ moved. moved ≡ false
        → IsSettled problem.now numbers.now picks.now trees.new) }
{
    tools.table.begin_pass(graph, loads)?;
    let mut moved = false;
    for n in picks {
        let replaced = turn(problem, graph, numbers, *n, lazy, trees, loads, tools)?;
        moved |= replaced;
    }
    Ok(moved)
}
