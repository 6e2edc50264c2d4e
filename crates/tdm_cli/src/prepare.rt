//! The pure part of `route`: what it makes of a problem.
ghost use Rattle.std.specs.Prelude.{◌≡◌, ◌≤◌, ℕ, length, sum_by, IfOk, IfErr};
ghost use Rattle.tdm_problem.specs.Board.{IsBoard};
ghost use Rattle.tdm_problem.specs.Legal.{AllConnectable};
ghost use Rattle.tdm_problem.specs.Value.{value_of};
ghost use Rattle.board_graph.specs.Graph.{graph_of};
ghost use Rattle.shortest_forest.specs.Baseline.{AreBaseTrees};
ghost use Rattle.tdm_cli.specs.declared.baseline.TheConstants.{MAX_USES};
ghost use Rattle.tdm_cli.specs.Best.{IsBest};
ghost use Rattle.tdm_cli.specs.Improved.{IsImproved};
ghost use Rattle.tdm_cli.specs.Obstacle.{ObstacleShows};
ghost use Rattle.tdm_cli.specs.Reports.{route_report};

use crate::baseline::{Obstacle, baseline, baseline_trees};
use crate::best::Best;
use crate::certify::best_certificate;
use crate::report;
use crate::rounds::improve;
use board_graph::BoardGraph;
use bound_cert::Certificate;
use solution_eval::value;
use std::alloc::{AllocError, Global};
use tdm_problem::{Problem, Solution, Trees};

/// What is written and said of a problem.
#[derive(Drop)]
pub struct Plan {
    pub solution: Solution,
    pub cert: Certificate,
    pub report: Vec<u8>,
}

/// What there is before the rounds: the baseline with these trees, and the better of the certificates by hops
/// and by shares. The only error is want of memory.
fn best_of_baseline(
    alloc: Global,
    problem: &Problem,
    graph: &BoardGraph,
    trees: &Trees,
) -> Result<Best, AllocError>
    requires graph { graph.now ≡ graph_of problem.now }
    requires board { IsBoard problem.now }
    requires joined { AllConnectable problem.now }
    requires base { AreBaseTrees problem.now trees.now }
    requires few { sum_by length trees.now ≤ MAX_USES }
    ensures { IfOk result (λ best. IsBest problem.now best.solution best.value best.certified) }
{
    let solution = baseline(alloc, problem, trees)?;
    let worth = value(alloc, problem, &solution)?;
    let certified = best_certificate(alloc, problem, graph)?;
    Ok(Best {
        solution,
        value: worth,
        certified,
    })
}

/// The best of the baseline and of so many rounds, or why the nets have no solution that may be written.
fn best_of_rounds(alloc: Global, problem: &Problem, rounds: u32) -> Result<Best, Obstacle>
    ensures best { IfOk result (λ best. IsBest problem.now best.solution best.value best.certified) }
    ensures improved { IfOk result (λ best. IsImproved problem.now rounds
        best.solution best.certified.cert best.certified.bound) }
    ensures obstacle { IfErr result (ObstacleShows problem.now) }
{
    let graph = BoardGraph::of(alloc, problem)?;
    let trees = baseline_trees(alloc, problem, &graph)?;
    let first = best_of_baseline(alloc, problem, &graph, &trees)?;
    match improve(alloc, problem, &graph, trees, first, rounds) {
        Ok(best) => Ok(best),
        Err(AllocError) => Err(Obstacle::NoMemory),
    }
}

/// Routes the nets of a problem by so many rounds and certifies its board, or says why the nets have no
/// solution that may be written.
pub fn prepare(alloc: Global, problem: &Problem, rounds: u32) -> Result<Plan, Obstacle>
    ensures plan { IfOk result (λ plan. (bound : ℕ)
        × IsImproved problem.now rounds plan.solution plan.cert bound
        × (plan.report.items ≡ route_report (value_of problem.now plan.solution) bound)) }
    ensures obstacle { IfErr result (ObstacleShows problem.now) }
{
    let best = best_of_rounds(alloc, problem, rounds)?;
    let report = report::routed(alloc, best.value, best.certified.bound)?;
    Ok(Plan {
        solution: best.solution,
        cert: best.certified.cert,
        report,
    })
}
