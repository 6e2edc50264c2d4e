//! Ratios that are traded between nets: those of the worst groups become smaller, and others larger.
ghost use Rattle.std.specs.Prelude.{◌≡◌, ◌<◌, ◌≤◌, length, All, IfOk, OnOk, IfSome};
ghost use Rattle.tdm_problem.specs.Legal.{IsLegal};
ghost use Rattle.tdm_problem.specs.Routing.{wires_of};
ghost use Rattle.tdm_problem.specs.Trees.{AreTreesFor, trees_of};
ghost use Rattle.tdm_problem.specs.Value.{value_of};
ghost use Rattle.net_groups.specs.Incidence.{IsIncidenceOf};
ghost use Rattle.even_legalise.specs.Uniform.{JoinsEachNet};
ghost use Rattle.worst_refine.specs.Traded.{HasSmallRatios, IsBetter, IsTraded};

use crate::members::members_of;
use crate::net_uses::uses_of_trees;
use crate::proposed::{TradedSolution, checked};
use crate::trader::Trader;
use net_groups::Incidence;
use solution_eval::value;
use std::alloc::{AllocError, Global};
use tdm_problem::{Problem, Solution, Trees, WireUse};

/// How many exchanges a trade makes at most, and the first trade of a run.
const TURNS: u32 = 12;

const TURNS_AT_FIRST: u32 = 20;

/// A legal solution with exactly these trees and a value below `best`, and that value, if the trade finds
/// one. It begins with ratios by the numbers `s`, one for each net: on a wire about the sum of the numbers
/// over the net's own. The first trade of a run takes more turns.
///
/// The trees are for the problem, and each joins its net. The only error is want of memory.
pub fn trade_from(
    alloc: Global,
    problem: &Problem,
    incidence: &Incidence,
    trees: &Trees,
    s: &[u64],
    best: u128,
    first: bool,
) -> Result<Option<TradedSolution>, AllocError>
    requires incidence { IsIncidenceOf problem.now incidence.now }
    requires trees_for { AreTreesFor problem.now trees.now }
    requires joined { JoinsEachNet problem.now trees.now }
    requires paired { length s.now ≡ length problem.now.nets }
    ensures better { IfOk result (λ found. IfSome found
        (λ traded. IsBetter problem.now trees.now best traded.solution)) }
    ensures value { IfOk result (λ found. IfSome found
        (λ traded. traded.value ≡ value_of problem.now traded.solution)) }
{
    let turns = if first { TURNS_AT_FIRST } else { TURNS };
    better(alloc, problem, incidence, trees, s, best, turns)
}

/// Trades ratios of a legal solution in up to `turns` exchanges, in each of which nets of the worst groups
/// get smaller ratios and others larger ones. The solution stays legal, each net keeps its wires, no ratio is
/// above 4,294,967,294, and the value is not above the old.
///
/// The only error is want of memory, and all of this holds after it too.
pub fn trade(
    alloc: Global,
    problem: &Problem,
    incidence: &Incidence,
    solution: &mut Solution,
    turns: u32,
) -> Result<(), AllocError>
    requires incidence { IsIncidenceOf problem.now incidence.now }
    requires legal { IsLegal problem.now solution.old }
    requires small { HasSmallRatios solution.old }
    ensures { IsTraded problem.now solution.old solution.new }
{
    if turns == 0 {
        return Ok(());
    }
    let trees = wires_by_net(alloc, solution)?;
    let s = numbers_of(alloc, solution)?;
    let best = value(alloc, problem, solution)?;
    if let Some(traded) = better(alloc, problem, incidence, &trees, &s, best, turns)? {
        *solution = traded.solution;
    }
    Ok(())
}

/// `trade_from` with so many turns.
fn better(
    alloc: Global,
    problem: &Problem,
    incidence: &Incidence,
    trees: &Trees,
    s: &[u64],
    best: u128,
    turns: u32,
) -> Result<Option<TradedSolution>, AllocError>
    requires incidence { IsIncidenceOf problem.now incidence.now }
    requires trees_for { AreTreesFor problem.now trees.now }
    requires joined { JoinsEachNet problem.now trees.now }
    requires paired { length s.now ≡ length problem.now.nets }
    ensures better { IfOk result (λ found. IfSome found
        (λ traded. IsBetter problem.now trees.now best traded.solution)) }
    ensures value { IfOk result (λ found. IfSome found
        (λ traded. traded.value ≡ value_of problem.now traded.solution)) }
{
    match proposed_halves(alloc, problem, incidence, trees, s, best, turns)? {
        Some(halves) => checked(alloc, problem, trees, halves, best),
        None => Ok(None),
    }
}

/// The halves of ratios that a trade proposes, if it does not see that none are below `best`.
fn proposed_halves(
    alloc: Global,
    problem: &Problem,
    incidence: &Incidence,
    trees: &Trees,
    s: &[u64],
    best: u128,
    turns: u32,
) -> Result<Option<Vec<u32>>, AllocError>
    requires incidence { IsIncidenceOf problem.now incidence.now }
    requires trees_for { AreTreesFor problem.now trees.now }
    requires paired { length s.now ≡ length problem.now.nets }
{
    let trader = Trader::new(alloc, problem, s)?;
    let members = members_of(alloc, problem, incidence)?;
    let uses = uses_of_trees(alloc, problem, trees)?;
    let goal = best.min(u128::from(u64::MAX)) as u64;
    trader.propose(alloc, problem, &members, &uses, goal, turns)
}

/// The wires of each net's uses.
fn wires_by_net(alloc: Global, solution: &Solution) -> Result<Trees, AllocError>
    ensures { IfOk result (λ trees. trees ≡ trees_of solution.now) }
{
    let mut trees = Trees::new(alloc);
    let mut wires = Vec::new(alloc);
    for n in 0..solution.nets() {
        set_wires(&mut wires, solution.uses(n))?;
        trees.push_net(&wires)?;
    }
    Ok(trees)
}

/// Writes the wires of these uses.
fn set_wires(wires: &mut Vec<u32>, uses: &[WireUse]) -> Result<(), AllocError>
    ensures { OnOk result (wires.new.items ≡ wires_of uses.now) }
{
    wires.clear();
    for wire_use in uses {
        wires.push(wire_use.wire)?;
    }
    Ok(())
}

/// A number for each net that is the larger the smaller its ratios are: so many 2^-30ths as its mean ratio is
/// a part of.
fn numbers_of(alloc: Global, solution: &Solution) -> Result<Vec<u64>, AllocError>
    ensures { IfOk result (λ numbers. length numbers.items ≡ length solution.now) }
{
    let mut numbers = Vec::with_capacity(alloc, solution.nets() as usize)?;
    for n in 0..solution.nets() {
        numbers.push(number_of(solution.uses(n)))?;
    }
    Ok(numbers)
}

/// The number of wires over the sum of the ratios, in 2^-30ths.
fn number_of(uses: &[WireUse]) -> u64 {
    let mut sum = 0u64;
    for wire_use in uses {
        sum = sum.wrapping_add(u64::from(wire_use.ratio));
    }
    (uses.len() as u64).wrapping_mul(1 << 30) / sum.max(1)
}
