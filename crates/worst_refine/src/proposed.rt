//! Solutions of proposed ratios, and whether they are good.
ghost use Rattle.std.specs.Prelude.{◌≡◌, All, IfOk, OnOk, IfSome};
ghost use Rattle.tdm_problem.specs.Routing.{wires_of, ratios_of};
ghost use Rattle.tdm_problem.specs.Trees.{AreTreesFor, HasRisingRows, trees_of};
ghost use Rattle.tdm_problem.specs.Value.{value_of};
ghost use Rattle.even_legalise.specs.Uniform.{JoinsEachNet};
ghost use Rattle.worst_refine.specs.Traded.{IsBetter, IsSmallRatio};

use crate::spending::fits_by_ceilings;
use solution_eval::value;
use std::alloc::{AllocError, Global};
use tdm_problem::{Problem, Solution, Trees, WireUse};

/// The half of the greatest even ratio.
const MOST_HALF: u32 = (1 << 31) - 1;

/// A solution that a trade found, and what it is worth.
#[derive(Drop)]
pub struct TradedSolution {
    pub solution: Solution,
    pub value: u128,
}

/// The solution with the trees and the proposed halves of ratios, use by use, if it is legal and its value is
/// below `best`. The halves are let go before it is judged.
pub(crate) fn checked(
    alloc: Global,
    problem: &Problem,
    trees: &Trees,
    halves: Vec<u32>,
    best: u128,
) -> Result<Option<TradedSolution>, AllocError>
    requires trees_for { AreTreesFor problem.now trees.now }
    requires joined { JoinsEachNet problem.now trees.now }
    ensures better { IfOk result (λ found. IfSome found
        (λ traded. IsBetter problem.now trees.now best traded.solution)) }
    ensures value { IfOk result (λ found. IfSome found
        (λ traded. traded.value ≡ value_of problem.now traded.solution)) }
{
    let solution = with_halves(alloc, trees, &halves)?;
    drop(halves);
    if !fits_by_ceilings(alloc, problem.wires(), &solution)? {
        return Ok(None);
    }
    let value = value(alloc, problem, &solution)?;
    if value >= best {
        return Ok(None);
    }
    Ok(Some(TradedSolution { solution, value }))
}

/// The solution with these trees, whose uses have the even ratios with these halves, one after another.
fn with_halves(alloc: Global, trees: &Trees, halves: &[u32]) -> Result<Solution, AllocError>
    ensures wires { IfOk result (λ solution. trees_of solution ≡ trees.now) }
    ensures small { IfOk result (λ solution. All (λ uses. All IsSmallRatio (ratios_of uses)) solution) }
    ensures rising { OnOk result (HasRisingRows trees.now) }
{
    let mut solution = Solution::new(alloc);
    let mut uses = Vec::new(alloc);
    let mut start = 0usize;
    for n in 0..trees.nets() {
        let wires = trees.wires_of(n);
        set_uses(&mut uses, wires, halves, start)?;
        solution.push_net(&uses)?;
        start = start.saturating_add(wires.len());
    }
    Ok(solution)
}

/// Writes the uses of these wires, with the halves from a place on.
fn set_uses(
    uses: &mut Vec<WireUse>,
    wires: &[u32],
    halves: &[u32],
    start: usize,
) -> Result<(), AllocError>
    ensures wires { OnOk result (wires_of uses.new.items ≡ wires.now) }
    ensures small { OnOk result (All IsSmallRatio (ratios_of uses.new.items)) }
{
    uses.clear();
    for e in wires {
        let half = halves.get(start.saturating_add(uses.len())).copied();
        let ratio = even_ratio(half.unwrap_or(MOST_HALF));
        uses.push(WireUse { wire: *e, ratio })?;
    }
    Ok(())
}

/// The even ratio with this half, or the nearest that there is.
fn even_ratio(half: u32) -> u32
    ensures { IsSmallRatio result }
{
    2 * half.clamp(1, MOST_HALF)
}
