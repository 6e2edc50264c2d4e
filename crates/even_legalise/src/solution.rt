//! The solution with one ratio for all nets of a wire.
ghost use Rattle.std.specs.Prelude.{◌≡◌, ℕ, ◌*◌, ◌<◌, ◌≤◌, ◌^◌, length, map, slice_index, All, IfOk, OnOk};
ghost use Rattle.tdm_problem.specs.declared.solution.WireUse.{WireUse};
ghost use Rattle.tdm_problem.specs.Routing.{ratios_of, HasRisingWires};
ghost use Rattle.tdm_problem.specs.Trees.{AreTreesFor};
ghost use Rattle.tdm_problem.specs.declared.limits.TheConstants.{LANES};
ghost use Rattle.tdm_problem.specs.Legal.{IsLegal};
ghost use Rattle.even_legalise.specs.Uniform.{uniform_ratio, uniform_routing, JoinsEachNet, CountsNets};

use crate::counts::nets_on_wires;
use crate::ratio::uniform;
use std::alloc::{AllocError, Global};
use tdm_problem::{LANES, Problem, Solution, Trees, WireUse};

/// The solution in which each net uses the wires of its tree, and all nets of a wire have the same ratio
/// on it, the one of [`uniform`] for their number. The trees are for the problem, and each joins its net.
/// The only error is want of memory.
pub fn uniform_solution(
    alloc: Global,
    problem: &Problem,
    trees: &Trees,
) -> Result<Solution, AllocError>
    requires trees_for { AreTreesFor problem.now trees.now }
    requires joined { JoinsEachNet problem.now trees.now }
    ensures ratios { IfOk result (λ solution. solution ≡ uniform_routing problem.now trees.now) }
    ensures legal { IfOk result (λ solution. IsLegal problem.now solution) }
    ensures small { IfOk result (λ solution. All
        (λ uses. All (λ ratio. ratio < 2 ^ 32) (ratios_of uses)) solution) }
    ensures rising { IfOk result HasRisingWires }
{
    let counts = nets_on_wires(alloc, trees, problem.wires())?;
    with_uniform_ratios(alloc, problem, trees, &counts)
}

/// The solution with these trees, whose nets are counted on each wire.
fn with_uniform_ratios(
    alloc: Global,
    problem: &Problem,
    trees: &Trees,
    counts: &[u32],
) -> Result<Solution, AllocError>
    requires trees_for { AreTreesFor problem.now trees.now }
    requires counted { CountsNets trees.now (length problem.now.wires) counts.now }
    ensures { IfOk result (λ solution. solution ≡ uniform_routing problem.now trees.now) }
{
    let mut solution = Solution::new(alloc);
    let mut uses = Vec::new(alloc);
    for n in 0..trees.nets() {
        set_uses(&mut uses, trees.wires_of(n), counts)?;
        solution.push_net(&uses)?;
    }
    Ok(solution)
}

/// Writes the uses of one net: its wires, each with the uniform ratio for the nets counted on it.
fn set_uses(uses: &mut Vec<WireUse>, wires: &[u32], counts: &[u32]) -> Result<(), AllocError>
    requires there { All (λ e. e < length counts.now) wires.now }
    requires some { All (λ e. 1 ≤ slice_index counts.now e) wires.now }
    requires few { All (λ e. slice_index counts.now e ≤ 2 ^ 20) wires.now }
    ensures { OnOk result (uses.new.items ≡ map
        (λ e. record { wire = e; ratio = uniform_ratio (slice_index counts.now e) LANES }) wires.now) }
{
    uses.clear();
    for e in wires {
        let ratio = uniform(counts[*e as usize], LANES);
        uses.push(WireUse { wire: *e, ratio })?;
    }
    Ok(())
}
