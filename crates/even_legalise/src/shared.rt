//! The solution that shares give.
ghost use Rattle.std.specs.Prelude.{◌≡◌, ◌<◌, ◌≤◌, ◌*◌, ◌^◌, max, length, map, slice_index, All, IfOk, OnOk};
ghost use Rattle.tdm_problem.specs.Limits.{most_number};
ghost use Rattle.tdm_problem.specs.declared.solution.WireUse.{WireUse};
ghost use Rattle.tdm_problem.specs.Routing.{ratios_of, HasRisingWires};
ghost use Rattle.tdm_problem.specs.Trees.{AreTreesFor, HasRisingRows};
ghost use Rattle.tdm_problem.specs.Legal.{IsLegal};
ghost use Rattle.ratio_shares.specs.Shares.{share_for};
ghost use Rattle.even_legalise.specs.Uniform.{JoinsEachNet};
ghost use Rattle.even_legalise.specs.Shared.{even_ratio, shared_routing};
ghost use Rattle.even_legalise.specs.Claims.{HasLeast, HasClaims};

use crate::claims::{all_claims, least_claims};
use crate::even::ratio_for;
use ratio_shares::claim;
use std::alloc::{AllocError, Global};
use tdm_problem::{Problem, Solution, Trees, WireUse};

/// The solution in which each net uses the wires of its tree with the ratios that shares give: on a wire, the
/// numbers `s` of its nets share the lanes, and [`even_of`](crate::even_of) of a net's share is its ratio.
/// The trees are for the problem, and each joins its net; there is a number for each net, at most 2^30. The
/// only error is want of memory.
pub fn legalise(
    alloc: Global,
    problem: &Problem,
    trees: &Trees,
    s: &[u64],
) -> Result<Solution, AllocError>
    requires trees_for { AreTreesFor problem.now trees.now }
    requires joined { JoinsEachNet problem.now trees.now }
    requires paired { length s.now ≡ length problem.now.nets }
    requires small { All (λ number. number ≤ most_number) s.now }
    ensures ratios { IfOk result (λ solution. solution ≡ shared_routing problem.now trees.now s.now) }
    ensures legal { IfOk result (λ solution. IsLegal problem.now solution) }
    ensures small { IfOk result (λ solution. All
        (λ uses. All (λ ratio. ratio < 2 ^ 32) (ratios_of uses)) solution) }
    ensures rising { IfOk result HasRisingWires }
{
    let least = least_claims(alloc, trees, s, problem.wires())?;
    let claims = all_claims(alloc, trees, s, &least)?;
    with_shared_ratios(alloc, problem, trees, s, &least, &claims)
}

/// The solution with these trees, where the least claim and all claims are known of each wire.
fn with_shared_ratios(
    alloc: Global,
    problem: &Problem,
    trees: &Trees,
    s: &[u64],
    least: &[u64],
    claims: &[u64],
) -> Result<Solution, AllocError>
    requires trees_for { AreTreesFor problem.now trees.now }
    requires paired { length s.now ≡ length trees.now }
    requires small { All (λ number. number ≤ 2 ^ 30) s.now }
    requires is_least { HasLeast trees.now s.now (length problem.now.wires) least.now }
    requires is_claims { HasClaims trees.now s.now (length problem.now.wires) claims.now }
    requires rising { HasRisingRows trees.now }
    ensures { IfOk result (λ solution. solution ≡ shared_routing problem.now trees.now s.now) }
{
    let mut solution = Solution::new(alloc);
    let mut uses = Vec::new(alloc);
    for n in 0..trees.nets() {
        set_shared_uses(&mut uses, trees.wires_of(n), s[n as usize], least, claims)?;
        solution.push_net(&uses)?;
    }
    Ok(solution)
}

/// Writes the uses of one net: its wires, each with the ratio for the net's claim on it.
fn set_shared_uses(
    uses: &mut Vec<WireUse>,
    wires: &[u32],
    number: u64,
    least: &[u64],
    claims: &[u64],
) -> Result<(), AllocError>
    requires small { number ≤ 2 ^ 30 }
    requires paired { length claims.now ≡ length least.now }
    requires there { All (λ e. e < length least.now) wires.now }
    requires some { All (λ e. 1 ≤ slice_index least.now e) wires.now }
    requires least_small { All (λ e. slice_index least.now e ≤ 2 ^ 30) wires.now }
    requires some_claims { All (λ e. 1 ≤ slice_index claims.now e) wires.now }
    requires few { All (λ e. slice_index claims.now e ≤ 2 ^ 30 * max number (slice_index least.now e))
        wires.now }
    ensures { OnOk result (uses.new.items ≡ map (λ e. record {
      wire = e;
      ratio = even_ratio (share_for (slice_index claims.now e) 1 (max number (slice_index least.now e)));
    }) wires.now) }
{
    uses.clear();
    for e in wires {
        let place = *e as usize;
        let ratio = ratio_for(claim(number, least[place]), claims[place]);
        uses.push(WireUse { wire: *e, ratio })?;
    }
    Ok(())
}
