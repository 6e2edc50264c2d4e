//! What the ratios on each wire spend of it, where reciprocals are rounded up.
ghost use Rattle.std.specs.Prelude.{◌≡◌, ℕ, ◌+◌, ◌<◌, ◌≤◌, ◌^◌, ◌==◌, min, length, filter, slice_index, All, EachIndex, IfOk, IsTrue, ◌↔◌};
ghost use Rattle.tdm_problem.specs.declared.solution.WireUse.{WireUse};
ghost use Rattle.tdm_problem.specs.Fit.{FitsLanes};
ghost use Rattle.tdm_problem.specs.Legal.{IsEvenRatio};
ghost use Rattle.tdm_problem.specs.Routing.{ratios_of, ratios_on};
ghost use Rattle.recip_sum.specs.Rounded.{ceiling_sum};
ghost use Rattle.worst_refine.specs.Spent.{IsSpent};

use recip_sum::ceiling_of_reciprocal;
use std::alloc::{AllocError, Global};
use tdm_problem::{Solution, WireUse};

/// A wire, in the units in which reciprocals are rounded up.
pub(crate) const WHOLE: u128 = 1 << 64;

/// For each of so many wires the sum of the reciprocals of its ratios, each rounded up. A sum above [`WHOLE`]
/// counts as one unit above. All ratios are positive and even.
pub(crate) fn spent_on_wires(
    alloc: Global,
    wires: u32,
    solution: &Solution,
) -> Result<Vec<u128>, AllocError>
    requires there { All (λ uses. All (λ (u : WireUse). u.wire < wires) uses) solution.now }
    requires even { All (λ uses. All IsEvenRatio (ratios_of uses)) solution.now }
    ensures { IfOk result (λ spent. IsSpent solution.now wires spent.items) }
{
    let mut spent = vec![in alloc; 0u128; wires as usize]?;
    for n in 0..solution.nets() {
        spend(&mut spent, solution.uses(n));
    }
    Ok(spent)
}

/// Adds the reciprocals of a net's ratios to what is spent on its wires.
fn spend(spent: &mut [u128], uses: &[WireUse])
    requires there { All (λ (u : WireUse). u.wire < length spent.old) uses.now }
    requires positive { All (λ (u : WireUse). 0 < u.ratio) uses.now }
    requires within { All (λ sum. sum ≤ 2 ^ 64 + 1) spent.old }
    ensures { (e : ℕ) → e < length spent.old → slice_index spent.new e
        ≡ min (slice_index spent.old e + ceiling_sum (ratios_of (filter (λ u. u.wire == e) uses.now)))
        (2 ^ 64 + 1) }
{
    for wire_use in uses {
        let place = wire_use.wire as usize;
        let sum = spent[place] + ceiling_of_reciprocal(wire_use.ratio);
        spent[place] = sum.min(WHOLE + 1);
    }
}

/// Whether no wire is overspent, by the reciprocals of its ratios rounded up. Then the ratios fit.
pub(crate) fn fits_by_ceilings(
    alloc: Global,
    wires: u32,
    solution: &Solution,
) -> Result<bool, AllocError>
    requires there { All (λ uses. All (λ (u : WireUse). u.wire < wires) uses) solution.now }
    requires even { All (λ uses. All IsEvenRatio (ratios_of uses)) solution.now }
    ensures { IfOk result (λ fits. IsTrue fits → (e : ℕ) → e < wires
        → FitsLanes (ratios_on solution.now e) 1) }
{
    let spent = spent_on_wires(alloc, wires, solution)?;
    Ok(none_is_above(&spent))
}

/// Whether all these sums are within a wire.
fn none_is_above(spent: &[u128]) -> bool
    ensures { IsTrue result ↔ EachIndex spent.now (λ e. slice_index spent.now e ≤ 2 ^ 64) }
{
    spent.iter().all(|sum| *sum <= WHOLE)
}
