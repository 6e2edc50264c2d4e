//! Which wires are in doubt: where the reciprocals rounded up do not tell that no ratio can be lowered.
ghost use Rattle.std.specs.Prelude.{◌≡◌, ℕ, ◌<◌, length, slice_index, All, IsTrue, IfOk};
ghost use Rattle.tdm_problem.specs.declared.solution.WireUse.{WireUse};
ghost use Rattle.solution_eval.specs.Counted.{IsWanted};
ghost use Rattle.worst_refine.specs.Fitting.{HasFittingRatios};
ghost use Rattle.worst_refine.specs.Spent.{IsSpent};
ghost use Rattle.worst_refine.specs.Steps.{AreInDoubt, CeilingsTell};

use crate::spending::WHOLE;
use recip_sum::floor_of_reciprocal;
use std::alloc::{AllocError, Global};
use tdm_problem::{Solution, WireUse};

/// The wires on which a ratio may be one that can be lowered by 2, from what the ratios spend of each.
///
/// The only error is want of memory.
pub(crate) fn wires_in_doubt(
    alloc: Global,
    spent: &[u128],
    solution: &Solution,
) -> Result<Vec<bool>, AllocError>
    requires fitting { HasFittingRatios (length spent.now) solution.now }
    requires spent { IsSpent solution.now (length spent.now) spent.now }
    ensures size { IfOk result (λ doubtful. length doubtful.items ≡ length spent.now) }
    ensures in_doubt { IfOk result (λ doubtful. AreInDoubt doubtful.items solution.now) }
{
    let mut doubtful = vec![in alloc; false; spent.len()]?;
    for n in 0..solution.nets() {
        doubt(&mut doubtful, spent, solution.uses(n), solution.nets());
    }
    Ok(doubtful)
}

/// Marks the wires of these uses of which it is not sure that their ratios cannot be lowered. At most so many
/// ratios are on a wire.
fn doubt(doubtful: &mut [bool], spent: &[u128], uses: &[WireUse], count: u32)
    requires size { length doubtful.old ≡ length spent.now }
    requires there { All (λ (u : WireUse). u.wire < length spent.now) uses.now }
    requires positive { All (λ (u : WireUse). 0 < u.ratio) uses.now }
    ensures size { length doubtful.new ≡ length doubtful.old }
    ensures more { (e : ℕ) → IsWanted doubtful.old e → IsWanted doubtful.new e }
    ensures sure { All (λ (u : WireUse). ¬ IsWanted doubtful.new u.wire
        → CeilingsTell (slice_index spent.now u.wire) count u.ratio) uses.now }
{
    for wire_use in uses {
        let wire = wire_use.wire as usize;
        let tell = ceilings_tell(spent[wire], count, wire_use.ratio);
        doubtful[wire] |= !tell;
    }
}

/// Whether the reciprocals rounded up, which sum to this for at most so many ratios, tell that this one of
/// them cannot be lowered by 2.
fn ceilings_tell(sum: u128, count: u32, ratio: u32) -> bool
    requires { 0 < ratio }
    ensures { IsTrue result → CeilingsTell sum count ratio }
{
    if ratio <= 2 {
        return true;
    }
    let most = WHOLE + u128::from(count) + floor_of_reciprocal(ratio);
    sum.saturating_add(floor_of_reciprocal(ratio - 2)) > most
}
