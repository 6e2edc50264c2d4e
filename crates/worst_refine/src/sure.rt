//! A cheap first pass, in which ratios are lowered as far as the reciprocals rounded up surely leave room.
ghost use Rattle.std.specs.Prelude.{◌≡◌, ◌<◌, ◌≤◌, length, All, IfOk};
ghost use Rattle.tdm_problem.specs.Legal.{IsEvenRatio};
ghost use Rattle.tdm_problem.specs.Limits.{most_wires};
ghost use Rattle.tdm_problem.specs.Routing.{uses_of};
ghost use Rattle.net_groups.specs.Incidence.{IsIncidenceOf};
ghost use Rattle.worst_refine.specs.Fitting.{HasFittingRatios};
ghost use Rattle.worst_refine.specs.Lowered.{IsLowered};
ghost use Rattle.worst_refine.specs.Spent.{IsSpent, IsSureStep};

use crate::spending::{WHOLE, spent_on_wires};
use crate::worst_groups::worst_groups;
use net_groups::Incidence;
use recip_sum::ceiling_of_reciprocal;
use std::alloc::{AllocError, Global};
use tdm_problem::{MAX_WIRES, Problem, Solution};

/// The half of the greatest even ratio.
const MOST_HALF: u64 = (1 << 31) - 1;

/// Lowers ratios of nets, those of the worst groups first, as far as the reciprocals rounded up leave room.
/// Answers what the ratios then spend of each wire.
///
/// The only error is want of memory.
pub(crate) fn lower_surely(
    alloc: Global,
    problem: &Problem,
    incidence: &Incidence,
    solution: &mut Solution,
) -> Result<Vec<u128>, AllocError>
    requires incidence { IsIncidenceOf problem.now incidence.now }
    requires paired { length solution.old ≡ length problem.now.nets }
    requires fitting { HasFittingRatios (length problem.now.wires) solution.old }
    ensures fitting { HasFittingRatios (length problem.now.wires) solution.new }
    ensures lowered { IsLowered solution.old solution.new }
    ensures spent { IfOk result (λ spent. IsSpent solution.new (length problem.now.wires) spent.items) }
{
    prove!(problem.wires() <= MAX_WIRES);
    let groups = worst_groups(alloc, problem, incidence, solution)?;
    let mut spent = spent_on_wires(alloc, problem.wires(), solution)?;
    lower_groups(&mut spent, solution, problem, &groups);
    lower_all(&mut spent, solution);
    Ok(spent)
}

/// Lowers ratios of the nets of these groups.
fn lower_groups(spent: &mut [u128], solution: &mut Solution, problem: &Problem, groups: &[u32])
    requires few { length spent.old ≤ most_wires }
    requires there { All (λ g. g < length problem.now.groups) groups.now }
    requires paired { length solution.old ≡ length problem.now.nets }
    requires fitting { HasFittingRatios (length spent.old) solution.old }
    requires spent { IsSpent solution.old (length spent.old) spent.old }
    ensures { IsSureStep (length spent.old) solution.old solution.new spent.new }
{
    for g in groups {
        lower_nets(spent, solution, problem.group(*g));
    }
}

/// Lowers ratios of these nets.
fn lower_nets(spent: &mut [u128], solution: &mut Solution, nets: &[u32])
    requires few { length spent.old ≤ most_wires }
    requires there { All (λ n. n < length solution.old) nets.now }
    requires fitting { HasFittingRatios (length spent.old) solution.old }
    requires spent { IsSpent solution.old (length spent.old) spent.old }
    ensures { IsSureStep (length spent.old) solution.old solution.new spent.new }
{
    for n in nets {
        lower_net(spent, solution, *n);
    }
}

/// Lowers ratios of all nets, in order.
fn lower_all(spent: &mut [u128], solution: &mut Solution)
    requires few { length spent.old ≤ most_wires }
    requires fitting { HasFittingRatios (length spent.old) solution.old }
    requires spent { IsSpent solution.old (length spent.old) spent.old }
    ensures { IsSureStep (length spent.old) solution.old solution.new spent.new }
{
    for n in 0..solution.nets() {
        lower_net(spent, solution, n);
    }
}

/// Lowers ratios of one net.
fn lower_net(spent: &mut [u128], solution: &mut Solution, n: u32)
    requires few { length spent.old ≤ most_wires }
    requires there { n < length solution.old }
    requires fitting { HasFittingRatios (length spent.old) solution.old }
    requires spent { IsSpent solution.old (length spent.old) spent.old }
    ensures { IsSureStep (length spent.old) solution.old solution.new spent.new }
{
    let places = solution.uses(n).len() as u32;
    for place in 0..places {
        lower_use(spent, solution, n, place);
    }
}

/// Lowers the ratio at a place of a net as far as there surely is room on its wire.
fn lower_use(spent: &mut [u128], solution: &mut Solution, n: u32, place: u32)
    requires there { n < length solution.old }
    requires place_there { place < length (uses_of solution.old n) }
    requires fitting { HasFittingRatios (length spent.old) solution.old }
    requires spent { IsSpent solution.old (length spent.old) spent.old }
    ensures { IsSureStep (length spent.old) solution.old solution.new spent.new }
{
    let wire_use = solution.uses(n)[place as usize];
    let wire = wire_use.wire as usize;
    if spent[wire] > WHOLE {
        return;
    }
    let own = ceiling_of_reciprocal(wire_use.ratio);
    let ratio = least_ratio_within(WHOLE - spent[wire] + own);
    let sum = (spent[wire] + ceiling_of_reciprocal(ratio)).saturating_sub(own);
    if ratio >= wire_use.ratio || sum > WHOLE {
        return;
    }
    spent[wire] = sum;
    solution.set_ratio(n, place, ratio);
}

/// The least even ratio whose reciprocal is at most this part of a wire, or the greatest even ratio where
/// none is.
fn least_ratio_within(part: u128) -> u32
    ensures { IsEvenRatio result }
{
    let part = part.clamp(1, 1 << 63) as u64;
    let half = (u64::MAX / part / 2 + 1).min(MOST_HALF);
    2 * half as u32
}
