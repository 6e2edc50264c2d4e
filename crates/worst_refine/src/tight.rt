//! Ratios lowered until none can be lowered by 2.
ghost use Rattle.std.specs.Prelude.{◌≡◌, ℕ, ◌+◌, ◌<◌, ◌≤◌, ◌==◌, length, count_by, IsTrue, IfOk, OnOk};
ghost use Rattle.tdm_problem.specs.Fit.{FitsLanes};
ghost use Rattle.tdm_problem.specs.Legal.{IsLegal, IsEvenRatio};
ghost use Rattle.tdm_problem.specs.Limits.{most_wires};
ghost use Rattle.tdm_problem.specs.Routing.{uses_of};
ghost use Rattle.tdm_problem.specs.Tight.{IsTight};
ghost use Rattle.tdm_problem.specs.Value.{value_of};
ghost use Rattle.net_groups.specs.Incidence.{IsIncidenceOf};
ghost use Rattle.recip_sum.specs.Counts.{items};
ghost use Rattle.recip_sum.specs.Rounded.{floor_sum};
ghost use Rattle.solution_eval.specs.Counted.{CountsRatios};
ghost use Rattle.worst_refine.specs.Fitting.{HasFittingRatios};
ghost use Rattle.worst_refine.specs.Lowered.{IsLowered};
ghost use Rattle.worst_refine.specs.Steps.{AreInDoubt, CannotBeLowered, FloorsTell, IsReplaced, IsStep};

use crate::doubt::wires_in_doubt;
use crate::sure::lower_surely;
use net_groups::Incidence;
use recip_sum::{Counts, floor_of_reciprocal, items_are_counted};
use solution_eval::count_ratios;
use std::alloc::{AllocError, Global};
use tdm_problem::{MAX_WIRES, Problem, Solution};

/// Lowers ratios of a legal solution until none above 2 can be lowered by 2. The solution stays legal, each
/// net keeps its wires, and neither a ratio nor the value rises.
///
/// A cheap pass comes first, in which ratios of nets of the worst groups are lowered before others, as far as
/// reciprocals rounded up leave room. One exact pass over all uses is then enough: a ratio that is lowered
/// leaves less room for the others, so that one which could not be lowered still cannot. It counts ratios on
/// those wires alone of which the reciprocals rounded up do not tell that none can be lowered. There a use is
/// passed over where the reciprocals rounded down tell that its ratio is the least.
///
/// The only error is want of memory, after which all of this holds but that none can be lowered.
pub fn tighten(
    alloc: Global,
    problem: &Problem,
    incidence: &Incidence,
    solution: &mut Solution,
) -> Result<(), AllocError>
    requires incidence { IsIncidenceOf problem.now incidence.now }
    requires legal { IsLegal problem.now solution.old }
    ensures legal { IsLegal problem.now solution.new }
    ensures lowered { IsLowered solution.old solution.new }
    ensures value { value_of problem.now solution.new ≤ value_of problem.now solution.old }
    ensures tight { OnOk result (IsTight problem.now solution.new) }
{
    let spent = lower_surely(alloc, problem, incidence, solution)?;
    prove!(problem.wires() <= MAX_WIRES);
    let doubtful = wires_in_doubt(alloc, &spent, solution)?;
    let mut counts = count_ratios(alloc, problem, solution, &doubtful)?;
    tighten_nets(&mut counts, &doubtful, solution)
}

/// Lowers the ratios of all nets. The counts are of the ratios on each wire that is in doubt.
fn tighten_nets(
    counts: &mut [Counts],
    doubtful: &[bool],
    solution: &mut Solution,
) -> Result<(), AllocError>
    requires few { length counts.old ≤ most_wires }
    requires fitting { HasFittingRatios (length counts.old) solution.old }
    requires counted { CountsRatios doubtful.now solution.old (length counts.old) counts.old }
    requires doubtful { length doubtful.now ≡ length counts.old }
    requires in_doubt { AreInDoubt doubtful.now solution.old }
    ensures fitting { HasFittingRatios (length counts.old) solution.new }
    ensures lowered { IsLowered solution.old solution.new }
    ensures tight { OnOk result ((n place : ℕ) → n < length solution.new
        → place < length (uses_of solution.new n) → CannotBeLowered solution.new n place) }
{
    for n in 0..solution.nets() {
        tighten_net(counts, doubtful, solution, n)?;
    }
    Ok(())
}

/// Lowers the ratios of one net.
fn tighten_net(
    counts: &mut [Counts],
    doubtful: &[bool],
    solution: &mut Solution,
    n: u32,
) -> Result<(), AllocError>
    requires few { length counts.old ≤ most_wires }
    requires fitting { HasFittingRatios (length counts.old) solution.old }
    requires counted { CountsRatios doubtful.now solution.old (length counts.old) counts.old }
    requires doubtful { length doubtful.now ≡ length counts.old }
    requires in_doubt { AreInDoubt doubtful.now solution.old }
    requires there { n < length solution.old }
    ensures size { length counts.new ≡ length counts.old }
    ensures fitting { HasFittingRatios (length counts.old) solution.new }
    ensures lowered { IsLowered solution.old solution.new }
    ensures step { OnOk result (IsStep (length counts.old) doubtful.now solution.old solution.new counts.new n
        0
        (length (uses_of solution.old n))) }
{
    let places = solution.uses(n).len() as u32;
    for place in 0..places {
        tighten_use(counts, doubtful, solution, n, place)?;
    }
    Ok(())
}

/// Lowers the ratio at a place of a net to the least that fits beside the other ratios on its wire.
fn tighten_use(
    counts: &mut [Counts],
    doubtful: &[bool],
    solution: &mut Solution,
    n: u32,
    place: u32,
) -> Result<(), AllocError>
    requires fitting { HasFittingRatios (length counts.old) solution.old }
    requires counted { CountsRatios doubtful.now solution.old (length counts.old) counts.old }
    requires doubtful { length doubtful.now ≡ length counts.old }
    requires in_doubt { AreInDoubt doubtful.now solution.old }
    requires there { n < length solution.old }
    requires place_there { place < length (uses_of solution.old n) }
    ensures size { length counts.new ≡ length counts.old }
    ensures fitting { HasFittingRatios (length counts.old) solution.new }
    ensures lowered { IsLowered solution.old solution.new }
    ensures step { OnOk result
        (IsStep (length counts.old) doubtful.now solution.old solution.new counts.new n place (place + 1)) }
{
    let wire_use = solution.uses(n)[place as usize];
    let wire = wire_use.wire as usize;
    if !doubtful[wire] {
        return Ok(());
    }
    if floors_tell(&counts[wire], wire_use.ratio) {
        return Ok(());
    }
    let ratio = replace_by_least(&mut counts[wire], wire_use.ratio)?;
    solution.set_ratio(n, place, ratio);
    Ok(())
}

/// Whether the reciprocals rounded down tell that one of these ratios cannot be lowered by 2.
fn floors_tell(counts: &Counts, ratio: u32) -> bool
    requires { 0 < ratio }
    ensures { IsTrue result → FloorsTell (floor_sum (items counts.now)) ratio }
{
    if ratio <= 2 {
        return true;
    }
    let most = (1 << 64) + floor_of_reciprocal(ratio);
    counts
        .floor_sum()
        .saturating_add(floor_of_reciprocal(ratio - 2))
        > most
}

/// Takes an item of the ratio away, and adds one of the least even ratio that fits in its place.
fn replace_by_least(counts: &mut Counts, ratio: u32) -> Result<u32, AllocError>
    requires there { 0 < count_by (λ r. r == ratio) (items counts.old) }
    requires even { IsEvenRatio ratio }
    requires fits { FitsLanes (items counts.old) 1 }
    ensures { IfOk result (λ least. IsReplaced counts.old counts.new ratio least) }
{
    items_are_counted();
    counts.remove(ratio);
    let least = counts.least_ratio(1);
    counts.add(least)?;
    Ok(least)
}
