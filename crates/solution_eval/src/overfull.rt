//! Which wire first has ratios whose reciprocals do not fit it.
ghost use Rattle.std.specs.Prelude.{◌≡◌, ℕ, ◌<◌, ◌^◌, ◌≢◌, ◌==◌, Bool, List, [], ◌++◌, length, filter, All, AllPairs, IfOk, OnOk, MatchOption};
ghost use Rattle.tdm_problem.specs.declared.solution.WireUse.{WireUse};
ghost use Rattle.tdm_problem.specs.Routing.{wires_of, ratios_of, IsFor};
ghost use Rattle.recip_sum.specs.Items.{SameReciprocals};
ghost use Rattle.solution_eval.specs.Violations.{HasEvenRatios, IsFitting, AllBelow, IsFirstWithout};
ghost use Rattle.solution_eval.specs.Counted.{items_at, CountsRatios, IsWanted};

use recip_sum::Counts;
use std::alloc::{AllocError, Global};
use tdm_problem::{LANES, Problem, Solution, WireUse};

/// The first wire on which the reciprocals of the ratios sum to more than its lanes. All ratios are positive
/// and even. The only error is want of memory.
pub(crate) fn first_overfull(
    alloc: Global,
    problem: &Problem,
    solution: &Solution,
) -> Result<Option<u32>, AllocError>
    requires is_for { IsFor problem.now solution.now }
    requires even { AllBelow (HasEvenRatios solution.now) (length solution.now) }
    ensures { IfOk result (λ found. MatchOption found
        (AllBelow (IsFitting problem.now solution.now) (length problem.now.wires))
        (IsFirstWithout (IsFitting problem.now solution.now) (length problem.now.wires))) }
{
    let every_wire = vec![in alloc; true; problem.wires() as usize]?;
    let mut counts = count_ratios(alloc, problem, solution, &every_wire)?;
    for e in 0..problem.wires() {
        if !counts[e as usize].fits_lanes(LANES) {
            return Ok(Some(e));
        }
    }
    Ok(None)
}

/// Counts the ratios on each wire that is wanted, in one pass over all uses. There are counts for the other
/// wires too, of which nothing is promised. `wanted` has a place for each wire, and all ratios are positive
/// and even. The only error is want of memory.
pub fn count_ratios(
    alloc: Global,
    problem: &Problem,
    solution: &Solution,
    wanted: &[bool],
) -> Result<Vec<Counts>, AllocError>
    requires is_for { IsFor problem.now solution.now }
    requires even { AllBelow (HasEvenRatios solution.now) (length solution.now) }
    requires wanted { length wanted.now ≡ length problem.now.wires }
    ensures { IfOk result (λ counts. CountsRatios wanted.now solution.now (length problem.now.wires)
        counts.items) }
{
    let mut counts = no_counts(alloc, problem.wires())?;
    for n in 0..solution.nets() {
        add_uses(&mut counts, wanted, solution.uses(n))?;
    }
    Ok(counts)
}

/// Counts without items, for so many wires.
fn no_counts(alloc: Global, wires: u32) -> Result<Vec<Counts>, AllocError>
    ensures { IfOk result (λ counts. (wanted : List Bool) → CountsRatios wanted [] wires counts.items) }
{
    let mut counts = Vec::new(alloc);
    for _ in 0..wires {
        counts.push(Counts::new(alloc))?;
    }
    Ok(counts)
}

/// Counts the ratios of one net's uses, each at its wire if that is wanted.
fn add_uses(counts: &mut [Counts], wanted: &[bool], uses: &[WireUse]) -> Result<(), AllocError>
    requires wanted { length wanted.now ≡ length counts.old }
    requires there { All (λ (u : WireUse). u.wire < length counts.old) uses.now }
    requires distinct { AllPairs (λ d e. d ≢ e) (wires_of uses.now) }
    requires positive { All (λ (u : WireUse). 0 < u.ratio) uses.now }
    requires room { (e : ℕ) → e < length counts.old → IsWanted wanted.now e → length (items_at counts.old e)
        < 2 ^ 20 }
    ensures size { OnOk result (length counts.new ≡ length counts.old) }
    ensures counted { OnOk result ((e : ℕ) → e < length counts.old → IsWanted wanted.now e
        → SameReciprocals (items_at counts.new e)
        (items_at counts.old e ++ ratios_of (filter (λ u. u.wire == e) uses.now))) }
{
    for wire_use in uses {
        let wire = wire_use.wire as usize;
        if !wanted[wire] {
            continue;
        }
        counts[wire].add(wire_use.ratio)?;
    }
    Ok(())
}
