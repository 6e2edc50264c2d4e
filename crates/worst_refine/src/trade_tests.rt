//! Worked examples of traded ratios.
ghost use Rattle.std.specs.Prelude.{◌≡◌, ◌≤◌, [], ◌∷◌, length, map, All, IfOk};
ghost use Rattle.tdm_problem.specs.declared.wire.Wire.{Wire};
ghost use Rattle.tdm_problem.specs.declared.solution.WireUse.{WireUse};
ghost use Rattle.tdm_problem.specs.Routing.{IsFor};
ghost use Rattle.tdm_problem.specs.Trees.{AreTreesFor};
ghost use Rattle.even_legalise.specs.Uniform.{JoinsEachNet};
ghost use Rattle.worst_refine.specs.Traded.{HasSmallRatios};

use super::tests::three_nets;
use super::{trade, trade_from};
use net_groups::Incidence;
use solution_eval::{Verdict, judge};
use std::alloc::{AllocError, Global};
use std::test::Fail;
use tdm_problem::{Problem, ProblemDraft, Solution, Trees, Wire, WireUse};

/// Two FPGAs and one wire between them, with five nets, of which the first four are in one group and the last
/// in another.
fn five_nets(alloc: Global) -> Result<Problem, AllocError>
    ensures { IfOk result (λ p. p ≡ record {
      fpgas = 2;
      wires = record { a = 0; b = 1 } ∷ [];
      nets = (0 ∷ 1 ∷ []) ∷ (0 ∷ 1 ∷ []) ∷ (0 ∷ 1 ∷ []) ∷ (0 ∷ 1 ∷ []) ∷ (0 ∷ 1 ∷ []) ∷ [];
      groups = (0 ∷ 1 ∷ 2 ∷ 3 ∷ []) ∷ (4 ∷ []) ∷ [];
    }) }
{
    let mut draft = ProblemDraft::new(alloc, 2);
    draft.push_wire(Wire { a: 0, b: 1 })?;
    draft.push_net(&[0, 1])?;
    draft.push_net(&[0, 1])?;
    draft.push_net(&[0, 1])?;
    draft.push_net(&[0, 1])?;
    draft.push_net(&[0, 1])?;
    draft.push_group(&[0, 1, 2, 3])?;
    draft.push_group(&[4])?;
    Ok(draft.into_problem())
}

/// For each ratio a net that uses wire 0 with it.
fn on_wire_0(alloc: Global, ratios: &[u32]) -> Result<Solution, AllocError>
    requires few { length ratios.now ≤ 5 }
    requires small { All (λ ratio. ratio ≤ 4294967294) ratios.now }
    ensures solution { IfOk result (λ s. s ≡ map (λ ratio. record { wire = 0; ratio = ratio } ∷ [])
        ratios.now) }
    ensures small { IfOk result HasSmallRatios }
{
    let mut solution = Solution::new(alloc);
    for ratio in ratios {
        let ratio = *ratio;
        solution.push_net(&[WireUse { wire: 0, ratio }])?;
    }
    Ok(solution)
}

/// Trades ratios of a solution if it is legal, and answers the value then, or 0 where it is not.
fn traded_value(
    alloc: Global,
    problem: &Problem,
    solution: &mut Solution,
    turns: u32,
) -> Result<u128, AllocError>
    requires is_for { IsFor problem.now solution.old }
    requires small { HasSmallRatios solution.old }
{
    let incidence = Incidence::of(alloc, problem)?;
    if let Verdict::Legal { .. } = judge(alloc, problem, solution)? {
        trade(alloc, problem, &incidence, solution, turns)?;
        if let Verdict::Legal { value } = judge(alloc, problem, solution)? {
            return Ok(value);
        }
    }
    Ok(0)
}

/// The same tree, wire 0, for each of three nets.
fn wire_for_three_nets(alloc: Global) -> Result<Trees, AllocError>
    ensures { IfOk result (λ t. t ≡ (0 ∷ []) ∷ (0 ∷ []) ∷ (0 ∷ []) ∷ []) }
{
    let mut trees = Trees::new(alloc);
    trees.push_net(&[0])?;
    trees.push_net(&[0])?;
    trees.push_net(&[0])?;
    Ok(trees)
}

/// The value of what the first trade finds for these trees below `best`, or 0 where it finds nothing.
fn value_from(
    alloc: Global,
    problem: &Problem,
    trees: &Trees,
    s: &[u64],
    best: u128,
) -> Result<u128, AllocError>
    requires trees_for { AreTreesFor problem.now trees.now }
    requires joined { JoinsEachNet problem.now trees.now }
    requires paired { length s.now ≡ length problem.now.nets }
{
    let incidence = Incidence::of(alloc, problem)?;
    match trade_from(alloc, problem, &incidence, trees, s, best, true)? {
        Some(traded) => Ok(traded.value),
        None => Ok(0),
    }
}

#[test]
fn a_trade_from_numbers_is_below_the_best_or_nothing(rt: HostRuntime) -> Result<(), Fail> {
    let problem = three_nets(rt.alloc())?;
    let trees = wire_for_three_nets(rt.alloc())?;
    let below_12 = value_from(rt.alloc(), &problem, &trees, &[1024, 1024, 1024], 12)?;
    assert_eq!(rt; below_12, 10);
    let below_10 = value_from(rt.alloc(), &problem, &trees, &[1024, 1024, 1024], 10)?;
    assert_eq!(rt; below_10, 0);
    Ok(())
}

#[test]
fn a_trade_lowers_the_sum_of_the_worst_group(rt: HostRuntime) -> Result<(), Fail> {
    let three = three_nets(rt.alloc())?;
    let mut solution = on_wire_0(rt.alloc(), &[2, 4, 4])?;
    assert_eq!(rt; traded_value(rt.alloc(), &three, &mut solution, 5)?, 10);
    let five = five_nets(rt.alloc())?;
    let mut solution = on_wire_0(rt.alloc(), &[4, 4, 6, 6, 6])?;
    assert_eq!(rt; traded_value(rt.alloc(), &five, &mut solution, 5)?, 18);
    Ok(())
}

#[test]
fn without_turns_nothing_is_traded(rt: HostRuntime) -> Result<(), Fail> {
    let problem = five_nets(rt.alloc())?;
    let mut solution = on_wire_0(rt.alloc(), &[4, 4, 6, 6, 6])?;
    assert_eq!(rt; traded_value(rt.alloc(), &problem, &mut solution, 0)?, 20);
    Ok(())
}
