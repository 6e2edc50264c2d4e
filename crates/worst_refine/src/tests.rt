//! Worked examples of lowered ratios.
ghost use Rattle.std.specs.Prelude.{◌≡◌, ◌≤◌, [], ◌∷◌, length, map, IfOk};
ghost use Rattle.tdm_problem.specs.declared.wire.Wire.{Wire};
ghost use Rattle.tdm_problem.specs.declared.solution.WireUse.{WireUse};
ghost use Rattle.tdm_problem.specs.Routing.{IsFor};

use super::*;
use net_groups::Incidence;
use solution_eval::{Verdict, judge};
use std::alloc::{AllocError, Global};
use std::test::Fail;
use tdm_problem::{Problem, ProblemDraft, Solution, Wire, WireUse};

/// Two FPGAs and two wires between them, with one net in no group.
fn one_net_and_two_wires(alloc: Global) -> Result<Problem, AllocError>
    ensures { IfOk result (λ p. p ≡ record {
      fpgas = 2;
      wires = record { a = 0; b = 1 } ∷ record { a = 0; b = 1 } ∷ [];
      nets = (0 ∷ 1 ∷ []) ∷ [];
      groups = [];
    }) }
{
    let mut draft = ProblemDraft::new(alloc, 2);
    draft.push_wire(Wire { a: 0, b: 1 })?;
    draft.push_wire(Wire { a: 0, b: 1 })?;
    draft.push_net(&[0, 1])?;
    Ok(draft.into_problem())
}

/// Two FPGAs and one wire between them, with three nets in one group.
pub(crate) fn three_nets(alloc: Global) -> Result<Problem, AllocError>
    ensures { IfOk result (λ p. p ≡ record {
      fpgas = 2;
      wires = record { a = 0; b = 1 } ∷ [];
      nets = (0 ∷ 1 ∷ []) ∷ (0 ∷ 1 ∷ []) ∷ (0 ∷ 1 ∷ []) ∷ [];
      groups = (0 ∷ 1 ∷ 2 ∷ []) ∷ [];
    }) }
{
    let mut draft = ProblemDraft::new(alloc, 2);
    draft.push_wire(Wire { a: 0, b: 1 })?;
    draft.push_net(&[0, 1])?;
    draft.push_net(&[0, 1])?;
    draft.push_net(&[0, 1])?;
    draft.push_group(&[0, 1, 2])?;
    Ok(draft.into_problem())
}

/// Two FPGAs and one wire between them, with four nets, of which the last is in no group.
fn four_nets(alloc: Global) -> Result<Problem, AllocError>
    ensures { IfOk result (λ p. p ≡ record {
      fpgas = 2;
      wires = record { a = 0; b = 1 } ∷ [];
      nets = (0 ∷ 1 ∷ []) ∷ (0 ∷ 1 ∷ []) ∷ (0 ∷ 1 ∷ []) ∷ (0 ∷ 1 ∷ []) ∷ [];
      groups = (0 ∷ 1 ∷ 2 ∷ []) ∷ [];
    }) }
{
    let mut draft = ProblemDraft::new(alloc, 2);
    draft.push_wire(Wire { a: 0, b: 1 })?;
    draft.push_net(&[0, 1])?;
    draft.push_net(&[0, 1])?;
    draft.push_net(&[0, 1])?;
    draft.push_net(&[0, 1])?;
    draft.push_group(&[0, 1, 2])?;
    Ok(draft.into_problem())
}

/// For each ratio a net that uses wire 0 with it.
fn on_wire_0(alloc: Global, ratios: &[u32]) -> Result<Solution, AllocError>
    requires { length ratios.now ≤ 4 }
    ensures { IfOk result (λ s. s ≡ map (λ ratio. record { wire = 0; ratio = ratio } ∷ []) ratios.now) }
{
    let mut solution = Solution::new(alloc);
    for ratio in ratios {
        let ratio = *ratio;
        solution.push_net(&[WireUse { wire: 0, ratio }])?;
    }
    Ok(solution)
}

/// Lowers the ratios of a solution if it is legal, and tells whether it is.
fn tighten_if_legal(
    alloc: Global,
    problem: &Problem,
    solution: &mut Solution,
) -> Result<bool, AllocError>
    requires { IsFor problem.now solution.old }
{
    if let Verdict::Legal { .. } = judge(alloc, problem, solution)? {
        let incidence = Incidence::of(alloc, problem)?;
        tighten(alloc, problem, &incidence, solution)?;
        return Ok(true);
    }
    Ok(false)
}

/// The ratios of all uses, rising.
fn sorted_ratios(alloc: Global, solution: &Solution) -> Result<Vec<u32>, AllocError> {
    let mut ratios = Vec::new(alloc);
    for n in 0..solution.nets() {
        for wire_use in solution.uses(n) {
            ratios.push(wire_use.ratio)?;
        }
    }
    ratios.sort()?;
    Ok(ratios)
}

#[test]
fn one_of_three_nets_gets_ratio_2(rt: HostRuntime) -> Result<(), Fail> {
    let problem = three_nets(rt.alloc())?;
    let mut solution = on_wire_0(rt.alloc(), &[4, 4, 4])?;
    assert!(rt; tighten_if_legal(rt.alloc(), &problem, &mut solution)?);
    assert_eq!(rt;
        sorted_ratios(rt.alloc(), &solution)?.as_slice(),
        [2, 4, 4].as_slice()
    );
    Ok(())
}

#[test]
fn the_largest_ratios_are_lowered_in_one_pass(rt: HostRuntime) -> Result<(), Fail> {
    let problem = three_nets(rt.alloc())?;
    let mut solution = on_wire_0(rt.alloc(), &[4_294_967_294, 4_294_967_294, 4_294_967_294])?;
    assert!(rt; tighten_if_legal(rt.alloc(), &problem, &mut solution)?);
    assert_eq!(rt;
        sorted_ratios(rt.alloc(), &solution)?.as_slice(),
        [2, 4, 4].as_slice()
    );
    Ok(())
}

#[test]
fn a_sum_of_exactly_one_stays(rt: HostRuntime) -> Result<(), Fail> {
    let problem = four_nets(rt.alloc())?;
    let mut solution = on_wire_0(rt.alloc(), &[2, 6, 6, 6])?;
    assert!(rt; tighten_if_legal(rt.alloc(), &problem, &mut solution)?);
    assert_eq!(rt;
        sorted_ratios(rt.alloc(), &solution)?.as_slice(),
        [2, 6, 6, 6].as_slice()
    );
    Ok(())
}

#[test]
fn a_net_in_no_group_is_lowered(rt: HostRuntime) -> Result<(), Fail> {
    let problem = four_nets(rt.alloc())?;
    let mut solution = on_wire_0(rt.alloc(), &[2, 6, 6, 60])?;
    assert!(rt; tighten_if_legal(rt.alloc(), &problem, &mut solution)?);
    assert_eq!(rt;
        sorted_ratios(rt.alloc(), &solution)?.as_slice(),
        [2, 4, 6, 12].as_slice()
    );
    Ok(())
}

#[test]
fn each_use_of_a_net_is_lowered(rt: HostRuntime) -> Result<(), Fail> {
    let problem = one_net_and_two_wires(rt.alloc())?;
    let mut solution = Solution::new(rt.alloc());
    solution.push_net(&[WireUse { wire: 0, ratio: 8 }, WireUse { wire: 1, ratio: 6 }])?;
    assert!(rt; tighten_if_legal(rt.alloc(), &problem, &mut solution)?);
    assert_eq!(rt;
        sorted_ratios(rt.alloc(), &solution)?.as_slice(),
        [2, 2].as_slice()
    );
    Ok(())
}
