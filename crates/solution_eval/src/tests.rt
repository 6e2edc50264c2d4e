ghost use Rattle.std.specs.Prelude.{◌≡◌, ◌≤◌, [], ◌∷◌, length, map, IfOk};
ghost use Rattle.tdm_problem.specs.declared.wire.Wire.{Wire};
ghost use Rattle.tdm_problem.specs.declared.solution.WireUse.{WireUse};

use super::*;
use std::alloc::{AllocError, Global};
use std::test::Fail;
use tdm_problem::{Problem, ProblemDraft, Solution, Wire, WireUse};

/// Two FPGAs and one wire between them, with one net in one group.
fn one_net(alloc: Global) -> Result<Problem, AllocError>
    ensures { IfOk result (λ p. p ≡ record {
      fpgas = 2;
      wires = record { a = 0; b = 1 } ∷ [];
      nets =
          (0 ∷ 1 ∷ []) ∷ [];
      groups = (0 ∷ []) ∷ [];
    }) }
{
    let mut draft = ProblemDraft::new(alloc, 2);
    draft.push_wire(Wire { a: 0, b: 1 })?;
    draft.push_net(&[0, 1])?;
    draft.push_group(&[0])?;
    Ok(draft.into_problem())
}

/// The same with a second wire between them.
fn one_net_and_two_wires(alloc: Global) -> Result<Problem, AllocError>
    ensures { IfOk result (λ p. p ≡ record {
      fpgas = 2;
      wires = record { a = 0; b = 1 } ∷ record {
        a = 0;
        b = 1;
      } ∷ [];
      nets = (0 ∷ 1 ∷ []) ∷ [];
      groups = (0 ∷ []) ∷ [];
    }) }
{
    let mut draft = ProblemDraft::new(alloc, 2);
    draft.push_wire(Wire { a: 0, b: 1 })?;
    draft.push_wire(Wire { a: 0, b: 1 })?;
    draft.push_net(&[0, 1])?;
    draft.push_group(&[0])?;
    Ok(draft.into_problem())
}

/// Two FPGAs and one wire between them, with three nets in one group.
fn three_nets(alloc: Global) -> Result<Problem, AllocError>
    ensures { IfOk result (λ p. p ≡ record {
      fpgas = 2;
      wires = record { a = 0; b = 1 } ∷ [];
      nets =
          (0 ∷ 1 ∷ []) ∷ (0 ∷ 1 ∷ []) ∷ (0 ∷ 1 ∷ []) ∷ [];
      groups = (0 ∷ 1 ∷ 2 ∷ []) ∷ [];
    }) }
{
    let mut draft = ProblemDraft::new(alloc, 2);
    draft.push_wire(Wire { a: 0, b: 1 })?;
    draft.push_net(&[0, 1])?;
    draft.push_net(&[0, 1])?;
    draft.push_net(&[0, 1])?;
    draft.push_group(&[0, 1, 2])?;
    Ok(draft.into_problem())
}

/// Two FPGAs and one wire between them, with four nets in one group.
fn four_nets(alloc: Global) -> Result<Problem, AllocError>
    ensures { IfOk result (λ p. p ≡ record {
      fpgas = 2;
      wires = record { a = 0; b = 1 } ∷ [];
      nets =
          (0 ∷ 1 ∷ []) ∷ (0 ∷ 1 ∷ []) ∷ (0 ∷ 1 ∷ []) ∷ (0 ∷ 1 ∷ []) ∷ [];
      groups =
          (0 ∷ 1 ∷ 2 ∷ 3 ∷ []) ∷ [];
    }) }
{
    let mut draft = ProblemDraft::new(alloc, 2);
    draft.push_wire(Wire { a: 0, b: 1 })?;
    draft.push_net(&[0, 1])?;
    draft.push_net(&[0, 1])?;
    draft.push_net(&[0, 1])?;
    draft.push_net(&[0, 1])?;
    draft.push_group(&[0, 1, 2, 3])?;
    Ok(draft.into_problem())
}

/// For each ratio a net that uses wire 0 with it.
fn on_wire_0(alloc: Global, ratios: &[u32]) -> Result<Solution, AllocError>
    requires { length ratios.now ≤ 4 }
    ensures { IfOk result (λ s. s ≡ map (λ ratio. record { wire = 0; ratio = ratio } ∷ []) ratios.now) }
{
    let mut solution = Solution::new(alloc);
    for ratio in ratios {
        let ratio = *ratio;
        solution.push_net(&[WireUse { wire: 0, ratio }])?;
    }
    Ok(solution)
}

#[test]
fn a_sum_of_exactly_one_is_legal(rt: HostRuntime) -> Result<(), Fail> {
    let problem = four_nets(rt.alloc())?;
    let solution = on_wire_0(rt.alloc(), &[2, 6, 6, 6])?;
    assert_eq!(rt;
        judge(rt.alloc(), &problem, &solution)?,
        Verdict::Legal { value: 20 }
    );
    assert_eq!(rt; value(rt.alloc(), &problem, &solution)?, 20);
    Ok(())
}

#[test]
fn a_sum_just_above_one_is_overfull(rt: HostRuntime) -> Result<(), Fail> {
    let problem = three_nets(rt.alloc())?;
    let solution = on_wire_0(rt.alloc(), &[2, 2, 4_294_967_294])?;
    assert_eq!(rt;
        judge(rt.alloc(), &problem, &solution)?,
        Verdict::Overfull { wire: 0 }
    );
    Ok(())
}

#[test]
fn ratios_3_and_0_are_bad(rt: HostRuntime) -> Result<(), Fail> {
    let problem = one_net(rt.alloc())?;
    for ratio in [3, 0] {
        let solution = on_wire_0(rt.alloc(), &[ratio])?;
        let want = Verdict::BadRatio {
            net: 0,
            wire: 0,
            ratio,
        };
        assert_eq!(rt; judge(rt.alloc(), &problem, &solution)?, want);
    }
    Ok(())
}

#[test]
fn a_net_without_wires_is_not_joined(rt: HostRuntime) -> Result<(), Fail> {
    let problem = one_net(rt.alloc())?;
    let mut solution = Solution::new(rt.alloc());
    solution.push_net(&[])?;
    assert_eq!(rt;
        judge(rt.alloc(), &problem, &solution)?,
        Verdict::NotJoined { net: 0 }
    );
    Ok(())
}

#[test]
fn a_cycle_is_legal(rt: HostRuntime) -> Result<(), Fail> {
    let problem = one_net_and_two_wires(rt.alloc())?;
    let mut solution = Solution::new(rt.alloc());
    solution.push_net(&[WireUse { wire: 0, ratio: 2 }, WireUse { wire: 1, ratio: 2 }])?;
    assert_eq!(rt;
        judge(rt.alloc(), &problem, &solution)?,
        Verdict::Legal { value: 4 }
    );
    Ok(())
}
