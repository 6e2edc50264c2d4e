ghost use Rattle.std.specs.Prelude.{◌≡◌, [], ◌∷◌, length, IfOk};
ghost use Rattle.tdm_problem.specs.declared.wire.Wire.{Wire};
ghost use Rattle.tdm_problem.specs.declared.solution.WireUse.{WireUse};
ghost use Rattle.tdm_problem.specs.Samples.{on_wire_0};

use super::*;
use std::alloc::{AllocError, Global};
use std::test::Fail;
use tdm_problem::{Problem, ProblemDraft, Solution, Wire, WireUse};

/// Four FPGAs in a ring with wires across, and three nets, all in the first group and the second alone in the
/// other.
fn three_nets_in_two_groups(alloc: Global) -> Result<Problem, AllocError>
    ensures nets { IfOk result (λ p. length p.nets ≡ 3) }
    ensures groups { IfOk result (λ p. length p.groups ≡ 2) }
{
    let mut draft = ProblemDraft::new(alloc, 4);
    draft.push_wire(Wire { a: 0, b: 1 })?;
    draft.push_wire(Wire { a: 1, b: 2 })?;
    draft.push_wire(Wire { a: 2, b: 3 })?;
    draft.push_wire(Wire { a: 3, b: 0 })?;
    draft.push_wire(Wire { a: 0, b: 2 })?;
    draft.push_wire(Wire { a: 1, b: 3 })?;
    draft.push_wire(Wire { a: 2, b: 0 })?;
    draft.push_wire(Wire { a: 3, b: 1 })?;
    draft.push_net(&[0, 3, 1])?;
    draft.push_net(&[3, 2])?;
    draft.push_net(&[2, 1, 3])?;
    draft.push_group(&[0, 1, 2])?;
    draft.push_group(&[1])?;
    Ok(draft.into_problem())
}

/// Two FPGAs and one wire between them, with four nets in one group.
fn four_nets_in_one_group(alloc: Global) -> Result<Problem, AllocError>
    ensures nets { IfOk result (λ p. length p.nets ≡ 4) }
    ensures groups { IfOk result (λ p. length p.groups ≡ 1) }
{
    let mut draft = ProblemDraft::new(alloc, 2);
    draft.push_wire(Wire { a: 0, b: 1 })?;
    draft.push_net(&[0, 1])?;
    draft.push_net(&[0, 1])?;
    draft.push_net(&[0, 1])?;
    draft.push_net(&[0, 1])?;
    draft.push_group(&[0, 1, 2, 3])?;
    Ok(draft.into_problem())
}

/// Four nets that use wire 0, the first with ratio 2 and the others with ratio 6.
fn four_uses(alloc: Global) -> Result<Solution, AllocError>
    ensures { IfOk result (λ s. s ≡ on_wire_0 (2 ∷ 6 ∷ 6 ∷ 6 ∷ [])) }
{
    let mut solution = Solution::new(alloc);
    solution.push_net(&[WireUse { wire: 0, ratio: 2 }])?;
    solution.push_net(&[WireUse { wire: 0, ratio: 6 }])?;
    solution.push_net(&[WireUse { wire: 0, ratio: 6 }])?;
    solution.push_net(&[WireUse { wire: 0, ratio: 6 }])?;
    Ok(solution)
}

#[test]
fn a_net_in_two_groups_has_both(rt: HostRuntime) -> Result<(), Fail> {
    let problem = three_nets_in_two_groups(rt.alloc())?;
    let incidence = Incidence::of(rt.alloc(), &problem)?;
    assert_eq!(rt; incidence.nets(), 3);
    assert_eq!(rt; incidence.groups(), 2);
    assert_eq!(rt; incidence.groups_of(1), [0, 1].as_slice());
    assert_eq!(rt; incidence.groups_of(2), [0].as_slice());
    Ok(())
}

#[test]
fn a_net_weighs_what_its_groups_weigh(rt: HostRuntime) -> Result<(), Fail> {
    let problem = three_nets_in_two_groups(rt.alloc())?;
    let incidence = Incidence::of(rt.alloc(), &problem)?;
    let weights = incidence.weights_of(rt.alloc(), &[5, 7])?;
    assert_eq!(rt; weights.as_slice(), [5, 12, 5].as_slice());
    Ok(())
}

#[test]
fn a_group_sums_the_ratios_of_its_nets(rt: HostRuntime) -> Result<(), Fail> {
    let problem = four_nets_in_one_group(rt.alloc())?;
    let incidence = Incidence::of(rt.alloc(), &problem)?;
    let solution = four_uses(rt.alloc())?;
    let sums = incidence.sums(rt.alloc(), &solution)?;
    assert_eq!(rt; sums.as_slice(), [20].as_slice());
    Ok(())
}

#[test]
fn running_sums_follow_a_changed_ratio(rt: HostRuntime) -> Result<(), Fail> {
    let problem = four_nets_in_one_group(rt.alloc())?;
    let incidence = Incidence::of(rt.alloc(), &problem)?;
    let mut solution = four_uses(rt.alloc())?;
    let mut sums = RunningSums::of(rt.alloc(), &incidence, &solution)?;
    assert_eq!(rt; sums.sum(0), 20);
    sums.set_ratio(&incidence, &mut solution, 1, 0, 8);
    assert_eq!(rt; sums.sum(0), 22);
    assert_eq!(rt; sums.worst(), Some(0));
    Ok(())
}
