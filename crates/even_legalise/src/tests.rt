ghost use Rattle.std.specs.Prelude.{◌≡◌, [], ◌∷◌, IfOk};
ghost use Rattle.tdm_problem.specs.declared.wire.Wire.{Wire};

use super::*;
use std::alloc::{AllocError, Global};
use std::test::Fail;
use tdm_problem::{Problem, ProblemDraft, Trees, Wire};

#[test]
fn uniform_ratios_round_up_twice(rt: HostRuntime) {
    for (k, lanes, want) in [(1, 1, 2), (3, 1, 4), (5, 1, 6), (9, 4, 4)] {
        assert_eq!(rt; uniform(k, lanes), want, "at {k} nets on {lanes} lanes");
    }
}

/// Two FPGAs, one wire between them, and three nets over it in one group.
fn three_nets_on_a_wire(alloc: Global) -> Result<Problem, AllocError>
    ensures { IfOk result (λ p. p ≡ record {
      fpgas = 2;
      wires = record { a = 0; b = 1 } ∷ [];
      nets =
          (0 ∷ 1 ∷ []) ∷ (0 ∷ 1 ∷ []) ∷ (0 ∷ 1 ∷ []) ∷ [];
      groups = (0 ∷ 1 ∷ 2 ∷ []) ∷ [];
    }) }
{
    let mut draft = ProblemDraft::new(alloc, 2);
    draft.push_wire(Wire { a: 0, b: 1 })?;
    draft.push_net(&[0, 1])?;
    draft.push_net(&[0, 1])?;
    draft.push_net(&[0, 1])?;
    draft.push_group(&[0, 1, 2])?;
    Ok(draft.into_problem())
}

/// The same tree, wire 0, for each of three nets.
fn wire_for_three_nets(alloc: Global) -> Result<Trees, AllocError>
    ensures { IfOk result (λ t. t ≡ (0 ∷ []) ∷ (0 ∷ []) ∷ (0 ∷ []) ∷ []) }
{
    let mut trees = Trees::new(alloc);
    trees.push_net(&[0])?;
    trees.push_net(&[0])?;
    trees.push_net(&[0])?;
    Ok(trees)
}

#[test]
fn three_nets_of_a_wire_have_ratio_4(rt: HostRuntime) -> Result<(), Fail> {
    let problem = three_nets_on_a_wire(rt.alloc())?;
    let trees = wire_for_three_nets(rt.alloc())?;
    let solution = uniform_solution(rt.alloc(), &problem, &trees)?;
    assert_eq!(rt; solution.nets(), 3);
    for n in 0..3 {
        let uses = solution.uses(n);
        assert_eq!(rt; uses.len(), 1);
        assert_eq!(rt; (uses[0].wire, uses[0].ratio), (0, 4), "of net {n}");
    }
    Ok(())
}

#[test]
fn even_ratios_are_the_least_that_are_large_enough(rt: HostRuntime) {
    assert_eq!(rt; even_of(1 << 64), 2);
    assert_eq!(rt; even_of(1 << 63), 2);
    assert_eq!(rt; even_of(1 << 62), 4);
    assert_eq!(rt; even_of(6148914691236517205), 4);
    assert_eq!(rt; even_of(17996823486545904), 1026);
}

#[test]
fn three_nets_of_one_number_share_with_ratio_4(rt: HostRuntime) -> Result<(), Fail> {
    let problem = three_nets_on_a_wire(rt.alloc())?;
    let trees = wire_for_three_nets(rt.alloc())?;
    let solution = legalise(rt.alloc(), &problem, &trees, &[1024, 1024, 1024])?;
    assert_eq!(rt; solution.nets(), 3);
    for n in 0..3 {
        let uses = solution.uses(n);
        assert_eq!(rt; uses.len(), 1);
        assert_eq!(rt; (uses[0].wire, uses[0].ratio), (0, 4), "of net {n}");
    }
    Ok(())
}

#[test]
fn sums_are_those_of_the_shares(rt: HostRuntime) -> Result<(), Fail> {
    let problem = three_nets_on_a_wire(rt.alloc())?;
    let trees = wire_for_three_nets(rt.alloc())?;
    let equal = shared_sums(rt.alloc(), &problem, &trees, &[1024, 1024, 1024])?;
    assert_eq!(rt; equal.as_slice(), [12].as_slice());
    let apart = shared_sums(rt.alloc(), &problem, &trees, &[0, 1024, 1024])?;
    assert_eq!(rt; apart.as_slice(), [2058].as_slice());
    Ok(())
}
