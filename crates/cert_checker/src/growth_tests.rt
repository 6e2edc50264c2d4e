//! How far FPGAs of small boards grow.
ghost use Rattle.std.specs.Prelude.{◌≡◌, ◌≢◌, ◌<◌, ◌≤◌, ◌^◌, length, IfOk, All, AllPairs};

use crate::{Grower, growths};
use board_graph::BoardGraph;
use std::alloc::{AllocError, Global};
use std::test::Fail;
use tdm_problem::{Problem, ProblemDraft, Wire};

/// How far FPGAs of a problem's board grow, the second time as the first.
fn growth_twice(
    alloc: Global,
    problem: &Problem,
    lengths: &[u64],
    fpgas: &[u32],
) -> Result<u128, AllocError>
    requires count { length lengths.now ≡ length problem.now.wires }
    requires small { All (λ l. l ≤ 2 ^ 48) lengths.now }
    requires there { All (λ f. f < problem.now.fpgas) fpgas.now }
    requires distinct { AllPairs (λ x y. x ≢ y) fpgas.now }
{
    let graph = BoardGraph::of(alloc, problem)?;
    let mut grower = Grower::new(alloc, &graph, lengths)?;
    let first = grower.growth(fpgas)?;
    let second = grower.growth(fpgas)?;
    if first != second {
        return Err(AllocError);
    }
    Ok(first)
}

/// How far FPGAs of a star grow, whose middle is FPGA 0.
fn growth_on_star(alloc: Global, lengths: &[u64], fpgas: &[u32]) -> Result<u128, AllocError>
    requires count { length lengths.now ≡ 3 }
    requires small { All (λ l. l ≤ 2 ^ 48) lengths.now }
    requires there { All (λ f. f < 4) fpgas.now }
    requires distinct { AllPairs (λ x y. x ≢ y) fpgas.now }
{
    let mut draft = ProblemDraft::new(alloc, 4);
    draft.push_wire(Wire { a: 0, b: 1 })?;
    draft.push_wire(Wire { a: 0, b: 2 })?;
    draft.push_wire(Wire { a: 0, b: 3 })?;
    let problem = draft.into_problem();
    growth_twice(alloc, &problem, lengths, fpgas)
}

/// How far FPGAs of a ring of five grow, apart from which there is one more FPGA.
fn growth_on_ring(alloc: Global, lengths: &[u64], fpgas: &[u32]) -> Result<u128, AllocError>
    requires count { length lengths.now ≡ 5 }
    requires small { All (λ l. l ≤ 2 ^ 48) lengths.now }
    requires there { All (λ f. f < 6) fpgas.now }
    requires distinct { AllPairs (λ x y. x ≢ y) fpgas.now }
{
    let mut draft = ProblemDraft::new(alloc, 6);
    draft.push_wire(Wire { a: 0, b: 1 })?;
    draft.push_wire(Wire { a: 1, b: 2 })?;
    draft.push_wire(Wire { a: 2, b: 3 })?;
    draft.push_wire(Wire { a: 3, b: 4 })?;
    draft.push_wire(Wire { a: 4, b: 0 })?;
    let problem = draft.into_problem();
    growth_twice(alloc, &problem, lengths, fpgas)
}

#[test]
fn a_star_grows_by_all_its_arms(rt: HostRuntime) -> Result<(), Fail> {
    let alloc = rt.alloc();
    assert_eq!(rt; growth_on_star(alloc, &[1, 1, 1], &[1, 2, 3])?, 3);
    assert_eq!(rt; growth_on_star(alloc, &[2, 2, 2], &[1, 2, 3])?, 6);
    assert_eq!(rt; growth_on_star(alloc, &[1, 2, 3], &[1, 2, 3])?, 6);
    assert_eq!(rt; growth_on_star(alloc, &[0, 0, 7], &[0, 1, 2, 3])?, 7);
    assert_eq!(rt; growth_on_star(alloc, &[5, 9, 1], &[1, 3])?, 6);
    Ok(())
}

#[test]
fn a_ring_grows_by_all_but_its_longest_wire(rt: HostRuntime) -> Result<(), Fail> {
    let alloc = rt.alloc();
    assert_eq!(rt; growth_on_ring(alloc, &[1; 5], &[0, 1, 2, 3, 4])?, 4);
    assert_eq!(rt;
        growth_on_ring(alloc, &[1, 2, 3, 4, 5], &[0, 1, 2, 3, 4])?,
        10
    );
    assert_eq!(rt; growth_on_ring(alloc, &[1, 2, 3, 4, 5], &[0, 2])?, 3);
    assert_eq!(rt; growth_on_ring(alloc, &[1, 2, 3, 4, 5], &[0, 3])?, 6);
    Ok(())
}

#[test]
fn what_is_not_joined_does_not_grow(rt: HostRuntime) -> Result<(), Fail> {
    let alloc = rt.alloc();
    assert_eq!(rt; growth_on_ring(alloc, &[1; 5], &[0, 1, 5])?, 0);
    assert_eq!(rt; growth_on_ring(alloc, &[1; 5], &[5])?, 0);
    assert_eq!(rt; growth_on_ring(alloc, &[1; 5], &[])?, 0);
    Ok(())
}

/// A star of three wires around FPGA 0, and a triangle of the FPGAs 4, 5 and 6, with nets on them and across.
fn star_and_triangle(alloc: Global) -> Result<Problem, AllocError>
    ensures { IfOk result (λ problem. (length problem.wires ≡ 6) × (length problem.nets ≡ 6)) }
{
    let mut draft = ProblemDraft::new(alloc, 7);
    draft.push_wire(Wire { a: 0, b: 1 })?;
    draft.push_wire(Wire { a: 0, b: 2 })?;
    draft.push_wire(Wire { a: 0, b: 3 })?;
    draft.push_wire(Wire { a: 4, b: 5 })?;
    draft.push_wire(Wire { a: 5, b: 6 })?;
    draft.push_wire(Wire { a: 6, b: 4 })?;
    draft.push_net(&[3, 1, 2])?;
    draft.push_net(&[6, 4, 5])?;
    draft.push_net(&[1, 2, 3])?;
    draft.push_net(&[2, 6])?;
    draft.push_net(&[4, 6])?;
    draft.push_net(&[1, 2])?;
    Ok(draft.into_problem())
}

#[test]
fn nets_grow_by_their_sets_of_fpgas(rt: HostRuntime) -> Result<(), Fail> {
    let alloc = rt.alloc();
    let problem = star_and_triangle(alloc)?;
    let grown = growths(alloc, &problem, &[1, 2, 3, 2, 3, 4], &[1, 1, 9, 1, 1, 0])?;
    assert_eq!(rt; grown.as_slice(), [6, 5, 6, 0, 4, 0].as_slice());
    Ok(())
}
