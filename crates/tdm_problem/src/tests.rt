//! Small boards, solutions and trees, pushed and read back.
use crate::{ProblemDraft, Solution, Trees, Wire, WireUse};
use std::test::Fail;

#[test]
fn a_pushed_board_reads_back(rt: HostRuntime) -> Result<(), Fail> {
    let mut draft = ProblemDraft::new(rt.alloc(), 2);
    draft.push_wire(Wire { a: 0, b: 1 })?;
    draft.push_net(&[0, 1])?;
    draft.push_group(&[0])?;
    let problem = draft.into_problem();
    assert_eq!(rt; problem.fpgas(), 2);
    assert_eq!(rt; problem.wires(), 1);
    assert_eq!(rt; problem.wire(0), Wire { a: 0, b: 1 });
    assert_eq!(rt; problem.nets(), 1);
    assert_eq!(rt; problem.net(0), [0, 1].as_slice());
    assert_eq!(rt; problem.groups(), 1);
    assert_eq!(rt; problem.group(0), [0].as_slice());
    Ok(())
}

#[test]
fn of_repeated_fpgas_the_first_is_kept(rt: HostRuntime) -> Result<(), Fail> {
    let mut draft = ProblemDraft::new(rt.alloc(), 4);
    draft.push_net(&[3, 2, 2])?;
    assert_eq!(rt; draft.into_problem().net(0), [3, 2].as_slice());
    Ok(())
}

#[test]
fn a_new_ratio_leaves_the_copy_as_it_was(rt: HostRuntime) -> Result<(), Fail> {
    let mut solution = Solution::new(rt.alloc());
    solution.push_net(&[WireUse { wire: 0, ratio: 2 }])?;
    let copy = solution.copy(rt.alloc())?;
    solution.set_ratio(0, 0, 6);
    assert_eq!(rt; copy.nets(), 1);
    assert_eq!(rt; copy.uses(0), [WireUse { wire: 0, ratio: 2 }].as_slice());
    assert_eq!(rt;
        solution.uses(0),
        [WireUse { wire: 0, ratio: 6 }].as_slice()
    );
    Ok(())
}

#[test]
fn trees_copy_what_is_pushed(rt: HostRuntime) -> Result<(), Fail> {
    let mut trees = Trees::new(rt.alloc());
    trees.push_net(&[0, 2])?;
    let copy = trees.copy(rt.alloc())?;
    assert_eq!(rt; copy.nets(), 1);
    assert_eq!(rt; copy.wires_of(0), [0, 2].as_slice());
    Ok(())
}

#[test]
fn a_net_gets_other_wires(rt: HostRuntime) -> Result<(), Fail> {
    let mut trees = Trees::new(rt.alloc());
    trees.push_net(&[0, 2])?;
    trees.push_net(&[3])?;
    trees.replace(0, &[1])?;
    trees.replace(1, &[0, 1, 2, 4])?;
    let copy = trees.copy(rt.alloc())?;
    trees.replace(0, &[])?;
    assert_eq!(rt; copy.wires_of(0), [1].as_slice());
    assert_eq!(rt; copy.wires_of(1), [0, 1, 2, 4].as_slice());
    assert_eq!(rt; trees.wires_of(0).len(), 0);
    Ok(())
}
