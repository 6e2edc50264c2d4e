//! The board of three small numbers, and the smallest one.
use crate::gen_problem;
use std::test::Fail;
use tdm_problem::Wire;

#[test]
fn three_numbers_give_a_board(rt: HostRuntime) -> Result<(), Fail> {
    let problem = gen_problem(rt.alloc(), 4, 3, 2)?;
    assert_eq!(rt; problem.fpgas(), 4);
    assert_eq!(rt; problem.wires(), 8);
    for (e, ends) in [(0, (0, 1)), (3, (3, 0)), (4, (0, 2)), (7, (3, 1))] {
        let (a, b) = ends;
        assert_eq!(rt; problem.wire(e), Wire { a, b });
    }
    assert_eq!(rt; problem.nets(), 3);
    assert_eq!(rt; problem.net(0), [0, 3, 1].as_slice());
    assert_eq!(rt; problem.net(1), [3, 2].as_slice());
    assert_eq!(rt; problem.net(2), [2, 1, 3].as_slice());
    assert_eq!(rt; problem.groups(), 2);
    assert_eq!(rt; problem.group(0), [0, 1, 2].as_slice());
    assert_eq!(rt; problem.group(1), [1].as_slice());
    Ok(())
}
