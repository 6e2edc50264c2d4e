use super::*;
use std::test::Fail;

#[test]
fn equal_numbers_have_equal_shares(rt: HostRuntime) -> Result<(), Fail> {
    let all = shares(rt.alloc(), &[1024, 1024, 1024], 1)?;
    assert_eq!(rt; all.as_slice(), [6148914691236517205; 3].as_slice());
    Ok(())
}

#[test]
fn a_small_number_counts_for_a_1024th_of_the_largest(rt: HostRuntime) -> Result<(), Fail> {
    let all = shares(rt.alloc(), &[0, 2048], 1)?;
    assert_eq!(rt;
        all.as_slice(),
        [17996823486545904, 18428747250223005711].as_slice()
    );
    Ok(())
}
