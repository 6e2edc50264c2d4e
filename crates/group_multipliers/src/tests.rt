use super::*;
use std::test::Fail;

#[test]
fn a_lone_largest_sum_takes_all_the_weight(rt: HostRuntime) -> Result<(), Fail> {
    let renewal = next_weights(rt.alloc(), &[1, 1], &[4, 2])?;
    assert_eq!(rt; renewal.as_slice(), [1099511627776, 1].as_slice());
    Ok(())
}

#[test]
fn half_the_largest_sum_halves_the_weight(rt: HostRuntime) -> Result<(), Fail> {
    let renewal = next_weights(rt.alloc(), &[1024, 1024], &[4, 2])?;
    assert_eq!(rt;
        renewal.as_slice(),
        [1099511627776, 549755813888].as_slice()
    );
    Ok(())
}
