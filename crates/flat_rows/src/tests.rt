//! Rows that are pushed, read back, written over and copied.
use crate::FlatRows;
use std::test::Fail;

#[test]
fn pushed_rows_stand_in_their_order(rt: HostRuntime) -> Result<(), Fail> {
    let mut rows: FlatRows<u32> = FlatRows::new(rt.alloc());
    rows.push_row(&[1, 2])?;
    rows.push_row(&[])?;
    rows.push_row(&[3])?;
    assert_eq!(rt; rows.rows(), 3);
    assert_eq!(rt; rows.row(0), [1, 2].as_slice());
    assert_eq!(rt; rows.row(1).len(), 0);
    assert_eq!(rt; rows.row(2), [3].as_slice());
    Ok(())
}

#[test]
fn a_write_leaves_the_copy_as_it_was(rt: HostRuntime) -> Result<(), Fail> {
    let mut rows: FlatRows<u32> = FlatRows::new(rt.alloc());
    rows.push_row(&[1, 2])?;
    let copy = rows.copy(rt.alloc())?;
    rows.set(0, 1, 7);
    assert_eq!(rt; rows.row(0), [1, 7].as_slice());
    assert_eq!(rt; copy.row(0), [1, 2].as_slice());
    Ok(())
}
