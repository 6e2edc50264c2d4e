//! A text in a desk's memory.
use crate::{Pending, flush, put_line, put_number, put_numbers};
use std::test::Fail;
use tdm_desk::{Desk, DeskFault, MemoryDesk, OutSlot};

#[tactic(auto, using(tdm_desk::proofs::SeenLaws::after_calls))]
fn write_file<D: Desk>(desk: &mut D) -> Result<(), DeskFault> {
    desk.create(OutSlot::Out0, "t")?;
    let mut pending = Pending::new();
    put_line(desk, OutSlot::Out0, &mut pending, &[10, 0, 7])?;
    put_numbers(desk, OutSlot::Out0, &mut pending, &[1, 2], b'\n')?;
    put_number(desk, OutSlot::Out0, &mut pending, u64::MAX, b'.')?;
    flush(desk, OutSlot::Out0, &mut pending)?;
    Ok(())
}

#[test]
fn writes_lines_of_numbers(rt: HostRuntime) -> Result<(), Fail> {
    let mut desk = MemoryDesk::new(rt.alloc());
    write_file(&mut desk)?;
    let text = b"10 0 7\n1\n2\n18446744073709551615.".as_slice();
    assert!(rt; desk.file("t") == Some(text));
    Ok(())
}
