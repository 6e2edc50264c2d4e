//! Loads, writes and says over both desks.
use crate::{Desk, DeskFault, InSlot, MemoryDesk, OutSlot, StdDesk, load, say_whole, write_whole};
use std::alloc::Global;
use std::fs;
use std::io::Error;

/// Opens and loads an input, or answers no bytes where there is none.
#[tactic(auto, using(crate::proofs::SeenLaws::after_calls))]
fn loaded<D: Desk>(
    alloc: Global,
    desk: &mut D,
    slot: InSlot,
    name: &str,
    limit: u32,
) -> Result<Vec<u8>, DeskFault> {
    if desk.open_input(slot, name)? {
        load(alloc, desk, slot, (limit as u64).min(1000))
    } else {
        Ok(Vec::new(alloc))
    }
}

/// Writes a file in two pieces.
#[tactic(auto, using(crate::proofs::SeenLaws::after_calls))]
fn write_two<D: Desk>(
    desk: &mut D,
    slot: OutSlot,
    name: &str,
    text: &[u8],
) -> Result<(), DeskFault> {
    desk.create(slot, name)?;
    let middle = text.len() / 2;
    write_whole(desk, slot, &text[..middle])?;
    write_whole(desk, slot, &text[middle..])?;
    desk.finish(slot)?;
    Ok(())
}

#[test]
fn a_desk_in_memory_keeps_files_and_gives_them_up_to_the_limit(
    rt: HostRuntime,
) -> Result<(), DeskFault> {
    let alloc = rt.alloc();
    let mut desk = MemoryDesk::new(alloc);
    desk.put_file("b", b"abc")?;
    desk.put_file("five", b"12345")?;
    assert_eq!(rt; desk.file("b"), Some(&b"abc"[..]));
    assert_eq!(rt; desk.file("x"), None);
    for (limit, want) in [(5, &b"12345"[..]), (3, &b"1234"[..]), (0, &b"1"[..])] {
        let bytes = loaded(alloc, &mut desk, InSlot::In1, "five", limit)?;
        assert_eq!(rt; bytes.as_slice(), want, "limit {limit}");
    }
    assert!(rt; !desk.open_input(InSlot::In2, "x")?);
    Ok(())
}

#[test]
fn a_desk_in_memory_writes_over_an_open_input_and_says(rt: HostRuntime) -> Result<(), DeskFault> {
    let alloc = rt.alloc();
    let mut desk = MemoryDesk::new(alloc);
    desk.put_file("b", b"old")?;
    assert!(rt; desk.open_input(InSlot::In0, "b")?);
    write_two(&mut desk, OutSlot::Out2, "b", b"newer")?;
    assert_eq!(rt; desk.file("b"), Some(&b"newer"[..]));
    let bytes = loaded(alloc, &mut desk, InSlot::In1, "b", 9)?;
    assert_eq!(rt; bytes.as_slice(), &b"newer"[..]);
    say_whole(&mut desk, b"value ")?;
    say_whole(&mut desk, b"2\n")?;
    assert_eq!(rt; desk.report(), &b"value 2\n"[..]);
    Ok(())
}

/// Opens an input that is there, reads twice from it, and answers which of the calls failed.
#[tactic(auto, using(crate::proofs::SeenLaws::after_calls))]
fn failing_reads<D: Desk>(desk: &mut D) -> [bool; 3] {
    let opened = desk.open_input(InSlot::In1, "b");
    let mut failed = [opened.is_err(), true, true];
    if let Ok(true) = opened {
        let mut buf = [0; 8];
        failed[1] = desk.read(InSlot::In1, &mut buf).is_err();
        failed[2] = desk.read(InSlot::In1, &mut buf).is_err();
    }
    failed
}

#[test]
fn reads_fail_as_planned_from_the_call_of_the_plan_on(rt: HostRuntime) -> Result<(), DeskFault> {
    let mut desk = MemoryDesk::new(rt.alloc());
    desk.put_file("b", b"abc")?;
    desk.fail_read(1)?;
    assert_eq!(rt; failing_reads(&mut desk), [true; 3]);
    desk.fail_read(2)?;
    desk.fail_read(6)?;
    assert_eq!(rt; failing_reads(&mut desk), [false, true, false]);
    assert_eq!(rt; failing_reads(&mut desk), [false, false, true]);
    assert_eq!(rt; failing_reads(&mut desk), [false; 3]);
    Ok(())
}

/// Creates a file, writes to it, finishes it and says something, and answers which of the calls failed.
#[tactic(auto, using(crate::proofs::SeenLaws::after_calls))]
fn failing_writes<D: Desk>(desk: &mut D) -> [bool; 4] {
    let mut failed = [true; 4];
    failed[0] = desk.create(OutSlot::Out1, "c").is_err();
    if !failed[0] {
        failed[1] = desk.write(OutSlot::Out1, b"text").is_err();
        failed[2] = desk.finish(OutSlot::Out1).is_err();
    }
    failed[3] = desk.say(b"said").is_err();
    failed
}

#[test]
fn writes_fail_as_planned_and_a_bound_on_pieces_holds(rt: HostRuntime) -> Result<(), DeskFault> {
    let mut desk = MemoryDesk::new(rt.alloc());
    desk.set_piece(1);
    desk.fail_write(1)?;
    desk.fail_write(2)?;
    assert_eq!(rt; failing_writes(&mut desk), [true; 4]);
    assert_eq!(rt; desk.file("c"), None);
    desk.fail_write(2)?;
    desk.fail_write(3)?;
    assert_eq!(rt; failing_writes(&mut desk), [false, true, true, false]);
    assert_eq!(rt; desk.file("c"), Some(&b""[..]));
    assert_eq!(rt; failing_writes(&mut desk), [false; 4]);
    assert_eq!(rt; desk.file("c"), Some(&b"t"[..]));
    assert_eq!(rt; desk.report(), &b"ss"[..]);
    Ok(())
}

#[test]
fn a_desk_of_real_files_reads_what_it_wrote_and_fails_on_a_folder(
    rt: HostRuntime,
) -> Result<(), Error> {
    let name = "tdm_desk_trial_file";
    let mut desk = StdDesk::new(rt.clone()?);
    assert!(rt;
        matches!(
            desk.open_input(InSlot::In0, "tdm_desk_no_such_file"),
            Ok(false)
        )
    );
    assert!(rt;
        matches!(
            desk.open_input(InSlot::In0, "tdm_desk\0"),
            Err(DeskFault::Failed)
        )
    );
    assert!(rt; loaded(rt.alloc(), &mut desk, InSlot::In2, ".", 9).is_err());
    assert!(rt; desk.create(OutSlot::Out1, ".").is_err());
    assert!(rt; write_two(&mut desk, OutSlot::Out0, name, b"first\nsecond\n").is_ok());
    assert!(rt; write_two(&mut desk, OutSlot::Out2, "/dev/null", b"gone").is_ok());
    match loaded(rt.alloc(), &mut desk, InSlot::In0, name, 100) {
        Ok(bytes) => assert_eq!(rt; bytes.as_slice(), &b"first\nsecond\n"[..]),
        Err(_) => panic!(rt; "the file that was written could not be read"),
    }
    match loaded(rt.alloc(), &mut desk, InSlot::In1, name, 6) {
        Ok(bytes) => assert_eq!(rt; bytes.as_slice(), &b"first\ns"[..]),
        Err(_) => panic!(rt; "the start of the file could not be read"),
    }
    assert!(rt; say_whole(&mut desk, b"said\n").is_ok());
    fs::remove_file(&rt, name)
}
