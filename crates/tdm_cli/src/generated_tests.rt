//! Boards from three numbers, written and routed.
use crate::status::Status;
use crate::tests::run;
use std::alloc::Global;
use std::test::Fail;
use tdm_desk::MemoryDesk;

/// What is said of the larger board before its value.
const SIZE_AND_VALUE: &str = "fpgas 64 wires 128 nets 2000 groups 500\nvalue ";

/// The number that a report of the larger board says as the value.
fn value_said(report: &[u8]) -> u64 {
    let mut value: u64 = 0;
    for byte in report.get(SIZE_AND_VALUE.len()..).unwrap_or(b"") {
        if !byte.is_ascii_digit() {
            break;
        }
        value = value
            .wrapping_mul(10)
            .wrapping_add(u64::from(byte.wrapping_sub(b'0')));
    }
    value
}

/// A desk on which these commands ran one after another; an error, where one does not end with Ok.
fn after(alloc: Global, commands: &str) -> Result<MemoryDesk, Fail> {
    let mut desk = MemoryDesk::new(alloc);
    for words in commands.lines() {
        if run(alloc, &mut desk, words)? != Status::Ok {
            return Err(Fail::new("a command failed"));
        }
    }
    Ok(desk)
}

#[test]
fn a_board_of_three_numbers_is_written(rt: HostRuntime) -> Result<(), Fail> {
    let alloc = rt.alloc();
    let desk = after(alloc, "gen 4 3 2 b")?;
    assert!(rt; desk.report() == "fpgas 4 wires 8 nets 3 groups 2\n".as_bytes());
    let text = "4 8 3 2\n0 1\n1 2\n2 3\n3 0\n0 2\n1 3\n2 0\n3 1\n0 3 1\n3 2\n2 1 3\n0 1 2\n1\n";
    assert!(rt; desk.file("b") == Some(text.as_bytes()));
    Ok(())
}

#[test]
fn demo_does_what_gen_and_route_do(rt: HostRuntime) -> Result<(), Fail> {
    let alloc = rt.alloc();
    let shown = after(alloc, "demo 64 2000 500 s c")?;
    let rounds = after(alloc, "gen 64 2000 500 b\nroute b s c")?;
    let plain = after(alloc, "gen 64 2000 500 b\nroute b s c 0")?;
    assert!(rt; shown.report().starts_with(SIZE_AND_VALUE.as_bytes()));
    assert!(rt; shown.report() == rounds.report());
    assert!(rt; shown.file("s") == rounds.file("s"));
    assert!(rt; shown.file("c") == rounds.file("c"));
    assert!(rt; value_said(shown.report()) < value_said(plain.report()));
    Ok(())
}
