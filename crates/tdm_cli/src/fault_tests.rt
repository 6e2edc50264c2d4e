//! Runs in which each call of the desk fails in turn.
ghost use Rattle.std.specs.Prelude.{◌<◌};

use crate::status::Status;
use crate::tests::run;
use std::alloc::{AllocError, Global};
use std::test::Fail;
use tdm_desk::MemoryDesk;

/// One net on one wire.
const BOARD: &str = "2 1 1 1\n0 1\n0 1\n0\n";

/// Its only solution of the least value.
const SOLUTION: &[u8] = b"1\n0 2\n";

/// What is said of that.
const REPORT: &[u8] = b"value 2\nbound 2\n";

/// A desk with that board under `b`.
fn board_desk(alloc: Global) -> Result<MemoryDesk, AllocError> {
    let mut desk = MemoryDesk::new(alloc);
    desk.put_file("b", BOARD.as_bytes())?;
    Ok(desk)
}

/// Whether no output was created.
fn creates_nothing(desk: &MemoryDesk) -> bool {
    desk.file("s").is_none() && desk.file("c").is_none()
}

/// Routes the board where one call on an input fails; whether that is reported and nothing is created, and
/// None where the run ends with Ok before that call.
fn reports_failed_read(alloc: Global, calls: u64) -> Result<Option<bool>, AllocError>
    requires { 0 < calls }
{
    let mut desk = board_desk(alloc)?;
    desk.fail_read(calls)?;
    match run(alloc, &mut desk, "route b s c")? {
        Status::Ok => Ok(None),
        Status::ReadFault => {
            let said = desk.report() == b"read fault input 1\n".as_slice();
            Ok(Some(said && creates_nothing(&desk)))
        }
        _ => Ok(Some(false)),
    }
}

#[test]
fn each_failing_read_is_reported_in_turn(rt: HostRuntime) -> Result<(), Fail> {
    let alloc = rt.alloc();
    for calls in 1..4 {
        assert!(rt; reports_failed_read(alloc, calls)? == Some(true));
    }
    assert!(rt; reports_failed_read(alloc, 4)?.is_none());
    Ok(())
}

/// Whether a file is not there, or holds a first part of these bytes.
fn is_begun(file: Option<&[u8]>, whole: &[u8]) -> bool {
    match file {
        Some(bytes) => whole.starts_with(bytes),
        None => true,
    }
}

/// Routes the board by pieces of one byte where one call on an output or the report fails; whether that is
/// answered, no more than first parts are written and said, and the second output and the report are begun
/// only behind whole outputs, and None where the run ends with Ok before that call.
fn stops_at_failed_write(alloc: Global, calls: u64) -> Result<Option<bool>, AllocError>
    requires { 0 < calls }
{
    let mut desk = board_desk(alloc)?;
    desk.set_piece(1);
    desk.fail_write(calls)?;
    let answer = run(alloc, &mut desk, "route b s c")?;
    if answer == Status::Ok {
        return Ok(None);
    }
    let whole = desk.file("s") == Some(SOLUTION);
    let in_order = whole || desk.file("c").is_none();
    let begun = is_begun(desk.file("s"), SOLUTION) && REPORT.starts_with(desk.report());
    let silent = desk.report().is_empty() || desk.file("c").is_some();
    Ok(Some(answer == Status::WriteFault && in_order && begun && silent))
}

#[test]
fn each_failing_write_leaves_first_parts(rt: HostRuntime) -> Result<(), Fail> {
    let alloc = rt.alloc();
    let mut stopped = 0u64;
    for calls in 1..100 {
        match stops_at_failed_write(alloc, calls)? {
            Some(fine) => {
                assert!(rt; fine);
                stopped = calls;
            }
            None => break,
        }
    }
    // two outputs are created and finished, and each byte of them and of the report is written by a call of
    // its own
    assert!(rt; 26 < stopped && stopped < 99);
    Ok(())
}

#[test]
fn a_fault_is_told_where_it_comes(rt: HostRuntime) -> Result<(), Fail> {
    let alloc = rt.alloc();
    let mut desk = board_desk(alloc)?;
    desk.set_piece(1);
    desk.fail_write(4)?;
    assert!(rt; run(alloc, &mut desk, "route b s c")? == Status::WriteFault);
    assert!(rt; desk.file("s") == Some(b"1\n".as_slice()));
    assert!(rt; desk.file("c").is_none() && desk.report().is_empty());

    let mut desk = board_desk(alloc)?;
    desk.put_file("s", SOLUTION)?;
    desk.fail_read(4)?;
    assert!(rt; run(alloc, &mut desk, "eval b s")? == Status::ReadFault);
    assert!(rt; desk.report() == b"read fault input 2\n".as_slice());
    Ok(())
}
