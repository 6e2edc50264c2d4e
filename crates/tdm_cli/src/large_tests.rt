//! Boards that are too large to be written by hand.
ghost use Rattle.std.specs.Prelude.{◌<◌};

use crate::status::Status;
use crate::tests::{agrees, run};
use command_run::{push_line, push_number};
use std::alloc::{AllocError, Global};
use std::test::Fail;
use tdm_desk::MemoryDesk;

/// The header of a board.
fn push_header(
    text: &mut Vec<u8>,
    fpgas: u32,
    wires: u32,
    nets: u32,
    groups: u32,
) -> Result<(), AllocError> {
    push_number(text, b"", u128::from(fpgas))?;
    push_number(text, b" ", u128::from(wires))?;
    push_number(text, b" ", u128::from(nets))?;
    push_line(text, b" ", u128::from(groups))
}

/// A line of two numbers.
fn push_pair(text: &mut Vec<u8>, first: u32, second: u32) -> Result<(), AllocError> {
    push_number(text, b"", u128::from(first))?;
    push_line(text, b" ", u128::from(second))
}

/// A path of FPGAs, with so many nets from its first to its last.
fn path_board(alloc: Global, fpgas: u32, nets: u32) -> Result<Vec<u8>, AllocError>
    requires { 0 < fpgas }
{
    let last = fpgas - 1;
    let mut text = Vec::new(alloc);
    push_header(&mut text, fpgas, last, nets, 0)?;
    for f in 0..last {
        push_pair(&mut text, f, f + 1)?;
    }
    for _ in 0..nets {
        push_pair(&mut text, 0, last)?;
    }
    Ok(text)
}

/// A ring of 20 FPGAs with 360 nets, from each FPGA to others before and behind it, each net a group of its
/// own.
fn ring_board(alloc: Global) -> Result<Vec<u8>, AllocError> {
    let mut text = Vec::new(alloc);
    push_header(&mut text, 20, 20, 360, 360)?;
    for f in 0..20 {
        push_pair(&mut text, f, (f + 1) % 20)?;
    }
    for n in 0..360 {
        push_pair(&mut text, n % 20, (n % 20 + 1 + n / 20) % 20)?;
    }
    for n in 0..360u32 {
        push_line(&mut text, b"", u128::from(n))?;
    }
    Ok(text)
}

#[test]
fn a_baseline_may_have_too_many_uses(rt: HostRuntime) -> Result<(), Fail> {
    let alloc = rt.alloc();
    let board = path_board(alloc, 4096, 8195)?;
    let mut desk = MemoryDesk::new(alloc);
    desk.put_file("b", &board)?;
    let answer = run(alloc, &mut desk, "route b s c")?;
    assert!(rt; answer == Status::UseLimit);
    assert!(rt; desk.report() == "too many uses\n".as_bytes());
    assert!(rt; desk.file("s").is_none());
    assert!(rt; desk.file("c").is_none());
    Ok(())
}

#[test]
fn hundreds_of_nets_are_routed_and_judged(rt: HostRuntime) -> Result<(), Fail> {
    let alloc = rt.alloc();
    let board = ring_board(alloc)?;
    let mut desk = MemoryDesk::new(alloc);
    desk.put_file("b", &board)?;
    let answer = run(alloc, &mut desk, "route b s c 2")?;
    assert!(rt; answer == Status::Ok);
    let (Some(solution), Some(cert)) = (desk.file("s"), desk.file("c")) else {
        return Err(Fail::new("no output"));
    };
    assert!(rt; agrees(alloc, &board, solution, cert, desk.report())?);
    Ok(())
}
