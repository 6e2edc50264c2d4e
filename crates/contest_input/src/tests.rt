//! Board texts that are read, and board texts that are refused.
use crate::{BoardFault, BoardKind, BoardReader, BoardRefusal, read_board, write_board};
use std::alloc::Global;
use std::process::Abort;
use std::test::Fail;
use tdm_desk::{Desk, DeskFault, MemoryDesk, OutSlot};
use tdm_problem::{Problem, ProblemDraft, Wire};

/// The smallest board on which a net uses a wire.
const PAIR: &[u8] = b"2 1 1 1\n0 1\n0 1\n0\n";

/// Reads a text that has at most one byte more than the longest board text.
fn read(rt: &impl Abort, alloc: Global, text: &[u8]) -> Result<Problem, BoardFault> {
    assert!(rt; text.len() <= 268_435_457);
    read_board(alloc, text)
}

/// The refusal of a text, if it is refused.
fn refusal(rt: &impl Abort, alloc: Global, text: &[u8]) -> Option<BoardRefusal> {
    match read(rt, alloc, text) {
        Err(BoardFault::Refused(refusal)) => Some(refusal),
        _ => None,
    }
}

/// Checks that this is a board of two FPGAs with one wire between them, one net on both, and one group of
/// that net.
fn assert_pair(rt: &impl Abort, problem: &Problem) {
    assert_eq!(rt; problem.fpgas(), 2);
    assert_eq!(rt; problem.wires(), 1);
    assert_eq!(rt; problem.nets(), 1);
    assert_eq!(rt; problem.groups(), 1);
    assert_eq!(rt; problem.wire(0), Wire { a: 0, b: 1 });
    assert_eq!(rt; problem.net(0), [0, 1].as_slice());
    assert_eq!(rt; problem.group(0), [0].as_slice());
}

#[test]
fn a_text_is_read_whatever_its_blanks_and_leading_zeros(rt: HostRuntime) -> Result<(), Fail> {
    for text in [
        PAIR,
        b"2 1 1 1\r\n0 1\r\n\r\n \r\n0 1\r\n0",
        b"002 1 01 1\n0 1\n0 1\n0\n",
        b"2 1 1 1\n0 1\n0 1\n0 0\n",
        b"\n\t2 1  1 1 \n0 1\n0 1 0\n0\n\n",
    ] {
        assert_pair(&rt, &read(&rt, rt.alloc(), text)?);
    }
    Ok(())
}

#[test]
fn a_pushed_board_is_the_one_that_is_read(rt: HostRuntime) -> Result<(), Fail> {
    let mut draft = ProblemDraft::new(rt.alloc(), 2);
    draft.push_wire(Wire { a: 0, b: 1 })?;
    draft.push_net(&[0, 1])?;
    draft.push_group(&[0])?;
    assert_pair(&rt, &draft.into_problem());
    assert_pair(&rt, &read_board(rt.alloc(), PAIR)?);
    Ok(())
}

#[test]
fn a_repeated_fpga_counts_once(rt: HostRuntime) -> Result<(), Fail> {
    let problem = read(&rt, rt.alloc(), b"2 1 1 1\n0 1\n1 1 1\n0\n")?;
    assert_eq!(rt; problem.nets(), 1);
    assert_eq!(rt; problem.net(0), [1].as_slice());
    let none = read(&rt, rt.alloc(), b"0 0 0 0\n")?;
    assert_eq!(rt;
        (none.fpgas(), none.wires(), none.nets(), none.groups()),
        (0, 0, 0, 0)
    );
    Ok(())
}

#[test]
fn the_first_fault_is_told_with_its_line(rt: HostRuntime) {
    for (text, kind, line) in [
        (b"2 1 1 1\n0 1\n0 1\n".as_slice(), BoardKind::MissingLine, 4),
        (b"2 1 1 1\n0 1\n0 1\n0\n0\n", BoardKind::ExtraLine, 5),
        (b"4294967295 0 0 0\n", BoardKind::CountLimit, 1),
        (b"4294967296 0 0 0\n", BoardKind::NumberTooLarge, 1),
        (b"3 1 0 0\n2 2\n", BoardKind::SelfLoop, 2),
        (b"2 1 0 0\n2 2\n", BoardKind::UnknownFpga, 2),
        (b"", BoardKind::NoHeader, 1),
        (b" \n\t\n", BoardKind::NoHeader, 3),
        (b"4097 0 0 0\n", BoardKind::CountLimit, 1),
        (b"2 1 1 1\n0 x\n", BoardKind::BadNumber, 2),
        (b"2 1 1\n", BoardKind::WrongCount, 1),
        (b"2 1 1 1\n0 1\n0 1\n1\n", BoardKind::UnknownNet, 4),
        (b"2 1 1 1\n0 1\n0 2\n", BoardKind::UnknownFpga, 3),
        (b"2 1 1 1\n\n0 1 0\n", BoardKind::WrongCount, 3),
        (b"0 0 0 0\nx", BoardKind::ExtraLine, 2),
    ] {
        let wanted = BoardRefusal { kind, line };
        let told = refusal(&rt, rt.alloc(), text);
        assert!(rt; told == Some(wanted), "{} in line {line}", kind.name());
    }
}

#[test]
fn the_numbers_of_all_nets_are_limited(rt: HostRuntime) -> Result<(), Fail> {
    let mut text = Vec::new(rt.alloc());
    text.extend_from_slice(b"1 0 1 0\n")?;
    for _ in 0..16_777_216u32 {
        text.extend_from_slice(b"0 ")?;
    }
    let problem = read(&rt, rt.alloc(), &text)?;
    assert_eq!(rt; problem.nets(), 1);
    assert_eq!(rt; problem.net(0), [0].as_slice());
    text.extend_from_slice(b"0 0")?;
    let wanted = BoardRefusal {
        kind: BoardKind::TotalLimit,
        line: 2,
    };
    assert!(rt; refusal(&rt, rt.alloc(), &text) == Some(wanted));
    text.extend_from_slice(b" 1 0")?;
    let wanted = BoardRefusal {
        kind: BoardKind::UnknownFpga,
        line: 2,
    };
    assert!(rt; refusal(&rt, rt.alloc(), &text) == Some(wanted));
    Ok(())
}

#[test]
fn the_length_of_a_text_is_limited(rt: HostRuntime) -> Result<(), Fail> {
    let text = vec![in rt.alloc(); b' '; 268_435_457]?;
    for (length, kind, line) in [
        (268_435_456, BoardKind::NoHeader, 1),
        (268_435_457, BoardKind::TooLong, 0),
    ] {
        assert!(rt; length <= text.len());
        let wanted = BoardRefusal { kind, line };
        assert!(rt; refusal(&rt, rt.alloc(), &text[..length]) == Some(wanted));
    }
    Ok(())
}

/// Reads a short text that is fed in pieces of this length, with an empty piece before each.
fn read_in_pieces(
    rt: &impl Abort,
    alloc: Global,
    text: &[u8],
    length: usize,
) -> Result<Problem, BoardFault> {
    let mut reader = BoardReader::new(alloc);
    assert!(rt; length > 0);
    for piece in text.chunks(length) {
        assert!(rt; reader.fed() < 100 && piece.len() < 100);
        reader.feed(&[])?;
        reader.feed(piece)?;
    }
    assert!(rt; reader.fed() == text.len() as u64);
    reader.end()
}

#[test]
fn cuts_of_a_text_do_not_matter(rt: HostRuntime) -> Result<(), Fail> {
    for length in [1usize, 2, 7, 18] {
        assert_pair(&rt, &read_in_pieces(&rt, rt.alloc(), PAIR, length)?);
    }
    Ok(())
}

#[test]
fn the_first_fault_is_told_of_a_text_that_comes_byte_by_byte(rt: HostRuntime) {
    for (text, kind, line) in [
        (
            b"2 1 1 1\n0 1\n0 2\nx\n".as_slice(),
            BoardKind::UnknownFpga,
            3,
        ),
        (b"2 1 1 1\n0 1\n0 1\n", BoardKind::MissingLine, 4),
        (b"2 1 1 1\n0 1\n0 1\n0 x", BoardKind::BadNumber, 4),
        (b"0 0 0 0\n1", BoardKind::ExtraLine, 2),
        (b"0 0 0 0 0 0 0 0\n", BoardKind::WrongCount, 1),
        (b"2 1 0 0\n0 1 0 1 0\n", BoardKind::WrongCount, 2),
    ] {
        let wanted = BoardRefusal { kind, line };
        let told = match read_in_pieces(&rt, rt.alloc(), text, 1) {
            Err(BoardFault::Refused(refusal)) => Some(refusal),
            _ => None,
        };
        assert!(rt; told == Some(wanted), "{} in line {line}", kind.name());
    }
}

#[tactic(auto, using(tdm_desk::proofs::SeenLaws::after_calls))]
fn write_file<D: Desk>(desk: &mut D, problem: &Problem) -> Result<(), DeskFault> {
    desk.create(OutSlot::Out0, "b")?;
    write_board(desk, OutSlot::Out0, problem)?;
    Ok(())
}

#[test]
fn a_board_is_written_as_it_is_read(rt: HostRuntime) -> Result<(), Fail> {
    let text = b"3 2 2 1\n0 1\n2 0\n1 0 2\n2\n1 0\n";
    let mut desk = MemoryDesk::new(rt.alloc());
    let problem = read(&rt, rt.alloc(), text)?;
    write_file(&mut desk, &problem)?;
    assert!(rt; desk.file("b") == Some(text.as_slice()));
    Ok(())
}
