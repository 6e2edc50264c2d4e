//! Solutions of small boards, written and read.
use crate::{
    MAX_SOLUTION_BYTES, SolutionFault, SolutionKind, SolutionReader, SolutionRefusal,
    read_solution, write_solution,
};
use std::alloc::Global;
use std::process::Abort;
use std::test::Fail;
use tdm_desk::{Desk, DeskFault, MemoryDesk, OutSlot};
use tdm_problem::{MAX_NETS, Problem, ProblemDraft, Solution, Wire, WireUse};

/// Two FPGAs with two wires between them, and a net on both.
fn board(alloc: Global) -> Result<Problem, Fail> {
    let mut draft = ProblemDraft::new(alloc, 2);
    draft.push_wire(Wire { a: 0, b: 1 })?;
    draft.push_wire(Wire { a: 0, b: 1 })?;
    draft.push_net(&[0, 1])?;
    draft.push_group(&[0])?;
    Ok(draft.into_problem())
}

/// What is read, if the text isn't far too long.
fn read(
    rt: &impl Abort,
    alloc: Global,
    text: &[u8],
    problem: &Problem,
) -> Result<Solution, SolutionFault> {
    assert!(rt; text.len() <= MAX_SOLUTION_BYTES);
    read_solution(alloc, text, problem)
}

#[test]
fn reads_uses_in_any_order(rt: HostRuntime) -> Result<(), Fail> {
    let problem = board(rt.alloc())?;
    for (text, uses) in [
        (b"0\n".as_slice(), [].as_slice()),
        (b"1\n0 2\n", &[(0, 2)]),
        (b"1\n1 0\n", &[(1, 0)]),
        (b"\r\n 01\n\n0\t003", &[(0, 3)]),
        (b"2\n1 2\n0 4294967295\n", &[(0, 4_294_967_295), (1, 2)]),
    ] {
        let Ok(solution) = read(&rt, rt.alloc(), text, &problem) else {
            assert!(rt; false, "refused");
            continue;
        };
        assert_eq!(rt; solution.nets(), 1);
        assert_eq!(rt; solution.uses(0).len(), uses.len());
        for (used, want) in solution.uses(0).iter().zip(uses) {
            assert_eq!(rt; (used.wire, used.ratio), *want);
        }
    }
    Ok(())
}

#[test]
fn refuses_the_first_line_at_fault(rt: HostRuntime) -> Result<(), Fail> {
    let problem = board(rt.alloc())?;
    for (text, kind, line) in [
        (b"".as_slice(), SolutionKind::MissingLine, 1),
        (b"1\n", SolutionKind::MissingLine, 2),
        (b"1\n2 2\n", SolutionKind::UnknownWire, 2),
        (b"2\n0 2\n0 2\n", SolutionKind::RepeatedWire, 3),
        (b"1\n0 2\n\nx", SolutionKind::ExtraLine, 4),
        (b"1 1\n0 2\n", SolutionKind::WrongCount, 1),
        (b"1\n0\n", SolutionKind::WrongCount, 2),
        (b"1\n0 4294967296\n", SolutionKind::NumberTooLarge, 2),
        (b"4294967296 -1\n", SolutionKind::BadNumber, 1),
    ] {
        let refusal = SolutionRefusal { kind, line };
        let answer = read(&rt, rt.alloc(), text, &problem).err();
        assert!(rt;
            answer == Some(SolutionFault::Refused(refusal)),
            "{refusal:?}"
        );
    }
    Ok(())
}

/// Reads a short text that is fed in pieces of this length, with an empty piece before each.
fn read_in_pieces(
    rt: &impl Abort,
    alloc: Global,
    text: &[u8],
    length: usize,
    problem: &Problem,
) -> Result<Solution, SolutionFault> {
    let mut reader = SolutionReader::new(alloc, problem);
    assert!(rt; length > 0);
    for piece in text.chunks(length) {
        assert!(rt; reader.fed() < 100 && piece.len() < 100);
        reader.feed(&[])?;
        reader.feed(piece)?;
    }
    assert!(rt; reader.fed() == text.len() as u64);
    reader.end()
}

#[test]
fn cuts_of_a_text_do_not_matter(rt: HostRuntime) -> Result<(), Fail> {
    let problem = board(rt.alloc())?;
    for length in [1usize, 2, 7, 18] {
        let text = b"2\n1 2\n0 4294967295\n".as_slice();
        let Ok(solution) = read_in_pieces(&rt, rt.alloc(), text, length, &problem) else {
            assert!(rt; false, "refused");
            continue;
        };
        assert_eq!(rt; solution.nets(), 1);
        let uses = solution.uses(0);
        assert_eq!(rt; uses.len(), 2);
        assert_eq!(rt; (uses[0].wire, uses[0].ratio), (0, 4_294_967_295));
        assert_eq!(rt; (uses[1].wire, uses[1].ratio), (1, 2));
    }
    Ok(())
}

#[test]
fn the_first_fault_is_told_of_a_text_that_comes_byte_by_byte(rt: HostRuntime) -> Result<(), Fail> {
    let problem = board(rt.alloc())?;
    for (text, kind, line) in [
        (
            b"1\n0 4294967296\nx\n".as_slice(),
            SolutionKind::NumberTooLarge,
            2,
        ),
        (b"0 0 0 0 0 0 0 0 0 x", SolutionKind::BadNumber, 1),
        (b"0 0 0 0 0 0 0 0 0 0", SolutionKind::WrongCount, 1),
        (b"1\n", SolutionKind::MissingLine, 2),
        (b"0\n0", SolutionKind::ExtraLine, 2),
    ] {
        let refusal = SolutionRefusal { kind, line };
        let answer = read_in_pieces(&rt, rt.alloc(), text, 1, &problem).err();
        assert!(rt;
            answer == Some(SolutionFault::Refused(refusal)),
            "{refusal:?}"
        );
    }
    Ok(())
}

#[test]
fn kinds_have_their_names(rt: HostRuntime) {
    for (kind, name) in [
        (SolutionKind::BadNumber, "BadNumber"),
        (SolutionKind::NumberTooLarge, "NumberTooLarge"),
        (SolutionKind::WrongCount, "WrongCount"),
        (SolutionKind::UnknownWire, "UnknownWire"),
        (SolutionKind::RepeatedWire, "RepeatedWire"),
        (SolutionKind::MissingLine, "MissingLine"),
        (SolutionKind::ExtraLine, "ExtraLine"),
        (SolutionKind::TooLong, "TooLong"),
    ] {
        assert_eq!(rt; kind.name(), name);
    }
}

#[tactic(auto, using(tdm_desk::proofs::SeenLaws::after_calls))]
fn write_file<D: Desk>(desk: &mut D, solution: &Solution) -> Result<(), DeskFault> {
    desk.create(OutSlot::Out0, "s")?;
    write_solution(desk, OutSlot::Out0, solution)?;
    Ok(())
}

/// A desk in memory with the file of the solution.
fn written(alloc: Global, solution: &Solution) -> Result<MemoryDesk, Fail> {
    let mut desk = MemoryDesk::new(alloc);
    write_file(&mut desk, solution)?;
    Ok(desk)
}

#[test]
fn writes_nets_in_order(rt: HostRuntime) -> Result<(), Fail> {
    let mut solution = Solution::new(rt.alloc());
    let none = written(rt.alloc(), &solution)?;
    assert!(rt; none.file("s") == Some(b"".as_slice()));
    solution.push_net(&[
        WireUse { wire: 0, ratio: 2 },
        WireUse {
            wire: 7,
            ratio: 4_294_967_294,
        },
    ])?;
    solution.push_net(&[])?;
    let two = written(rt.alloc(), &solution)?;
    assert!(rt; two.file("s") == Some(b"2\n0 2\n7 4294967294\n0\n".as_slice()));
    Ok(())
}

#[test]
fn writes_a_long_text_whole(rt: HostRuntime) -> Result<(), Fail> {
    let mut solution = Solution::new(rt.alloc());
    for _ in 0..600 {
        assert!(rt; solution.nets() < MAX_NETS);
        solution.push_net(&[WireUse {
            wire: 0,
            ratio: 4_294_967_294,
        }])?;
    }
    let desk = written(rt.alloc(), &solution)?;
    let text = desk.file("s").unwrap_or(b"");
    assert_eq!(rt; text.len(), 600 * 15);
    for line in text.chunks(15) {
        assert_eq!(rt; line, b"1\n0 4294967294\n".as_slice());
    }
    Ok(())
}
