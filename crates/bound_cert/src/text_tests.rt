//! Certificates of small boards, read and written.
use crate::{
    CertFault, CertKind, CertReader, CertRefusal, CertTextKind as Kind, Certificate, read_cert,
    write_cert,
};
use std::alloc::Global;
use std::process::Abort;
use std::test::Fail;
use tdm_desk::{Desk, DeskFault, MemoryDesk, OutSlot};
use tdm_problem::{Problem, ProblemDraft, Wire};

/// Two FPGAs with a wire between them, and a group of one net on both.
fn board(alloc: Global) -> Result<Problem, Fail> {
    let mut draft = ProblemDraft::new(alloc, 2);
    draft.push_wire(Wire { a: 0, b: 1 })?;
    draft.push_net(&[0, 1])?;
    draft.push_group(&[0])?;
    Ok(draft.into_problem())
}

/// The same board with two further nets in the group.
fn board_of_three_nets(alloc: Global) -> Result<Problem, Fail> {
    let mut draft = ProblemDraft::new(alloc, 2);
    draft.push_wire(Wire { a: 0, b: 1 })?;
    draft.push_net(&[0, 1])?;
    draft.push_net(&[0, 1])?;
    draft.push_net(&[0, 1])?;
    draft.push_group(&[0, 1, 2])?;
    Ok(draft.into_problem())
}

/// Reads a short text that is fed in pieces of this length, with an empty piece before each.
fn read_in_pieces(
    rt: &impl Abort,
    alloc: Global,
    text: &[u8],
    length: usize,
    problem: &Problem,
) -> Result<Certificate, CertFault> {
    let mut reader = CertReader::new(alloc, problem);
    assert!(rt; length > 0);
    for piece in text.chunks(length) {
        assert!(rt; reader.fed() < 100 && piece.len() < 100);
        reader.feed(&[])?;
        reader.feed(piece)?;
    }
    assert!(rt; reader.fed() == text.len() as u64);
    reader.end()
}

/// The text is refused, with this kind and this line, whole and in pieces.
fn assert_refused(
    rt: &impl Abort,
    alloc: Global,
    problem: &Problem,
    text: &[u8],
    kind: Kind,
    line: u32,
) {
    let refusal = CertFault::Refused(CertRefusal { kind, line });
    let answer = read_cert(alloc, text, problem).err();
    assert!(rt; answer == Some(refusal), "{}", kind.name());
    for length in [1usize, 2, 7] {
        let answer = read_in_pieces(rt, alloc, text, length, problem).err();
        assert!(rt;
            answer == Some(refusal),
            "{} in pieces of {length}",
            kind.name()
        );
    }
}

#[test]
fn refuses_the_first_line_at_fault(rt: HostRuntime) -> Result<(), Fail> {
    let alloc = rt.alloc();
    let problem = board(alloc)?;
    assert_refused(&rt, alloc, &problem, b"\n \n", Kind::NoHeader, 3);
    assert_refused(&rt, alloc, &problem, b"2 1 0 0\n", Kind::BadVersion, 1);
    assert_refused(&rt, alloc, &problem, b"3 1 0 0\n", Kind::BadVersion, 1);
    assert_refused(&rt, alloc, &problem, b"1 3 0 0\n", Kind::BadKind, 1);
    assert_refused(&rt, alloc, &problem, b"1 1 1 0\n", Kind::BadUnit, 1);
    assert_refused(&rt, alloc, &problem, b"1 1 0 5000\n", Kind::CountLimit, 1);
    assert_refused(&rt, alloc, &problem, b"4 1 0 1\n", Kind::CountLimit, 1);
    assert_refused(&rt, alloc, &problem, b"1 2 1 0\n", Kind::MissingLine, 2);
    let more = b"1 2 1 0\n1\n0\n7\n";
    assert_refused(&rt, alloc, &problem, more, Kind::ExtraLine, 4);
    let choice = b"4 2 1 0\n1\n0\n";
    assert_refused(&rt, alloc, &problem, choice, Kind::ExtraLine, 3);
    let weight = b"1 1 0 0\n1099511627777\n";
    assert_refused(&rt, alloc, &problem, weight, Kind::WeightLimit, 2);
    let length = b"1 1 0 0\n1\n281474976710657\n";
    assert_refused(&rt, alloc, &problem, length, Kind::LengthLimit, 3);
    let choice = b"1 1 0 1\n1\n1\n0 1\n2\n";
    assert_refused(&rt, alloc, &problem, choice, Kind::UnknownPotential, 5);
    let value = b"1 1 0 1\n1\n1\n0 1152921504606846976\n1\n";
    assert_refused(&rt, alloc, &problem, value, Kind::NumberTooLarge, 4);
    let long = b"0 0 0 0 0 0 0 0 0 0\n1";
    assert_refused(&rt, alloc, &problem, long, Kind::WrongCount, 1);
    let longer = b"1 1 0 0 0 0 0 0 0 0 x";
    assert_refused(&rt, alloc, &problem, longer, Kind::BadNumber, 1);
    Ok(())
}

/// A desk in memory with the file of the certificate.
fn written(alloc: Global, cert: &Certificate) -> Result<MemoryDesk, Fail> {
    let mut desk = MemoryDesk::new(alloc);
    write_file(&mut desk, cert)?;
    Ok(desk)
}

/// Writes the certificate to a new file, which stays open.
#[tactic(auto, using(tdm_desk::proofs::SeenLaws::after_calls))]
fn write_file<D: Desk>(desk: &mut D, cert: &Certificate) -> Result<(), DeskFault> {
    desk.create(OutSlot::Out0, "c")?;
    write_cert(desk, OutSlot::Out0, cert)?;
    Ok(())
}

/// What was read is a certificate of this kind, which is written as the canonical text.
fn assert_canonical(
    rt: &impl Abort,
    alloc: Global,
    answer: Result<Certificate, CertFault>,
    kind: CertKind,
    potentials: u32,
    canonical: &[u8],
) -> Result<(), Fail> {
    let cert = match answer {
        Ok(cert) => cert,
        Err(_) => {
            assert!(rt; false, "refused");
            return Ok(());
        }
    };
    assert!(rt; cert.kind() == kind);
    assert_eq!(rt; cert.potentials(), potentials);
    assert!(rt; cert.grows() == (potentials == 0));
    let desk = written(alloc, &cert)?;
    assert!(rt; desk.file("c") == Some(canonical));
    Ok(())
}

#[test]
fn reads_and_writes_both_kinds(rt: HostRuntime) -> Result<(), Fail> {
    let alloc = rt.alloc();
    let problem = board_of_three_nets(alloc)?;
    let share = b" 1 1\t0 01\r\n1\n\n3\n0 3\n1\n1\n1";
    let canonical = b"1 1 0 1\n1\n3\n0 3\n1\n1\n1\n";
    let hop = b"1 2 1048576 1\n5\n0 1048576\n1\n0\n1\n";
    let growing = b"4 1 0 0\n1\n3\n";
    let kind = CertKind::Hop { unit: 1_048_576 };
    let whole = read_cert(alloc, share, &problem);
    assert_canonical(&rt, alloc, whole, CertKind::Share, 1, canonical)?;
    let whole = read_cert(alloc, hop, &problem);
    assert_canonical(&rt, alloc, whole, kind, 1, hop)?;
    let whole = read_cert(alloc, b"4 1 0 0\n\n01\n 3", &problem);
    assert_canonical(&rt, alloc, whole, CertKind::Share, 0, growing)?;
    for length in [1usize, 2, 7, 18] {
        let answer = read_in_pieces(&rt, alloc, share, length, &problem);
        assert_canonical(&rt, alloc, answer, CertKind::Share, 1, canonical)?;
        let answer = read_in_pieces(&rt, alloc, hop, length, &problem);
        assert_canonical(&rt, alloc, answer, kind, 1, hop)?;
        let answer = read_in_pieces(&rt, alloc, growing, length, &problem);
        assert_canonical(&rt, alloc, answer, CertKind::Share, 0, growing)?;
    }
    Ok(())
}
