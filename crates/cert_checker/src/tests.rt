//! Certificates of small boards, checked.
use super::*;
use crate::bound::take_roots;
use crate::net_weights::net_weights;
use bound_cert::{CertFault, CertKind, read_cert};
use std::alloc::{AllocError, Global};
use std::test::Fail;
use tdm_problem::{Problem, ProblemDraft, Wire};

/// Two FPGAs and one wire between them, with one net over it in one group.
fn one_net(alloc: Global) -> Result<Problem, AllocError> {
    let mut draft = ProblemDraft::new(alloc, 2);
    draft.push_wire(Wire { a: 0, b: 1 })?;
    draft.push_net(&[0, 1])?;
    draft.push_group(&[0])?;
    Ok(draft.into_problem())
}

/// The same with three nets in the group.
fn three_nets(alloc: Global) -> Result<Problem, AllocError> {
    let mut draft = ProblemDraft::new(alloc, 2);
    draft.push_wire(Wire { a: 0, b: 1 })?;
    draft.push_net(&[0, 1])?;
    draft.push_net(&[0, 1])?;
    draft.push_net(&[0, 1])?;
    draft.push_group(&[0, 1, 2])?;
    Ok(draft.into_problem())
}

/// Three FPGAs around a fourth, and one net that joins the three.
fn star(alloc: Global) -> Result<Problem, AllocError> {
    let mut draft = ProblemDraft::new(alloc, 4);
    draft.push_wire(Wire { a: 0, b: 1 })?;
    draft.push_wire(Wire { a: 0, b: 2 })?;
    draft.push_wire(Wire { a: 0, b: 3 })?;
    draft.push_net(&[1, 2, 3])?;
    draft.push_group(&[0])?;
    Ok(draft.into_problem())
}

/// Whether a certificate with this text is steep nowhere, and accepted for the problem with this bound.
fn is_accepted(
    alloc: Global,
    problem: Result<Problem, AllocError>,
    text: &[u8],
    bound: u128,
) -> Result<bool, CertFault> {
    let problem = problem?;
    let cert = read_cert(alloc, text, &problem)?;
    Ok(
        first_steep(&problem, &cert).is_none()
            && check(alloc, &problem, &cert)? == CheckAnswer::Accepted { bound },
    )
}

/// The bound of a certificate by shares with this text from the roots of the weights that it gives the nets;
/// 0 where it is by hops.
fn bound_from_roots(
    alloc: Global,
    problem: Result<Problem, AllocError>,
    text: &[u8],
) -> Result<u128, CertFault> {
    let problem = problem?;
    let cert = read_cert(alloc, text, &problem)?;
    let mut roots = net_weights(alloc, &problem, &cert)?;
    take_roots(&mut roots);
    match cert.kind() {
        CertKind::Share => Ok(bound_by_shares(&problem, &cert, &roots)),
        CertKind::Hop { unit: _ } => Ok(0),
    }
}

/// Whether a certificate with this text is rejected for the problem, first at this potential and wire.
fn is_rejected(
    alloc: Global,
    problem: Result<Problem, AllocError>,
    text: &[u8],
    steep: Steep,
) -> Result<bool, CertFault> {
    let problem = problem?;
    let cert = read_cert(alloc, text, &problem)?;
    Ok(
        first_steep(&problem, &cert) == Some(steep)
            && check(alloc, &problem, &cert)? == CheckAnswer::Rejected(steep),
    )
}

#[test]
fn bounds_are_least_and_even(rt: HostRuntime) -> Result<(), Fail> {
    let alloc = rt.alloc();
    assert!(rt;
        is_accepted(
            alloc,
            three_nets(alloc),
            b"1 1 0 1\n1\n3\n0 3\n1\n1\n1\n",
            10
        )?
    );
    assert!(rt;
        is_accepted(
            alloc,
            three_nets(alloc),
            b"1 1 0 1\n2\n3\n0 3\n1\n1\n1\n",
            6
        )?
    );
    assert!(rt;
        is_accepted(
            alloc,
            three_nets(alloc),
            b"1 1 0 1\n1\n3\n0 3\n0\n0\n0\n",
            0
        )?
    );
    assert!(rt;
        is_accepted(
            alloc,
            one_net(alloc),
            b"1 2 1048576 1\n1099511627776\n0 1048576\n1\n",
            2
        )?
    );
    assert!(rt; is_accepted(alloc, star(alloc), b"1 2 1 1\n1\n1 0 2 2\n1\n", 4)?);
    Ok(())
}

#[test]
fn known_roots_give_the_bound_by_shares(rt: HostRuntime) -> Result<(), Fail> {
    let alloc = rt.alloc();
    assert!(rt;
        bound_from_roots(alloc, three_nets(alloc), b"1 1 0 1\n1\n3\n0 3\n1\n1\n1\n")? == 10
    );
    Ok(())
}

#[test]
fn a_star_is_bounded_by_its_growth(rt: HostRuntime) -> Result<(), Fail> {
    let alloc = rt.alloc();
    assert!(rt; is_accepted(alloc, three_nets(alloc), b"4 1 0 0\n1\n3\n", 10)?);
    assert!(rt; is_accepted(alloc, star(alloc), b"4 1 0 0\n1\n1\n1\n1\n", 4)?);
    assert!(rt; is_accepted(alloc, star(alloc), b"4 1 0 0\n1\n2\n2\n2\n", 0)?);
    assert!(rt; is_accepted(alloc, star(alloc), b"4 2 1 0\n1\n", 6)?);
    assert!(rt; is_accepted(alloc, star(alloc), b"4 2 1 0\n0\n", 0)?);
    Ok(())
}

#[test]
fn the_first_steep_pair_is_named(rt: HostRuntime) -> Result<(), Fail> {
    let alloc = rt.alloc();
    let first = Steep {
        potential: 0,
        wire: 0,
    };
    assert!(rt;
        is_rejected(
            alloc,
            three_nets(alloc),
            b"1 1 0 1\n1\n3\n0 4\n1\n1\n1\n",
            first
        )?
    );
    assert!(rt; is_rejected(alloc, one_net(alloc), b"1 2 1 1\n1\n2 0\n1\n", first)?);
    let last = Steep {
        potential: 1,
        wire: 2,
    };
    assert!(rt;
        is_rejected(
            alloc,
            star(alloc),
            b"1 2 1 2\n1\n0 1 1 1\n0 0 0 2\n1\n",
            last
        )?
    );
    Ok(())
}
