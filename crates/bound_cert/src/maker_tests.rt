ghost use Rattle.std.specs.Prelude.{◌≡◌, ◌<◌, length, IfOk, IsTrue};
ghost use Rattle.tdm_problem.specs.Legal.{terminals_of};
ghost use Rattle.tdm_problem.specs.Walk.{IsConnectable};
ghost use Rattle.board_graph.specs.Graph.{graph_of};
ghost use Rattle.bound_cert.specs.Certificate.{IsCertFor};
ghost use Rattle.tdm_problem.specs.Legal.{AllConnectable};

use crate::{
    CertKind, Certificate, growing_hop_cert, growing_share_cert, hop_group_cert,
    uniform_share_cert, weighted_share_cert,
};
use board_graph::BoardGraph;
use shortest_forest::{base_tree, hops};
use std::alloc::{AllocError, Global};
use std::test::Fail;
use tdm_problem::{Problem, ProblemDraft, Wire};

/// A star of wires round FPGA 0, and one net from FPGA 1 to the two others.
fn star(alloc: Global) -> Result<Problem, AllocError> {
    let mut draft = ProblemDraft::new(alloc, 4);
    draft.push_wire(Wire { a: 0, b: 1 })?;
    draft.push_wire(Wire { a: 0, b: 2 })?;
    draft.push_wire(Wire { a: 0, b: 3 })?;
    draft.push_net(&[1, 2, 3])?;
    draft.push_group(&[0])?;
    Ok(draft.into_problem())
}

/// One wire, and three nets on it in one group.
fn three_nets(alloc: Global) -> Result<Problem, AllocError> {
    let mut draft = ProblemDraft::new(alloc, 2);
    draft.push_wire(Wire { a: 0, b: 1 })?;
    draft.push_net(&[0, 1])?;
    draft.push_net(&[0, 1])?;
    draft.push_net(&[0, 1])?;
    draft.push_group(&[0, 1, 2])?;
    Ok(draft.into_problem())
}

/// A path of three FPGAs, with nets of depth 1 and 2 from its ends, each in a group of its own.
fn path(alloc: Global) -> Result<Problem, AllocError> {
    let mut draft = ProblemDraft::new(alloc, 3);
    draft.push_wire(Wire { a: 0, b: 1 })?;
    draft.push_wire(Wire { a: 2, b: 1 })?;
    draft.push_net(&[2, 1])?;
    draft.push_net(&[0, 2])?;
    draft.push_group(&[0])?;
    draft.push_group(&[1])?;
    Ok(draft.into_problem())
}

/// Whether all nets can be joined.
fn is_connectable(alloc: Global, problem: &Problem, graph: &BoardGraph) -> Result<bool, AllocError>
    requires { graph.now ≡ graph_of problem.now }
    ensures { IfOk result (λ joined. IsTrue joined → AllConnectable problem.now) }
{
    for n in 0..problem.nets() {
        if !is_joined(alloc, problem, graph, n)? {
            return Ok(false);
        }
    }
    Ok(true)
}

/// Whether net `n` can be joined.
fn is_joined(
    alloc: Global,
    problem: &Problem,
    graph: &BoardGraph,
    n: u32,
) -> Result<bool, AllocError>
    requires there { n < length problem.now.nets }
    requires graph { graph.now ≡ graph_of problem.now }
    ensures { IfOk result (λ joined. IsTrue joined → IsConnectable problem.now (terminals_of problem.now n)) }
{
    let net = problem.net(n);
    let forest = hops(alloc, graph, net[0])?;
    let tree = base_tree(alloc, graph, &forest, net)?;
    Ok(tree.is_some())
}

/// The weights, the lengths, the potentials and the choices, one after another.
fn numbers(alloc: Global, problem: &Problem, cert: &Certificate) -> Result<Vec<u64>, AllocError>
    requires { IsCertFor problem.now cert.now }
{
    let mut all = Vec::new(alloc);
    for g in 0..problem.groups() {
        all.push(cert.weight(g))?;
    }
    for e in 0..problem.wires() {
        all.push(cert.length(e))?;
    }
    for p in 0..cert.potentials() {
        for value in cert.potential(p) {
            all.push(*value)?;
        }
    }
    for n in 0..problem.nets() {
        all.push(u64::from(cert.choice(n)))?;
    }
    Ok(all)
}

/// Makes both certificates, and tells whether they have these numbers.
fn have(
    alloc: Global,
    problem: &Problem,
    by_hops: &[u64],
    by_shares: &[u64],
) -> Result<bool, AllocError> {
    let graph = BoardGraph::of(alloc, problem)?;
    if !is_connectable(alloc, problem, &graph)? {
        return Ok(false);
    }
    let hop = hop_group_cert(alloc, problem, &graph)?;
    let share = uniform_share_cert(alloc, problem, &graph)?;
    Ok(
        hop.kind() == CertKind::Hop { unit: 1 }
            && numbers(alloc, problem, &hop)?.as_slice() == by_hops
            && share.kind() == CertKind::Share
            && numbers(alloc, problem, &share)?.as_slice() == by_shares,
    )
}

/// Makes the certificate of the three nets on a wire at weight 1 and length 3, and tells whether it has its
/// numbers.
fn weighted_has_its_numbers(alloc: Global) -> Result<bool, AllocError> {
    let problem = three_nets(alloc)?;
    let graph = BoardGraph::of(alloc, &problem)?;
    if !is_connectable(alloc, &problem, &graph)? || problem.groups() != 1 || problem.wires() != 1 {
        return Ok(false);
    }
    let cert = weighted_share_cert(alloc, &problem, &graph, &[1], &[3])?;
    Ok(
        cert.kind() == CertKind::Share
            && numbers(alloc, &problem, &cert)?.as_slice() == [1, 3, 0, 3, 1, 1, 1].as_slice(),
    )
}

/// Makes the certificate of the star with wires of lengths 5, 0 and 2.
fn star_over_lengths_has_its_numbers(alloc: Global) -> Result<bool, AllocError> {
    let problem = star(alloc)?;
    let graph = BoardGraph::of(alloc, &problem)?;
    if !is_connectable(alloc, &problem, &graph)? || problem.groups() != 1 || problem.wires() != 3 {
        return Ok(false);
    }
    let cert = weighted_share_cert(alloc, &problem, &graph, &[4], &[5, 0, 2])?;
    Ok(
        cert.kind() == CertKind::Share
            && numbers(alloc, &problem, &cert)?.as_slice()
                == [4, 5, 0, 2, 5, 0, 5, 7, 1].as_slice(),
    )
}

/// Makes the certificates by growth of the star.
fn star_grows_by_its_numbers(alloc: Global) -> Result<bool, AllocError> {
    let problem = star(alloc)?;
    if problem.groups() != 1 || problem.wires() != 3 {
        return Ok(false);
    }
    let shares = growing_share_cert(alloc, &problem, &[4], &[5, 0, 2])?;
    let hops = growing_hop_cert(alloc, &problem, 0)?;
    Ok(
        shares.grows()
            && hops.grows()
            && numbers(alloc, &problem, &shares)?.as_slice() == [4, 5, 0, 2, 0].as_slice()
            && numbers(alloc, &problem, &hops)?.as_slice() == [1, 1, 1, 1, 0].as_slice(),
    )
}

/// Whether the star's certificates have the numbers that they must.
fn star_has_its_numbers(alloc: Global) -> Result<bool, AllocError> {
    let problem = star(alloc)?;
    let by_hops = [1, 1, 1, 1, 1, 0, 2, 2, 1];
    let by_shares = [1048576, 682, 682, 682, 682, 0, 1364, 1364, 1];
    have(alloc, &problem, &by_hops, &by_shares)
}

/// Whether the certificates of the three nets on a wire have the numbers that they must.
fn three_nets_have_their_numbers(alloc: Global) -> Result<bool, AllocError> {
    let problem = three_nets(alloc)?;
    let by_hops = [1, 1, 0, 1, 1, 1, 1];
    let by_shares = [1048576, 3072, 0, 3072, 1, 1, 1];
    have(alloc, &problem, &by_hops, &by_shares)
}

/// Whether the path's certificates have the numbers that they must.
fn path_has_its_numbers(alloc: Global) -> Result<bool, AllocError> {
    let problem = path(alloc)?;
    let by_hops = [0, 1, 1, 1, 2, 1, 0, 0, 1, 2, 1, 2];
    let by_shares = [
        1048576, 1048576, 1536, 1536, 3072, 1536, 0, 0, 1536, 3072, 1, 2,
    ];
    have(alloc, &problem, &by_hops, &by_shares)
}

#[test]
fn certificates_have_the_numbers_of_their_boards(rt: HostRuntime) -> Result<(), Fail> {
    assert!(rt; star_has_its_numbers(rt.alloc())?);
    assert!(rt; three_nets_have_their_numbers(rt.alloc())?);
    assert!(rt; path_has_its_numbers(rt.alloc())?);
    assert!(rt; weighted_has_its_numbers(rt.alloc())?);
    assert!(rt; star_over_lengths_has_its_numbers(rt.alloc())?);
    assert!(rt; star_grows_by_its_numbers(rt.alloc())?);
    Ok(())
}
