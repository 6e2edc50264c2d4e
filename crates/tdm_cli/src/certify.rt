//! The certificate of a board before the rounds: of two that are made, the one with the greater bound.
ghost use Rattle.std.specs.Prelude.{◌≡◌, false, IfOk};
ghost use Rattle.board_graph.specs.Graph.{graph_of};
ghost use Rattle.bound_cert.specs.Certificate.{IsCertFor};
ghost use Rattle.bound_cert.specs.Valid.{IsValid};
ghost use Rattle.bound_cert.specs.Bound.{bound_of, IsBound};
ghost use Rattle.tdm_problem.specs.Legal.{AllConnectable};
ghost use Rattle.cert_checker.specs.Answer.{IsLowerBound};
ghost use Rattle.tdm_cli.specs.Certified.{IsHopProof, IsShareProof, IsBestCert};

use board_graph::BoardGraph;
use bound_cert::{Certificate, hop_group_cert, uniform_share_cert};
use cert_checker::{CheckAnswer, check};
use std::alloc::{AllocError, Global};
use tdm_problem::Problem;

/// A certificate, with the bound that it was checked to carry.
#[derive(Drop)]
pub struct Certified {
    pub cert: Certificate,
    pub bound: u128,
}

/// The bound that a valid certificate is checked to carry.
pub(crate) fn checked_bound(
    alloc: Global,
    problem: &Problem,
    cert: &Certificate,
) -> Result<u128, AllocError>
    requires for_problem { IsCertFor problem.now cert.now }
    requires valid { IsValid problem.now cert.now }
    ensures is_bound { IfOk result (IsBound problem.now cert.now) }
    ensures chosen { cert.now.grows ≡ false → IfOk result (λ bound. bound ≡ bound_of problem.now cert.now) }
    ensures lower { IfOk result (IsLowerBound problem.now) }
{
    match check(alloc, problem, cert)? {
        CheckAnswer::Accepted { bound } => Ok(bound),
        CheckAnswer::Rejected(_) => unreachable!(),
    }
}

/// The certificate by hops, with its bound.
fn certify_by_hops(
    alloc: Global,
    problem: &Problem,
    graph: &BoardGraph,
) -> Result<Certified, AllocError>
    requires graph { graph.now ≡ graph_of problem.now }
    requires connectable { AllConnectable problem.now }
    ensures proof { IfOk result (λ certified. IsHopProof problem.now certified.cert) }
    ensures bound { IfOk result (λ certified. certified.bound ≡ bound_of problem.now certified.cert) }
{
    let cert = hop_group_cert(alloc, problem, graph)?;
    let bound = checked_bound(alloc, problem, &cert)?;
    Ok(Certified { cert, bound })
}

/// The certificate by shares, with its bound.
fn certify_by_shares(
    alloc: Global,
    problem: &Problem,
    graph: &BoardGraph,
) -> Result<Certified, AllocError>
    requires graph { graph.now ≡ graph_of problem.now }
    requires connectable { AllConnectable problem.now }
    ensures proof { IfOk result (λ certified. IsShareProof problem.now certified.cert) }
    ensures bound { IfOk result (λ certified. certified.bound ≡ bound_of problem.now certified.cert) }
{
    let cert = uniform_share_cert(alloc, problem, graph)?;
    let bound = checked_bound(alloc, problem, &cert)?;
    Ok(Certified { cert, bound })
}

/// Of the certificate by hops and the one by shares the one with the greater bound, the one by hops on a tie.
/// All nets can be joined, and the graph is that of the problem's board. The only error is want of memory.
pub fn best_certificate(
    alloc: Global,
    problem: &Problem,
    graph: &BoardGraph,
) -> Result<Certified, AllocError>
    requires graph { graph.now ≡ graph_of problem.now }
    requires connectable { AllConnectable problem.now }
    ensures best { IfOk result (λ certified. IsBestCert problem.now certified.cert) }
    ensures bound { IfOk result (λ certified. certified.bound ≡ bound_of problem.now certified.cert) }
{
    let hops = certify_by_hops(alloc, problem, graph)?;
    let shares = certify_by_shares(alloc, problem, graph)?;
    if hops.bound < shares.bound {
        return Ok(shares);
    }
    Ok(hops)
}
