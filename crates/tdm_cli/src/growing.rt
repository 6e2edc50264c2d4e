//! Certificates by growth of the board that was routed.
ghost use Rattle.std.specs.Prelude.{◌≡◌, ◌<◌, ◌≤◌, ℕ, length, All, IfOk, IfSome, OnOk};
ghost use Rattle.bound_cert.specs.declared.certificate.CertKind.TheVariants.{Share};
ghost use Rattle.bound_cert.specs.Bound.{IsBound};
ghost use Rattle.bound_cert.specs.Makers.{growing_cert};
ghost use Rattle.tdm_cli.specs.declared.candidates.Candidate.{Candidate};
ghost use Rattle.tdm_cli.specs.Best.{IsBest};
ghost use Rattle.tdm_cli.specs.Candidates.{IsCandidate, AreCandidates};

use crate::best::{Best, keep_checked};
use crate::candidates::{Candidate, Candidates};
use bound_cert::{growing_hop_cert, growing_share_cert};
use cert_checker::growths;
use std::alloc::{AllocError, Global};
use tdm_problem::{Problem, Solution};

/// Keeps the certificate by growth of the last round where its bound is greater than the best, and that of an
/// earlier round of which a greater bound is foretold.
pub(crate) fn keep_grown_rounds(
    alloc: Global,
    problem: &Problem,
    candidates: &Candidates,
    best: &mut Best,
) -> Result<(), AllocError>
    requires candidates { AreCandidates problem.now candidates.now }
    requires best { IsBest problem.now best.old.solution best.old.value best.old.certified }
    ensures best { OnOk result (IsBest problem.now best.new.solution best.new.value best.new.certified) }
    ensures higher { OnOk result (best.old.certified.bound ≤ best.new.certified.bound) }
    ensures last { OnOk result (IfSome candidates.now.last (λ candidate. (other : ℕ)
        → IsBound problem.now (growing_cert problem.now Share candidate.weights.items candidate.lengths.items)
        other
        → other ≤ best.new.certified.bound)) }
    ensures value { best.new.value ≡ best.old.value }
{
    let Some(last) = &candidates.last else {
        return Ok(())
    };
    keep_stronger(alloc, problem, &candidates.strongest, last.foretold, best)?;
    keep_grown(alloc, problem, last, best)?;
    Ok(())
}

/// Keeps the certificate by growth of a round, if there is one, of which more is foretold than this, where
/// its bound is greater than the best.
fn keep_stronger(
    alloc: Global,
    problem: &Problem,
    candidate: &Option<Candidate>,
    foretold: u128,
    best: &mut Best,
) -> Result<(), AllocError>
    requires candidate { IfSome candidate.now (IsCandidate problem.now) }
    requires best { IsBest problem.now best.old.solution best.old.value best.old.certified }
    ensures best { OnOk result (IsBest problem.now best.new.solution best.new.value best.new.certified) }
    ensures higher { OnOk result (best.old.certified.bound ≤ best.new.certified.bound) }
    ensures value { best.new.value ≡ best.old.value }
{
    let Some(candidate) = candidate else {
        return Ok(())
    };
    if candidate.foretold <= foretold {
        return Ok(());
    }
    keep_grown(alloc, problem, candidate, best)
}

/// Keeps the certificate by shares and by growth with these weights and lengths where its bound is greater
/// than the best.
fn keep_grown(
    alloc: Global,
    problem: &Problem,
    candidate: &Candidate,
    best: &mut Best,
) -> Result<(), AllocError>
    requires candidate { IsCandidate problem.now candidate.now }
    requires best { IsBest problem.now best.old.solution best.old.value best.old.certified }
    ensures best { OnOk result (IsBest problem.now best.new.solution best.new.value best.new.certified) }
    ensures higher { OnOk result (best.old.certified.bound ≤ best.new.certified.bound) }
    ensures bound { OnOk result ((other : ℕ)
        → IsBound problem.now
        (growing_cert problem.now Share candidate.now.weights.items candidate.now.lengths.items) other
        → other ≤ best.new.certified.bound) }
    ensures value { best.new.value ≡ best.old.value }
{
    let cert = growing_share_cert(alloc, problem, &candidate.weights, &candidate.lengths)?;
    keep_checked(alloc, problem, cert, best)?;
    Ok(())
}

/// Keeps the certificate by hops and by growth for one group where its bound is greater than the best: for
/// that whose nets grow most together over wires of length 1.
pub(crate) fn keep_grown_group(
    alloc: Global,
    problem: &Problem,
    best: &mut Best,
) -> Result<(), AllocError>
    requires best { IsBest problem.now best.old.solution best.old.value best.old.certified }
    ensures best { OnOk result (IsBest problem.now best.new.solution best.new.value best.new.certified) }
    ensures higher { OnOk result (best.old.certified.bound ≤ best.new.certified.bound) }
    ensures value { best.new.value ≡ best.old.value }
{
    if best.certified.bound >= best.value {
        return Ok(());
    }
    let found = group_of_most_growth(alloc, problem, &best.solution, best.certified.bound)?;
    let Some(group) = found else { return Ok(()) };
    let cert = growing_hop_cert(alloc, problem, group)?;
    keep_checked(alloc, problem, cert, best)
}

/// The group whose nets grow most together over wires of length 1, where only nets grow that are in a group
/// which may lead to a bound above this: twice the number of the wires of its nets, than which no growth is
/// greater, is above it.
fn group_of_most_growth(
    alloc: Global,
    problem: &Problem,
    solution: &Solution,
    bound: u128,
) -> Result<Option<u32>, AllocError>
    requires { length solution.now ≡ length problem.now.nets }
    ensures { IfOk result (λ found. IfSome found (λ g. g < length problem.now.groups)) }
{
    let mut weights = vec![in alloc; 0u64; problem.nets() as usize]?;
    if !mark_promising(problem, solution, bound, &mut weights) {
        return Ok(None);
    }
    let lengths = vec![in alloc; 1u64; problem.wires() as usize]?;
    let growths = growths(alloc, problem, &lengths, &weights)?;
    let mut found = None;
    let mut most = 0;
    for g in 0..problem.groups() {
        let growth = growth_of_group(problem.group(g), &growths);
        if growth <= most {
            continue;
        }
        most = growth;
        found = Some(g);
    }
    Ok(found)
}

/// Gives the weight 1 to the nets of each group of which twice the number of wires is above the bound, and
/// answers whether there is such a group.
fn mark_promising(problem: &Problem, solution: &Solution, bound: u128, weights: &mut [u64]) -> bool
    requires solution { length solution.now ≡ length problem.now.nets }
    requires weights { length weights.old ≡ length problem.now.nets }
    ensures { length weights.new ≡ length weights.old }
{
    let mut any = false;
    for g in 0..problem.groups() {
        let nets = problem.group(g);
        if wires_of_nets(solution, nets).saturating_mul(2) <= bound {
            continue;
        }
        any = true;
        for n in nets {
            weights[*n as usize] = 1;
        }
    }
    any
}

/// How many wires these nets have together.
fn wires_of_nets(solution: &Solution, nets: &[u32]) -> u128
    requires { All (λ n. n < length solution.now) nets.now }
{
    let mut total: u128 = 0;
    for n in nets {
        total = total.saturating_add(solution.uses(*n).len() as u128);
    }
    total
}

/// How far these nets grow together.
fn growth_of_group(nets: &[u32], growths: &[u128]) -> u128
    requires { All (λ n. n < length growths.now) nets.now }
{
    let mut total: u128 = 0;
    for n in nets {
        total = total.saturating_add(growths[*n as usize]);
    }
    total
}
