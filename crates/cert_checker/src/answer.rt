//! What a certificate is checked to be.
ghost use Rattle.std.specs.Prelude.{◌≡◌, ◌↔◌, IfOk, OnErr};
ghost use Rattle.bound_cert.specs.Certificate.{IsCertFor};
ghost use Rattle.bound_cert.specs.Valid.{IsValid};
ghost use Rattle.cert_checker.specs.declared.answer.CheckAnswer.{CheckAnswer};
ghost use Rattle.cert_checker.specs.Answer.{IsAnswer, IsAcceptance, HasLowerBound};

use crate::bound::bound;
use crate::net_weights::net_weights;
use crate::spread::spreads;
use crate::steep::{Steep, first_steep};
use bound_cert::Certificate;
use std::alloc::{AllocError, Global};
use tdm_problem::Problem;

/// What a certificate is checked to be.
#[derive(Clone, Copy, Debug, PartialEq, Eq)]
pub enum CheckAnswer {
    /// It is valid, and no legal solution's value is below the bound.
    Accepted { bound: u128 },
    /// It is not valid, and this pair is the first that shows it.
    Rejected(Steep),
}

/// Checks a certificate for the problem: accepted with its bound exactly where it is valid, or rejected with
/// the first potential and wire along which it is too steep. The only error is want of memory, and where the
/// certificate is not valid it does not come.
pub fn check(
    alloc: Global,
    problem: &Problem,
    cert: &Certificate,
) -> Result<CheckAnswer, AllocError>
    requires { IsCertFor problem.now cert.now }
    ensures answer { IfOk result (λ answer. IsAnswer problem.now cert.now answer) }
    ensures accepted { IfOk result (λ answer. IsAcceptance answer ↔ IsValid problem.now cert.now) }
    ensures err { OnErr result (IsValid problem.now cert.now) }
    ensures dual_bound { IfOk result (λ answer. HasLowerBound problem.now answer) }
    ensures only { IfOk result (λ answer. (other : CheckAnswer)
        → IsAnswer problem.now cert.now other → other ≡ answer) }
{
    if let Some(steep) = first_steep(problem, cert) {
        return Ok(CheckAnswer::Rejected(steep));
    }
    let weights = net_weights(alloc, problem, cert)?;
    let spreads = spreads(alloc, problem, cert, &weights)?;
    Ok(CheckAnswer::Accepted {
        bound: bound(problem, cert, weights, &spreads),
    })
}
