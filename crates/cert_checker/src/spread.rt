//! How far nets are spread: by the potentials that they choose, or by their growth.
ghost use Rattle.std.specs.Prelude.{◌≡◌, ◌+◌, ◌*◌, ◌^◌, ◌<◌, ◌≤◌, true, false, length, slice_index, sum, All, IfOk};
ghost use Rattle.tdm_problem.specs.Board.{IsBoard};
ghost use Rattle.tdm_problem.specs.Sums.{sum_below};
ghost use Rattle.bound_cert.specs.Certificate.{IsCertFor, IsPotential};
ghost use Rattle.bound_cert.specs.Bound.{spread, net_spread};
ghost use Rattle.bound_cert.specs.Limits.{most_potential_value};
ghost use Rattle.cert_checker.specs.NetWeights.{AreNetWeights};
ghost use Rattle.cert_checker.specs.Spreads.{AreSpreads};

use crate::net_growths::growths;
use bound_cert::Certificate;
use std::alloc::{AllocError, Global};
use tdm_problem::Problem;

/// How far each net is spread, nets in order: by its growth where nets of the certificate grow, and else by
/// its choice. For nets without weight it may be any number. The only error is want of memory.
pub(crate) fn spreads(
    alloc: Global,
    problem: &Problem,
    cert: &Certificate,
    weights: &[u64],
) -> Result<Vec<u128>, AllocError>
    requires board { IsBoard problem.now }
    requires is_for { IsCertFor problem.now cert.now }
    requires weights { AreNetWeights problem.now cert.now weights.now }
    ensures { IfOk result (λ spreads. AreSpreads problem.now cert.now spreads.items) }
{
    if cert.grows() {
        return growths(alloc, problem, cert.lengths(), weights);
    }
    chosen_spreads(alloc, problem, cert)
}

/// How far the values of each net's potential lie apart, nets in order.
fn chosen_spreads(
    alloc: Global,
    problem: &Problem,
    cert: &Certificate,
) -> Result<Vec<u128>, AllocError>
    requires is_for { IsCertFor problem.now cert.now }
    requires chosen { cert.now.grows ≡ false }
    ensures { IfOk result (λ spreads. AreSpreads problem.now cert.now spreads.items) }
{
    let mut spreads = Vec::with_capacity(alloc, problem.nets() as usize)?;
    for n in 0..problem.nets() {
        spreads.push(u128::from(spread_of_net(problem, cert, n)))?;
    }
    Ok(spreads)
}

/// The sum of how far the values of each net's potential lie apart, each times the net's factor.
pub(crate) fn chosen_sum(problem: &Problem, cert: &Certificate, factors: &[u64]) -> u128
    requires is_for { IsCertFor problem.now cert.now }
    requires count { length factors.now ≡ length problem.now.nets }
    requires small { All (λ factor. factor ≤ 2 ^ 32) factors.now }
    ensures value { result ≡ sum_below (length problem.now.nets)
        (λ n. slice_index factors.now n * net_spread problem.now cert.now n) }
    ensures within { result ≤ 2 ^ 112 }
    ensures board { IsBoard problem.now }
{
    let mut total = 0;
    for n in 0..problem.nets() {
        total += u128::from(factors[n as usize]) * u128::from(spread_of_net(problem, cert, n));
    }
    total
}

/// How far the values of the potential that net `n` chooses lie apart over its FPGAs; 0 where it chooses
/// none.
fn spread_of_net(problem: &Problem, cert: &Certificate, n: u32) -> u64
    requires is_for { IsCertFor problem.now cert.now }
    requires there { n < length problem.now.nets }
    ensures value { result ≡ net_spread problem.now cert.now n }
    ensures within { result ≤ most_potential_value }
{
    let choice = cert.choice(n);
    if choice == 0 {
        return 0;
    }
    spread_over(cert.potential(choice - 1), problem.net(n))
}

/// How far the potential's values at these FPGAs lie apart.
fn spread_over(potential: &[u64], fpgas: &[u32]) -> u64
    requires potential { IsPotential potential.now }
    requires some { 0 < length fpgas.now }
    requires there { All (λ f. f < length potential.now) fpgas.now }
    ensures value { result ≡ spread potential.now fpgas.now }
    ensures within { result ≤ most_potential_value }
{
    let mut least = potential[fpgas[0] as usize];
    let mut most = least;
    for i in 1..fpgas.len() {
        let value = potential[fpgas[i] as usize];
        least = least.min(value);
        most = most.max(value);
    }
    most - least
}
