//! The bound of a certificate.
ghost use Rattle.std.specs.Prelude.{◌≡◌, ◌*◌, ◌<◌, ◌≤◌, ◌^◌, ℕ, length, map, slice_index, sum, sum_by, All};
ghost use Rattle.tdm_problem.specs.Roots.{root_of};
ghost use Rattle.tdm_problem.specs.Board.{IsBoard};
ghost use Rattle.bound_cert.specs.Certificate.{IsCert, IsCertFor};
ghost use Rattle.bound_cert.specs.Valid.{IsValid};
ghost use Rattle.cert_checker.specs.Answer.{IsLowerBound};
ghost use Rattle.bound_cert.specs.declared.certificate.CertKind.TheVariants.{Share};
ghost use Rattle.bound_cert.specs.Bound.{bound_of, demand_by, divisor_of, least_even, root_of_net, IsBound};
ghost use Rattle.cert_checker.specs.NetWeights.{AreNetWeights};
ghost use Rattle.cert_checker.specs.Spreads.{AreSpreads};
ghost use Rattle.tdm_problem.specs.Sums.{sum_below};

use crate::spread::chosen_sum;
use bound_cert::{CertKind, Certificate};
use integer_root::isqrt;
use tdm_problem::Problem;

/// The bound that the certificate carries, by the weights of the nets and how far they are spread.
pub(crate) fn bound(
    problem: &Problem,
    cert: &Certificate,
    weights: Vec<u64>,
    spreads: &[u128],
) -> u128
    requires board { IsBoard problem.now }
    requires is_for { IsCertFor problem.now cert.now }
    requires weights { AreNetWeights problem.now cert.now weights.items }
    requires spreads { AreSpreads problem.now cert.now spreads.now }
    ensures value { IsBound problem.now cert.now result }
    ensures lower { IsValid problem.now cert.now → IsLowerBound problem.now result }
{
    least_even(
        demand(problem, cert, weights, spreads),
        divisor(problem, cert),
    )
}

/// The bound that a certificate by shares carries by the choices of its nets, by the roots of the nets'
/// weights, each rounded down. Where the certificate is valid, no legal solution's value is below it; whether
/// it is valid is not looked at. Takes no memory. One pass over all nets.
pub fn bound_by_shares(problem: &Problem, cert: &Certificate, roots: &[u64]) -> u128
    requires is_for { IsCertFor problem.now cert.now }
    requires share { cert.now.kind ≡ Share }
    requires count { length roots.now ≡ length problem.now.nets }
    requires roots { (n : ℕ) → n < length problem.now.nets
        → slice_index roots.now n ≡ root_of_net problem.now cert.now n }
    ensures value { result ≡ bound_of problem.now cert.now }
    ensures lower { IsValid problem.now cert.now → IsLowerBound problem.now result }
{
    let _kind = cert.kind();
    let weights = sum_of_weights(problem, cert);
    let total = 2 * chosen_sum(problem, cert, roots);
    let squares = sum_of_squares(problem, cert);
    least_even(total.saturating_sub(squares), u128::from(weights))
}

/// What the bound times the divisor must reach, 0 where that is negative.
fn demand(problem: &Problem, cert: &Certificate, mut weights: Vec<u64>, spreads: &[u128]) -> u128
    requires board { IsBoard problem.now }
    requires is_for { IsCertFor problem.now cert.now }
    requires weights { AreNetWeights problem.now cert.now weights.items }
    requires spreads { AreSpreads problem.now cert.now spreads.now }
    ensures ranges { IsCert cert.now }
    ensures value { result ≡ demand_by cert.now.kind problem.now cert.now (slice_index spreads.now) }
    ensures within { result ≤ 2 ^ 125 }
{
    match cert.kind() {
        CertKind::Share => {
            take_roots(&mut weights);
            let total = 2 * weighted_sum(&weights, spreads);
            total.saturating_sub(sum_of_squares(problem, cert))
        }
        CertKind::Hop { unit: _ } => 2 * weighted_sum(&weights, spreads),
    }
}

/// The sum of the spreads, each times its factor.
fn weighted_sum(factors: &[u64], spreads: &[u128]) -> u128
    requires whole { length spreads.now ≡ length factors.now }
    requires small { (most : ℕ) × All (λ s. s ≤ most) spreads.now × (sum factors.now * most ≤ 2 ^ 124) }
    ensures value { result ≡ sum_below (length factors.now)
        (λ n. slice_index factors.now n * slice_index spreads.now n) }
    ensures within { result ≤ 2 ^ 124 }
{
    let mut total = 0;
    for n in 0..factors.len() {
        total += u128::from(factors[n]) * spreads[n];
    }
    total
}

/// Puts the whole square root of each number in its place.
pub(crate) fn take_roots(numbers: &mut [u64])
    requires { sum numbers.old ≤ 2 ^ 64 }
    ensures { numbers.new ≡ map root_of numbers.old }
{
    for number in numbers.iter_mut() {
        *number = u64::from(isqrt(*number));
    }
}

/// The sum of the squares of all wires' lengths.
fn sum_of_squares(problem: &Problem, cert: &Certificate) -> u128
    requires { IsCertFor problem.now cert.now }
    ensures { result ≡ sum_by (λ l. l * l) cert.now.lengths }
{
    let mut total = 0;
    for e in 0..problem.wires() {
        let length = u128::from(cert.length(e));
        total += length * length;
    }
    total
}

/// What the bound is multiplied by: the sum of all weights, by hops times the unit.
fn divisor(problem: &Problem, cert: &Certificate) -> u128
    requires { IsCertFor problem.now cert.now }
    ensures value { result ≡ divisor_of cert.now }
    ensures within { result ≤ 2 ^ 80 }
{
    let weights = u128::from(sum_of_weights(problem, cert));
    match cert.kind() {
        CertKind::Share => weights,
        CertKind::Hop { unit } => u128::from(unit) * weights,
    }
}

/// The sum of the weights of all groups.
fn sum_of_weights(problem: &Problem, cert: &Certificate) -> u64
    requires { IsCertFor problem.now cert.now }
    ensures value { result ≡ sum cert.now.weights }
    ensures within { result ≤ 2 ^ 60 }
{
    let mut total = 0;
    for g in 0..problem.groups() {
        total += cert.weight(g);
    }
    total
}

/// The least even number that, times the divisor, is at least the demand; 0 where the divisor is 0.
fn least_even(demand: u128, divisor: u128) -> u128
    requires demand_within { demand ≤ 2 ^ 125 }
    requires divisor_within { divisor ≤ 2 ^ 80 }
    ensures { result ≡ least_even demand divisor }
{
    if divisor == 0 {
        return 0;
    }
    2 * demand.div_ceil(2 * divisor)
}
