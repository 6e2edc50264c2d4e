//! The weights of nets.
ghost use Rattle.std.specs.Prelude.{◌≡◌, ◌≢◌, ℕ, ◌+◌, ◌*◌, ◌<◌, ◌≤◌, ◌^◌, ◌==◌, length, slice_index, sum, All, AllPairs, IfOk, OnOk, if◌then◌else◌};
ghost use Rattle.std.specs.List.{list_any};
ghost use Rattle.tdm_problem.specs.Board.{IsBoard};
ghost use Rattle.bound_cert.specs.Certificate.{IsCertFor};
ghost use Rattle.cert_checker.specs.NetWeights.{AreNetWeights};

use bound_cert::Certificate;
use std::alloc::{AllocError, Global};
use tdm_problem::Problem;

/// The weight of each net, which is the sum of the weights of the groups that hold it: at most 2^60, and all
/// together at most 2^64. One pass over all groups. The only error is want of memory.
pub(crate) fn net_weights(
    alloc: Global,
    problem: &Problem,
    cert: &Certificate,
) -> Result<Vec<u64>, AllocError>
    requires { IsCertFor problem.now cert.now }
    ensures weights { IfOk result (λ weights. AreNetWeights problem.now cert.now weights.items) }
    ensures board { OnOk result (IsBoard problem.now) }
{
    let mut weights = vec![in alloc; 0u64; problem.nets() as usize]?;
    for g in 0..problem.groups() {
        add_weight(&mut weights, problem.group(g), cert.weight(g));
    }
    Ok(weights)
}

/// Adds a weight to that of each of these nets, which are all different.
fn add_weight(weights: &mut [u64], nets: &[u32], weight: u64)
    requires there { All (λ n. n < length weights.old) nets.now }
    requires distinct { AllPairs (λ m n. m ≢ n) nets.now }
    requires room { All (λ before. before + weight < 2 ^ 64) weights.old }
    ensures each { (n : ℕ) → n < length weights.old → slice_index weights.new n
        ≡ slice_index weights.old n + (if list_any (λ m. m == n) nets.now then weight else 0) }
    ensures total { sum weights.new ≡ sum weights.old + weight * length nets.now }
{
    for n in nets {
        weights[*n as usize] += weight;
    }
}
