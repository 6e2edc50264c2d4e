//! New weights from old ones: the larger the sum of a group, the more it weighs.
ghost use Rattle.std.specs.Prelude.{◌≡◌, ◌≤◌, ◌<◌, ◌^◌, length, map, All, Contains, IfOk};
ghost use Rattle.tdm_problem.specs.Limits.{most_weight};
ghost use Rattle.tdm_problem.specs.Value.{largest};
ghost use Rattle.group_multipliers.specs.Renewal.{pull, pulls, weight_for, renewed};

use std::alloc::{AllocError, Global};

/// The greatest weight that a group may have.
const MAX_WEIGHT: u128 = 1 << 40;

/// The weights of the groups for the next round, from those of this round and the sums that it gave the
/// groups.
///
/// Each weight is multiplied by its group's sum and divided by the largest sum; the products are then spread
/// over the range from 1 to 2^40, so that the largest becomes 2^40. Each division rounds down. This is the
/// multiplicative form of a subgradient step on the weights of the groups.
///
/// There are as many sums as weights. A weight is from 1 to 2^40, a sum at most 2^87, and some sum is above
/// 0. The only error is want of memory.
pub fn next_weights(alloc: Global, weights: &[u64], sums: &[u128]) -> Result<Vec<u64>, AllocError>
    requires paired { length sums.now ≡ length weights.now }
    requires positive { All (λ weight. 1 ≤ weight) weights.now }
    requires limited { All (λ weight. weight ≤ most_weight) weights.now }
    requires small { All (λ total. total ≤ 2 ^ 87) sums.now }
    requires some { 0 < largest sums.now }
    ensures value { IfOk result (λ renewal. renewal.items ≡ renewed weights.now sums.now) }
    ensures positive { IfOk result (λ renewal. All (λ weight. 1 ≤ weight) renewal.items) }
    ensures limited { IfOk result (λ renewal. All (λ weight. weight ≤ most_weight) renewal.items) }
{
    let mut renewal = pulls_of(alloc, weights, sums, largest_sum(sums))?;
    let strongest = largest_pull(&renewal);
    put_weights(&mut renewal, strongest);
    Ok(renewal)
}

/// The largest sum of a group, 0 without groups.
#[tactic(auto, using(crate::proofs::Largest::largest_more))]
pub fn largest_sum(sums: &[u128]) -> u128
    ensures { result ≡ largest sums.now }
{
    let mut most = 0;
    for total in sums {
        if *total > most {
            most = *total;
        }
    }
    most
}

/// The largest pull of a group.
#[tactic(auto, using(crate::proofs::Largest::largest_more))]
fn largest_pull(pulls: &[u64]) -> u64
    ensures { result ≡ largest pulls.now }
{
    let mut most = 0;
    for pull in pulls {
        if *pull > most {
            most = *pull;
        }
    }
    most
}

/// The pull of each group.
fn pulls_of(
    alloc: Global,
    weights: &[u64],
    sums: &[u128],
    greatest: u128,
) -> Result<Vec<u64>, AllocError>
    requires paired { length sums.now ≡ length weights.now }
    requires limited { All (λ weight. weight ≤ 2 ^ 40) weights.now }
    requires small { greatest ≤ 2 ^ 87 }
    requires some { 0 < greatest }
    requires is { greatest ≡ largest sums.now }
    ensures { IfOk result (λ all. all.items ≡ pulls weights.now sums.now) }
{
    let mut all = Vec::new(alloc);
    for g in 0..weights.len() {
        all.push(pull_of(weights[g], sums[g], greatest))?;
    }
    Ok(all)
}

/// The weight times the sum, in units of the greatest sum.
fn pull_of(weight: u64, sum: u128, greatest: u128) -> u64
    requires limited { weight ≤ 2 ^ 40 }
    requires within { sum ≤ greatest }
    requires small { greatest ≤ 2 ^ 87 }
    requires some { 0 < greatest }
    ensures { result ≡ pull greatest weight sum }
{
    (u128::from(weight) * sum / greatest) as u64
}

/// Puts the weight for each pull in its place.
fn put_weights(pulls: &mut [u64], strongest: u64)
    requires limited { strongest ≤ 2 ^ 40 }
    requires within { All (λ pull. pull ≤ strongest) pulls.old }
    requires some { 0 < strongest }
    ensures { pulls.new ≡ map (weight_for strongest) pulls.old }
{
    for pull in pulls.iter_mut() {
        *pull = weight_of(*pull, strongest);
    }
}

/// The weight for a pull, where this one is the strongest.
fn weight_of(pull: u64, strongest: u64) -> u64
    requires limited { strongest ≤ 2 ^ 40 }
    requires within { pull ≤ strongest }
    requires some { 0 < strongest }
    ensures { result ≡ weight_for strongest pull }
{
    1 + (u128::from(pull) * (MAX_WEIGHT - 1) / u128::from(strongest)) as u64
}
