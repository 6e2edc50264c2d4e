//! Shares in proportion to numbers, none of them too small.
ghost use Rattle.std.specs.Prelude.{◌≡◌, ◌≤◌, ◌<◌, ◌^◌, max, length, sum_by, All, IfOk};
ghost use Rattle.std.specs.Int.{div_ceil};
ghost use Rattle.tdm_problem.specs.Limits.{most_nets, most_number};
ghost use Rattle.tdm_problem.specs.Value.{largest};
ghost use Rattle.ratio_shares.specs.Shares.{least_claim, share_for, shares_of};

use std::alloc::{AllocError, Global};

/// The share of each number in the lanes of a wire, in units of which a lane has 2^64, rounded down.
///
/// Each number claims itself, and at least 1 and a 1024th of the largest, rounded up; the shares are in
/// proportion to the claims. In proportion to the roots of their weights, nets have the least weighted sum of
/// ratios.
///
/// There are 1 to 2^20 numbers of at most 2^30, and 1 to 1,024 lanes. The only error is want of memory.
pub fn shares(alloc: Global, s: &[u64], lanes: u64) -> Result<Vec<u128>, AllocError>
    requires some { 1 ≤ length s.now }
    requires few { length s.now ≤ most_nets }
    requires small { All (λ number. number ≤ most_number) s.now }
    requires lanes_there { 1 ≤ lanes }
    requires lanes_few { lanes ≤ 1024 }
    ensures { IfOk result (λ all. all.items ≡ shares_of s.now lanes) }
{
    let least = least_claim_for(largest_number(s));
    let claims = sum_of_claims(s, least);
    let mut all = Vec::new(alloc);
    for number in s {
        all.push(share(claim(*number, least), claims, lanes))?;
    }
    Ok(all)
}

/// The least claim where this is the largest number.
pub fn least_claim_for(most: u64) -> u64
    ensures { result ≡ max (div_ceil most 1024) 1 }
{
    most.div_ceil(1024).max(1)
}

/// The claim of a number, where this is the least claim.
pub fn claim(number: u64, least: u64) -> u64
    ensures { result ≡ max number least }
{
    if number > least { number } else { least }
}

/// The share of a claim, where all claims of the wire together are so much.
pub fn share(claim: u64, claims: u64, lanes: u64) -> u128
    requires some { 0 < claims }
    requires small { claim ≤ 2 ^ 40 }
    requires lanes_few { lanes ≤ 1024 }
    ensures { result ≡ share_for claims lanes claim }
{
    (u128::from(lanes) << 64) * u128::from(claim) / u128::from(claims)
}

/// The largest of the numbers.
#[tactic(auto, using(crate::proofs::Largest::largest_more))]
fn largest_number(numbers: &[u64]) -> u64
    ensures { result ≡ largest numbers.now }
{
    let mut most = 0;
    for number in numbers {
        if *number > most {
            most = *number;
        }
    }
    most
}

/// All claims together, where this is the least one.
fn sum_of_claims(numbers: &[u64], least: u64) -> u64
    requires few { length numbers.now ≤ 2 ^ 20 }
    requires small { All (λ number. number ≤ 2 ^ 30) numbers.now }
    requires least_small { least ≤ 2 ^ 30 }
    ensures { result ≡ sum_by (λ number. max number least) numbers.now }
{
    let mut claims = 0;
    for number in numbers {
        claims += claim(*number, least);
    }
    claims
}
