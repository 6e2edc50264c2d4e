//! The sums of the groups in the solution that shares give, without that solution.
ghost use Rattle.std.specs.Prelude.{◌≡◌, ◌<◌, ◌≤◌, ◌*◌, ◌^◌, max, length, map, slice_index, sum, sum_by, All, IfOk};
ghost use Rattle.tdm_problem.specs.Limits.{most_number};
ghost use Rattle.tdm_problem.specs.Routing.{ratios_of};
ghost use Rattle.tdm_problem.specs.Trees.{AreTreesFor, HasRisingRows};
ghost use Rattle.tdm_problem.specs.Value.{group_sum};
ghost use Rattle.ratio_shares.specs.Shares.{share_for};
ghost use Rattle.even_legalise.specs.Shared.{even_ratio, shared_routing};
ghost use Rattle.even_legalise.specs.Claims.{HasLeast, HasClaims};

use crate::claims::{all_claims, least_claims};
use crate::even::ratio_for;
use ratio_shares::claim;
use std::alloc::{AllocError, Global};
use tdm_problem::{Problem, Trees};

/// The sum of each group in the solution that [`legalise`](crate::legalise) would make of these trees and
/// numbers, without that solution being made. The trees are for the problem, and there is a number for each
/// net, at most 2^30. The only error is want of memory.
pub fn shared_sums(
    alloc: Global,
    problem: &Problem,
    trees: &Trees,
    s: &[u64],
) -> Result<Vec<u128>, AllocError>
    requires trees_for { AreTreesFor problem.now trees.now }
    requires paired { length s.now ≡ length problem.now.nets }
    requires small { All (λ number. number ≤ most_number) s.now }
    ensures { IfOk result (λ sums. sums.items
        ≡ map (group_sum (shared_routing problem.now trees.now s.now)) problem.now.groups) }
{
    let least = least_claims(alloc, trees, s, problem.wires())?;
    let claims = all_claims(alloc, trees, s, &least)?;
    let net_sums = sums_of_nets(alloc, problem, trees, s, &least, &claims)?;
    sums_of_groups(alloc, problem, &net_sums)
}

/// The sum of each net's ratios, where the least claim and all claims are known of each wire.
fn sums_of_nets(
    alloc: Global,
    problem: &Problem,
    trees: &Trees,
    s: &[u64],
    least: &[u64],
    claims: &[u64],
) -> Result<Vec<u128>, AllocError>
    requires trees_for { AreTreesFor problem.now trees.now }
    requires paired { length s.now ≡ length trees.now }
    requires small { All (λ number. number ≤ 2 ^ 30) s.now }
    requires is_least { HasLeast trees.now s.now (length problem.now.wires) least.now }
    requires is_claims { HasClaims trees.now s.now (length problem.now.wires) claims.now }
    requires rising { HasRisingRows trees.now }
    ensures small { IfOk result (λ sums. All (λ total. total < 2 ^ 96) sums.items) }
    ensures sums { IfOk result (λ sums. sums.items
        ≡ map (λ uses. sum (ratios_of uses)) (shared_routing problem.now trees.now s.now)) }
{
    let mut sums = Vec::new(alloc);
    for n in 0..trees.nets() {
        sums.push(sum_of_net(trees.wires_of(n), s[n as usize], least, claims))?;
    }
    Ok(sums)
}

/// The sum of one net's ratios on its wires.
fn sum_of_net(wires: &[u32], number: u64, least: &[u64], claims: &[u64]) -> u128
    requires small { number ≤ 2 ^ 30 }
    requires paired { length claims.now ≡ length least.now }
    requires there { All (λ e. e < length least.now) wires.now }
    requires some { All (λ e. 1 ≤ slice_index least.now e) wires.now }
    requires least_small { All (λ e. slice_index least.now e ≤ 2 ^ 30) wires.now }
    requires some_claims { All (λ e. 1 ≤ slice_index claims.now e) wires.now }
    requires few { All (λ e. slice_index claims.now e ≤ 2 ^ 30 * max number (slice_index least.now e))
        wires.now }
    ensures total { result ≡ sum_by (λ e. even_ratio
        (share_for (slice_index claims.now e) 1 (max number (slice_index least.now e)))) wires.now }
    ensures small { result < 2 ^ 96 }
{
    let mut total = 0;
    for e in wires {
        let place = *e as usize;
        total += u128::from(ratio_for(claim(number, least[place]), claims[place]));
    }
    total
}

/// The sum of each group, where those of the nets are known.
fn sums_of_groups(
    alloc: Global,
    problem: &Problem,
    net_sums: &[u128],
) -> Result<Vec<u128>, AllocError>
    requires paired { length net_sums.now ≡ length problem.now.nets }
    requires small { All (λ total. total < 2 ^ 96) net_sums.now }
    ensures { IfOk result (λ sums. sums.items
        ≡ map (λ group. sum_by (λ n. slice_index net_sums.now n) group) problem.now.groups) }
{
    let mut sums = Vec::new(alloc);
    for g in 0..problem.groups() {
        sums.push(sum_of_group(net_sums, problem.group(g)))?;
    }
    Ok(sums)
}

/// The sum of the sums of a group's nets.
fn sum_of_group(net_sums: &[u128], nets: &[u32]) -> u128
    requires there { All (λ n. n < length net_sums.now) nets.now }
    requires small { All (λ total. total < 2 ^ 96) net_sums.now }
    requires few { length nets.now ≤ 2 ^ 24 }
    ensures { result ≡ sum_by (λ n. slice_index net_sums.now n) nets.now }
{
    let mut total = 0;
    for n in nets {
        total += net_sums[*n as usize];
    }
    total
}
