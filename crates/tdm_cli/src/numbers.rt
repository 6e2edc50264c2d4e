//! The numbers of a round: those of the nets, which nets are rerouted, and how many wires the trees have.
ghost use Rattle.std.specs.Prelude.{◌≡◌, ◌≤◌, ◌^◌, true, false, length, map, sum_by, All, IfOk};
ghost use Rattle.std.specs.List.{range_with_len};
ghost use Rattle.tdm_problem.specs.Board.{Board};
ghost use Rattle.tdm_problem.specs.Roots.{root_of};
ghost use Rattle.tdm_problem.specs.Trees.{HasRisingRows};
ghost use Rattle.tdm_problem.specs.Limits.{most_weight};
ghost use Rattle.net_groups.specs.Incidence.{IsIncidenceOf};
ghost use Rattle.tdm_cli.specs.Baseline.{most_uses};
ghost use Rattle.tdm_cli.specs.Rounds.{AreRoots};

use crate::baseline::MAX_USES;
use integer_root::isqrt;
use net_groups::Incidence;
use std::alloc::{AllocError, Global};
use tdm_problem::{Problem, Trees};

/// The number of each net: the root of its weight, rounded down. Each weight of a group is at most 2^40.
pub(crate) fn numbers_of(
    alloc: Global,
    incidence: &Incidence,
    weights: &[u64],
) -> Result<Vec<u64>, AllocError>
    requires count { length weights.now ≡ incidence.now.groups }
    requires small { All (λ weight. weight ≤ most_weight) weights.now }
    ensures roots { IfOk result (λ numbers. (board : Board) → IsIncidenceOf board incidence.now
        → AreRoots board weights.now numbers.items) }
    ensures small { IfOk result (λ numbers. All (λ number. number ≤ 2 ^ 30) numbers.items) }
{
    let mut numbers = incidence.weights_of(alloc, weights)?;
    take_roots(&mut numbers);
    Ok(numbers)
}

/// Puts the root of each number in its place.
fn take_roots(numbers: &mut [u64])
    ensures { numbers.new ≡ map root_of numbers.old }
{
    for number in numbers.iter_mut() {
        *number = root(*number);
    }
}

/// The root of a number, rounded down.
fn root(number: u64) -> u64
    ensures { result ≡ root_of number }
{
    u64::from(isqrt(number))
}

/// All nets of a problem, in order.
pub(crate) fn all_nets(alloc: Global, problem: &Problem) -> Result<Vec<u32>, AllocError>
    ensures { IfOk result (λ nets. nets.items ≡ range_with_len 0 (length problem.now.nets)) }
{
    let mut nets = Vec::with_capacity(alloc, problem.nets() as usize)?;
    for n in 0..problem.nets() {
        nets.push(n)?;
    }
    Ok(nets)
}

/// Whether the trees have no more wires together than `route` may write uses.
pub(crate) fn are_few(trees: &Trees) -> bool
    ensures yes { result ≡ true → sum_by length trees.now ≤ most_uses }
    ensures no { result ≡ false → ¬ (sum_by length trees.now ≤ most_uses) }
    ensures rising { HasRisingRows trees.now }
{
    let mut used = 0;
    for n in 0..trees.nets() {
        used += trees.wires_of(n).len() as u64;
        if used > MAX_USES {
            return false;
        }
    }
    true
}
