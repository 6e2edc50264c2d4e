//! The loads of wires, and what they cost.
ghost use Rattle.std.specs.Prelude.{◌≡◌, ◌≢◌, ℕ, ◌+◌, ◌*◌, ◌^◌, ◌<◌, ◌≤◌, length, slice_index, All, AllPairs, IfOk};
ghost use Rattle.tdm_problem.specs.Board.{Board, IsBoard};
ghost use Rattle.tdm_problem.specs.Loads.{load_by, load_of, load_cost};
ghost use Rattle.tdm_problem.specs.Sums.{sum_below};
ghost use Rattle.tdm_problem.specs.Trees.{AreTreesFor, HasRisingRows};
ghost use Rattle.ripup_reroute.specs.Working.{AreLoads, AreNumbers, IsAdded};

use std::alloc::{AllocError, Global};
use tdm_problem::{Problem, Trees};

/// The load of each wire: the sum of the numbers of the nets whose tree has it. One pass over all trees. The
/// trees are for the problem, with a number for each net, at most 2^30. The only error is want of memory.
pub fn loads_of(
    alloc: Global,
    problem: &Problem,
    trees: &Trees,
    numbers: &[u64],
) -> Result<Vec<u64>, AllocError>
    requires trees { AreTreesFor problem.now trees.now }
    requires numbers { AreNumbers problem.now numbers.now }
    ensures loads { IfOk result (λ loads. AreLoads problem.now trees.now numbers.now loads.items) }
    ensures board { IsBoard problem.now }
{
    let mut loads = vec![in alloc; 0u64; problem.wires() as usize]?;
    for n in 0..trees.nets() {
        add_number(&mut loads, trees.wires_of(n), numbers[n as usize]);
    }
    Ok(loads)
}

/// The mean number of the nets that have one above 0 and a wire, rounded down.
pub(crate) fn mean_number(trees: &Trees, numbers: &[u64]) -> u64
    requires count { length numbers.now ≡ length trees.now }
    requires small { All (λ s. s ≤ 2 ^ 30) numbers.now }
{
    let mut sum = 0;
    let mut nets = 0;
    for n in 0..trees.nets() {
        let number = numbers[n as usize];
        if number > 0 && !trees.wires_of(n).is_empty() {
            sum += number;
            nets += 1;
        }
    }
    if nets == 0 {
        return 0;
    }
    sum / nets
}

/// Adds a net's number to the loads of its wires, which are all different.
pub(crate) fn add_number(loads: &mut Vec<u64>, wires: &[u32], number: u64)
    requires there { All (λ e. e < length loads.old.items) wires.now }
    requires distinct { AllPairs (λ d e. d ≢ e) wires.now }
    requires room { (e : ℕ) → slice_index loads.old.items e + number < 2 ^ 64 }
    ensures { IsAdded number wires.now loads.old.items loads.new.items }
{
    for e in wires {
        loads[*e as usize] += number;
    }
}

/// Takes a net's number off the loads of its wires, which are all different.
pub(crate) fn take_number(loads: &mut Vec<u64>, wires: &[u32], number: u64)
    requires there { All (λ e. e < length loads.old.items) wires.now }
    requires distinct { AllPairs (λ d e. d ≢ e) wires.now }
    requires loaded { (e : ℕ) → load_by number wires.now e ≤ slice_index loads.old.items e }
    ensures { IsAdded number wires.now loads.new.items loads.old.items }
{
    for e in wires {
        loads[*e as usize] -= number;
    }
}

/// The sum of the squares of the loads.
pub(crate) fn cost_of(loads: &[u64]) -> u128
    requires few { length loads.now ≤ 2 ^ 16 }
    requires small { All (λ x. x ≤ 2 ^ 50) loads.now }
    ensures { result ≡ sum_below (length loads.now)
        (λ e. slice_index loads.now e * slice_index loads.now e) }
{
    let mut cost = 0;
    for e in 0..loads.len() {
        let load = u128::from(loads[e]);
        cost += load * load;
    }
    cost
}
