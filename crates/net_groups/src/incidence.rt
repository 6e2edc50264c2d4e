//! Which groups hold each net.
ghost use Rattle.std.specs.Prelude.{◌≡◌, ℕ, ◌<◌, ◌≤◌, ◌^◌, [], length, map, slice_get, slice_index, slice_index_or, All, Some, IfOk};
ghost use Rattle.std.specs.List.Sorted.{IsStrictlyIncreasing};
ghost use Rattle.tdm_problem.specs.Limits.{most_weight};
ghost use Rattle.tdm_problem.specs.Board.{Board, IsBoard};
ghost use Rattle.tdm_problem.specs.Value.{group_sum};
ghost use Rattle.tdm_problem.specs.Weights.{net_weight};
ghost use Rattle.net_groups.specs.Incidence.{groups_of, weight_of, sum_before, IsNetGroups, IsGroupRow, IsIncidenceOf};

use crate::gathering::gather;
use crate::summing::{add_to, sum_of_uses, sum_of_weights};
use flat_rows::FlatRows;
use std::alloc::{AllocError, Global};
use std::marker::Model;
use tdm_problem::{Problem, Solution};

/// Net by net the groups that hold the net, rising.
#[derive(Drop)]
pub struct Incidence {
    groups: u32,
    of_nets: FlatRows<u32>,
}

impl Model for Incidence {
    ghost use Rattle.net_groups.specs.Incidence.{NetGroups, IsNetGroups};

    ghost Value = { NetGroups };

    ghost view = { λ i. record { groups = i.groups; of_nets = i.of_nets } };

    ghost invariant = { λ i. IsNetGroups (record { groups = i.groups; of_nets = i.of_nets }) };
}

impl Incidence {
    /// The groups of each net of a problem, in time and memory in proportion to the nets, the groups and the
    /// nets that the groups list. The only error is want of memory.
    pub fn of(alloc: Global, problem: &Problem) -> Result<Incidence, AllocError>
        ensures { IfOk result (λ incidence. IsIncidenceOf problem.now incidence) }
    {
        let of_nets = gather(alloc, problem)?;
        Ok(Incidence {
            groups: problem.groups(),
            of_nets,
        })
    }

    /// How many nets there are.
    pub fn nets(&self) -> u32
        ensures value { result ≡ length self.now.of_nets }
        ensures limits { IsNetGroups self.now }
    {
        self.of_nets.rows() as u32
    }

    /// How many groups there are.
    pub fn groups(&self) -> u32
        ensures value { result ≡ self.now.groups }
        ensures limits { IsNetGroups self.now }
    {
        self.groups
    }

    /// The groups that hold net `n`, rising.
    pub fn groups_of(&self, n: u32) -> &[u32]
        requires { n < length self.now.of_nets }
        ensures value { groups_of self.now n ≡ result.now }
        ensures row { IsGroupRow self.now.groups result.now }
    {
        self.of_nets.row(n as usize)
    }

    /// For each net the sum of the weights of the groups that hold it, each weight at most 2^40. The only
    /// error is want of memory.
    pub fn weights_of(&self, alloc: Global, weights: &[u64]) -> Result<Vec<u64>, AllocError>
        requires count { length weights.now ≡ self.now.groups }
        requires small { All (λ w. w ≤ most_weight) weights.now }
        ensures count { IfOk result (λ sums. length sums.items ≡ length self.now.of_nets) }
        ensures each { IfOk result (λ sums. (n : ℕ) → n < length self.now.of_nets
            → slice_index sums.items n ≡ weight_of self.now weights.now n) }
        ensures small { IfOk result (λ sums. All (λ w. w ≤ 2 ^ 60) sums.items) }
        ensures board { IfOk result (λ sums. (board : Board) → IsIncidenceOf board self.now
            → (n : ℕ) → n < length board.nets
            → slice_index sums.items n ≡ net_weight board.groups weights.now n) }
    {
        let mut sums = Vec::with_capacity(alloc, self.nets() as usize)?;
        for n in 0..self.nets() {
            sums.push(sum_of_weights(weights, self.groups_of(n)))?;
        }
        Ok(sums)
    }

    /// The sum of each group: that of all ratios of all its nets. The solution has as many nets. Each net's
    /// sum is made once. The only error is want of memory.
    pub fn sums(&self, alloc: Global, solution: &Solution) -> Result<Vec<u128>, AllocError>
        requires { length solution.now ≡ length self.now.of_nets }
        ensures count { IfOk result (λ sums. length sums.items ≡ self.now.groups) }
        ensures each { IfOk result (λ sums. (g : ℕ) → g < self.now.groups
            → slice_index sums.items g ≡ sum_before self.now solution.now (length self.now.of_nets) g) }
        ensures board { IfOk result (λ sums. (board : Board) → IsBoard board → IsIncidenceOf board self.now
            → sums.items ≡ map (group_sum solution.now) board.groups) }
    {
        let mut sums = vec![in alloc; 0u128; self.groups() as usize]?;
        for n in 0..self.nets() {
            add_to(&mut sums, self.groups_of(n), sum_of_uses(solution.uses(n)));
        }
        Ok(sums)
    }
}
