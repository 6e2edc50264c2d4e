//! What a solution is worth.
ghost use Rattle.std.specs.Prelude.{◌≡◌, ◌<◌, ◌≤◌, ◌^◌, length, map, sum, sum_by, slice_index, All, IfOk};
ghost use Rattle.tdm_problem.specs.Routing.{ratios_of};
ghost use Rattle.tdm_problem.specs.Value.{value_of};

use std::alloc::{AllocError, Global};
use tdm_problem::{Problem, Solution, WireUse};

/// The largest sum of a group, which is what a solution is judged by; 0 where there are no groups. A group's
/// sum is that of all ratios of all its nets. The solution has as many nets as the problem. The only error is
/// want of memory.
pub fn value(alloc: Global, problem: &Problem, solution: &Solution) -> Result<u128, AllocError>
    requires { length solution.now ≡ length problem.now.nets }
    ensures { IfOk result (λ worth. worth ≡ value_of problem.now solution.now) }
{
    let sums = net_sums(alloc, solution)?;
    let mut most = 0;
    for g in 0..problem.groups() {
        most = most.max(sum_of_group(&sums, problem.group(g)));
    }
    Ok(most)
}

/// The sum of the ratios of each net.
fn net_sums(alloc: Global, solution: &Solution) -> Result<Vec<u128>, AllocError>
    ensures sums { IfOk result (λ sums. sums.items ≡ map (λ uses. sum (ratios_of uses)) solution.now) }
    ensures small { IfOk result (λ sums. All (λ total. total < 2 ^ 96) sums.items) }
{
    let mut sums = Vec::new(alloc);
    for n in 0..solution.nets() {
        sums.push(sum_of_uses(solution.uses(n)))?;
    }
    Ok(sums)
}

/// The sum of the ratios of one net's uses.
fn sum_of_uses(uses: &[WireUse]) -> u128
    ensures total { result ≡ sum (ratios_of uses.now) }
    ensures small { result < 2 ^ 96 }
{
    let mut total = 0;
    for wire_use in uses {
        total += u128::from(wire_use.ratio);
    }
    total
}

/// The sum of the sums of a group's nets.
fn sum_of_group(sums: &[u128], nets: &[u32]) -> u128
    requires there { All (λ n. n < length sums.now) nets.now }
    requires small { All (λ total. total < 2 ^ 96) sums.now }
    requires few { length nets.now ≤ 2 ^ 24 }
    ensures { result ≡ sum_by (λ n. slice_index sums.now n) nets.now }
{
    let mut total = 0;
    for n in nets {
        total += sums[*n as usize];
    }
    total
}
