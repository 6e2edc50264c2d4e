//! How many groups hold each net.
ghost use Rattle.std.specs.Prelude.{◌≡◌, ◌≢◌, ◌+◌, ◌<◌, ◌≤◌, ◌==◌, ℕ, length, slice_index, All, AllPairs, IfOk, OnOk, if◌then◌else◌};
ghost use Rattle.std.specs.List.{list_any};
ghost use Rattle.tdm_problem.specs.Board.{IsBoard};
ghost use Rattle.tdm_problem.specs.Limits.{most_groups};
ghost use Rattle.bound_cert.specs.Floors.{holders_of};

use std::alloc::{AllocError, Global};
use tdm_problem::Problem;

/// For each net how many groups hold it.
pub(crate) fn holders(alloc: Global, problem: &Problem) -> Result<Vec<u32>, AllocError>
    ensures count { IfOk result (λ counts. length counts.items ≡ length problem.now.nets) }
    ensures each { IfOk result (λ counts. (n : ℕ) → n < length problem.now.nets
        → slice_index counts.items n ≡ holders_of problem.now n) }
    ensures board { OnOk result (IsBoard problem.now) }
    ensures few { IfOk result (λ counts. All (λ count. count ≤ most_groups) counts.items) }
{
    let mut counts = vec![in alloc; 0; problem.nets() as usize]?;
    for g in 0..problem.groups() {
        count_members(problem.group(g), &mut counts);
    }
    Ok(counts)
}

/// Counts one more for each net of a group.
fn count_members(group: &[u32], counts: &mut [u32])
    requires there { All (λ n. n < length counts.old) group.now }
    requires distinct { AllPairs (λ x y. x ≢ y) group.now }
    requires few { All (λ count. count < most_groups) counts.old }
    ensures { (n : ℕ) → n < length counts.old → slice_index counts.new n
        ≡ slice_index counts.old n + (if list_any (λ m. m == n) group.now then 1 else 0) }
{
    for n in group {
        counts[*n as usize] += 1;
    }
}
