//! How many nets use each wire.
ghost use Rattle.std.specs.Prelude.{◌≡◌, ◌≢◌, ℕ, ◌+◌, ◌<◌, ◌^◌, ◌-◌, ◌==◌, length, slice_index, count_by, All, AllPairs, IfOk, OnOk};
ghost use Rattle.tdm_problem.specs.Trees.{HasRisingRows};
ghost use Rattle.even_legalise.specs.Uniform.{CountsNets};

use std::alloc::{AllocError, Global};
use tdm_problem::Trees;

/// Counts the nets of each of so many wires, in one pass over all trees.
pub(crate) fn nets_on_wires(
    alloc: Global,
    trees: &Trees,
    wires: u32,
) -> Result<Vec<u32>, AllocError>
    requires { All (λ row. All (λ e. e < wires) row) trees.now }
    ensures counted { IfOk result (λ counts. CountsNets trees.now wires counts.items) }
    ensures rising { OnOk result (HasRisingRows trees.now) }
{
    let mut counts = vec![in alloc; 0u32; wires as usize]?;
    for n in 0..trees.nets() {
        add_net(&mut counts, trees.wires_of(n));
    }
    Ok(counts)
}

/// Counts one more net at each of its wires, which are all different.
fn add_net(counts: &mut [u32], wires: &[u32])
    requires there { All (λ e. e < length counts.old) wires.now }
    requires distinct { AllPairs (λ d e. d ≢ e) wires.now }
    requires room { All (λ count. count < 2 ^ 32 - 1) counts.old }
    ensures { (e : ℕ) → e < length counts.old → slice_index counts.new e
        ≡ slice_index counts.old e + count_by (λ d. d == e) wires.now }
{
    for e in wires {
        counts[*e as usize] += 1;
    }
}
