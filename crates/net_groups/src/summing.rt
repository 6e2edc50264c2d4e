//! Sums of weights and of ratios.
ghost use Rattle.std.specs.Prelude.{◌≡◌, ◌≢◌, ℕ, ◌+◌, ◌*◌, ◌^◌, ◌<◌, ◌≤◌, ◌==◌, length, slice_index, sum, sum_by, All, AllPairs, if◌then◌else◌};
ghost use Rattle.std.specs.List.{list_any};
ghost use Rattle.tdm_problem.specs.Routing.{ratios_of};

use tdm_problem::WireUse;

/// The sum of the weights of these groups.
pub(crate) fn sum_of_weights(weights: &[u64], groups: &[u32]) -> u64
    requires there { All (λ g. g < length weights.now) groups.now }
    requires small { All (λ w. w ≤ 2 ^ 40) weights.now }
    requires few { length groups.now ≤ 2 ^ 20 }
    ensures total { result ≡ sum_by (λ g. slice_index weights.now g) groups.now }
    ensures small { result ≤ 2 ^ 60 }
{
    let mut total = 0;
    for g in groups {
        total += weights[*g as usize];
    }
    total
}

/// The sum of the ratios of one net's uses.
pub(crate) fn sum_of_uses(uses: &[WireUse]) -> u128
    ensures total { result ≡ sum (ratios_of uses.now) }
    ensures small { result < 2 ^ 96 }
{
    let mut total = 0;
    for wire_use in uses {
        total += u128::from(wire_use.ratio);
    }
    total
}

/// Adds an amount to the sums of these groups, which are all different.
pub(crate) fn add_to(sums: &mut [u128], groups: &[u32], amount: u128)
    requires there { All (λ g. g < length sums.old) groups.now }
    requires distinct { AllPairs (λ x y. x ≢ y) groups.now }
    requires room { All (λ total. total + amount < 2 ^ 128) sums.old }
    ensures count { length sums.new ≡ length sums.old }
    ensures each { (g : ℕ) → g < length sums.old → slice_index sums.new g
        ≡ (if list_any (λ h. h == g) groups.now then slice_index sums.old g + amount
        else slice_index sums.old g) }
{
    for g in groups {
        sums[*g as usize] += amount;
    }
}
