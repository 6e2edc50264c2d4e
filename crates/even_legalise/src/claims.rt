//! What the nets of each wire claim of it, in two sweeps over the nets.
ghost use Rattle.std.specs.Prelude.{◌≡◌, ◌≢◌, ℕ, ◌+◌, ◌*◌, ◌<◌, ◌≤◌, ◌^◌, ◌==◌, max, length, map, slice_index, sum_by, if◌then◌else◌, All, AllPairs, IfOk, OnOk};
ghost use Rattle.std.specs.Int.{div_ceil};
ghost use Rattle.std.specs.List.{fold};
ghost use Rattle.tdm_problem.specs.Trees.{HasRisingRows};
ghost use Rattle.even_legalise.specs.Claims.{HasLargest, HasLeast, HasClaims};

use ratio_shares::{claim, least_claim_for};
use std::alloc::{AllocError, Global};
use tdm_problem::Trees;

/// The least claim on each of so many wires.
pub(crate) fn least_claims(
    alloc: Global,
    trees: &Trees,
    s: &[u64],
    wires: u32,
) -> Result<Vec<u64>, AllocError>
    requires paired { length s.now ≡ length trees.now }
    requires there { All (λ row. All (λ e. e < wires) row) trees.now }
    ensures { IfOk result (λ least. HasLeast trees.now s.now wires least.items) }
{
    let mut least = largest_numbers(alloc, trees, s, wires)?;
    to_least_claims(&mut least);
    Ok(least)
}

/// The largest number of a net on each of so many wires.
fn largest_numbers(
    alloc: Global,
    trees: &Trees,
    s: &[u64],
    wires: u32,
) -> Result<Vec<u64>, AllocError>
    requires paired { length s.now ≡ length trees.now }
    requires there { All (λ row. All (λ e. e < wires) row) trees.now }
    ensures { IfOk result (λ most. HasLargest trees.now s.now wires most.items) }
{
    let mut most = vec![in alloc; 0u64; wires as usize]?;
    for n in 0..trees.nets() {
        raise_each(&mut most, trees.wires_of(n), s[n as usize]);
    }
    Ok(most)
}

/// Raises what stands at each of the wires to the number, where it is less.
fn raise_each(most: &mut [u64], wires: &[u32], number: u64)
    requires there { All (λ e. e < length most.old) wires.now }
    ensures { (e : ℕ) → e < length most.old → slice_index most.new e
        ≡ fold (λ a d. if d == e then max a number else a) (slice_index most.old e) wires.now }
{
    for e in wires {
        if number > most[*e as usize] {
            most[*e as usize] = number;
        }
    }
}

/// Puts the least claim for each largest number in its place.
fn to_least_claims(most: &mut [u64])
    ensures { most.new ≡ map (λ number. max (div_ceil number 1024) 1) most.old }
{
    for number in most.iter_mut() {
        *number = least_claim_for(*number);
    }
}

/// All claims together on each wire, of which these are the least.
pub(crate) fn all_claims(
    alloc: Global,
    trees: &Trees,
    s: &[u64],
    least: &[u64],
) -> Result<Vec<u64>, AllocError>
    requires paired { length s.now ≡ length trees.now }
    requires there { All (λ row. All (λ e. e < length least.now) row) trees.now }
    requires small { All (λ number. number ≤ 2 ^ 30) s.now }
    requires is_least { HasLeast trees.now s.now (length least.now) least.now }
    ensures claims { IfOk result (λ claims. HasClaims trees.now s.now (length least.now) claims.items) }
    ensures rising { OnOk result (HasRisingRows trees.now) }
{
    let mut claims = vec![in alloc; 0u64; least.len()]?;
    for n in 0..trees.nets() {
        add_claims(&mut claims, least, trees.wires_of(n), s[n as usize]);
    }
    Ok(claims)
}

/// Adds a net's claim on each of its wires, which are all different.
fn add_claims(claims: &mut [u64], least: &[u64], wires: &[u32], number: u64)
    requires paired { length claims.old ≡ length least.now }
    requires there { All (λ e. e < length least.now) wires.now }
    requires distinct { AllPairs (λ d e. d ≢ e) wires.now }
    requires small { number ≤ 2 ^ 30 }
    requires least_small { All (λ least_one. least_one ≤ 2 ^ 30) least.now }
    requires room { All (λ sum. sum ≤ 2 ^ 60) claims.old }
    ensures { (e : ℕ) → e < length claims.old → slice_index claims.new e
        ≡ slice_index claims.old e + sum_by (λ d. if d == e then max number (slice_index least.now e) else 0)
        wires.now }
{
    for e in wires {
        claims[*e as usize] += claim(number, least[*e as usize]);
    }
}
