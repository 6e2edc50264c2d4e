//! The groups with the largest sums.
ghost use Rattle.std.specs.Prelude.{◌≡◌, ◌<◌, length, All, IfOk};
ghost use Rattle.net_groups.specs.Incidence.{IsIncidenceOf};

use net_groups::Incidence;
use std::alloc::{AllocError, Global};
use tdm_problem::{Problem, Solution};

/// A group and the sum of its nets' ratios.
#[derive(Clone, Copy)]
struct Ranked {
    group: u32,
    sum: u128,
}

/// The groups whose sums are within a 256th of the largest, the largest sum first.
///
/// The only error is want of memory.
pub(crate) fn worst_groups(
    alloc: Global,
    problem: &Problem,
    incidence: &Incidence,
    solution: &Solution,
) -> Result<Vec<u32>, AllocError>
    requires incidence { IsIncidenceOf problem.now incidence.now }
    requires paired { length solution.now ≡ length problem.now.nets }
    ensures { IfOk result (λ groups. All (λ g. g < length problem.now.groups) groups.items) }
{
    let sums = incidence.sums(alloc, solution)?;
    let least = least_of_the_worst(&sums);
    let mut ranked = Vec::new(alloc);
    for g in 0..problem.groups() {
        if sums[g as usize] >= least {
            ranked.push(Ranked {
                group: g,
                sum: sums[g as usize],
            })?;
        }
    }
    ranked.sort_unstable_by_key(|place| u128::MAX - place.sum);
    groups_of(alloc, &ranked, problem.groups())
}

/// The largest sum less its 256th part.
fn least_of_the_worst(sums: &[u128]) -> u128 {
    let mut most = 0;
    for sum in sums {
        if *sum > most {
            most = *sum;
        }
    }
    most - most / 256
}

/// The groups that are ranked, in order, of so many groups.
fn groups_of(alloc: Global, ranked: &[Ranked], groups: u32) -> Result<Vec<u32>, AllocError>
    ensures { IfOk result (λ found. All (λ g. g < groups) found.items) }
{
    let mut found = Vec::with_capacity(alloc, ranked.len())?;
    for place in ranked {
        if place.group < groups {
            found.push(place.group)?;
        }
    }
    Ok(found)
}
