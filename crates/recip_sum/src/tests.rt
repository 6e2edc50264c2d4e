//! Worked examples of the counts and of the exact test.

ghost use Rattle.std.specs.Prelude.{◌≡◌, ◌+◌, ◌<◌, ◌≤◌, [], ◌∷◌, true};
ghost use Rattle.recip_sum.specs.Counts.{items};
ghost use Rattle.tdm_problem.specs.Fit.{FitsLanes};
ghost use Rattle.std.specs.FinMap as map;

use crate::{Counts, Steps, ceiling_of_reciprocal, floor_of_reciprocal};
use std::alloc::{AllocError, Global};
use std::marker::Brand;
use std::process::Abort;
use std::sync::ledger::{Blank, Ledger};

/// The counts of these items, which are fewer than 2^20 and positive.
fn counts_of(rt: &impl Abort, alloc: Global, ratios: &[u32]) -> Result<Counts, AllocError> {
    let mut counts = Counts::new(alloc);
    for &ratio in ratios {
        assert!(rt; ratio > 0 && counts.items() < 1 << 20);
        counts.add(ratio)?;
    }
    Ok(counts)
}

#[test]
fn counts_items_and_different_ratios(rt: HostRuntime) -> Result<(), AllocError> {
    let mut counts = counts_of(&rt, rt.alloc(), &[6, 2, 6, 6])?;
    assert_eq!(rt; (counts.items(), counts.distinct()), (4, 2));
    counts.clear();
    assert_eq!(rt; (counts.items(), counts.distinct()), (0, 0));
    Ok(())
}

/// Whether items of two different ratios or fewer fit so many lanes, after six steps or fewer.
fn fits_after_six_steps<L: Ledger>(counts: &mut Counts, lanes: u64, steps: &mut Steps<L>) -> bool
    requires { map.len counts.old ≤ 2 }
    ensures { steps.new ≤ steps.old + 6 }
{
    counts.at_most(lanes, steps)
}

/// The same with new steps.
fn fits_with_new_steps<L: Ledger>(counts: &mut Counts, lanes: u64, blank: Blank) -> bool
    requires name { blank.name ≡ L.name }
    requires parts { blank.parts ≡ L.parts }
    requires some { 0 < blank.parts }
    requires few { map.len counts.old ≤ 2 }
{
    let mut steps = Steps::<L>::new(blank);
    fits_after_six_steps(counts, lanes, &mut steps)
}

#[test]
fn compares_the_sum_of_reciprocals_exactly(rt: HostRuntime) -> Result<(), AllocError> {
    let none: &[u32] = &[];
    for (ratios, lanes, fits) in [
        (none, 1, true),
        (&[2, 6, 6, 6], 1, true),
        (&[2, 2, 4294967294], 1, false),
        (&[2, 2, 4294967294], 2, true),
        (&[2, 2, 2], 1, false),
        (&[1], 1, true),
    ] {
        let mut counts = counts_of(&rt, rt.alloc(), ratios)?;
        assert_eq!(rt; counts.fits_lanes(lanes), fits);
        assert!(rt; counts.distinct() <= 2);
        assert_eq!(rt;
            fits_with_new_steps::<Brand>(&mut counts, lanes, Blank::new(1)),
            fits
        );
    }
    Ok(())
}

/// The least even ratio beside these items on one lane; 0 where no ratio fits.
fn least_even_beside(rt: &impl Abort, alloc: Global, ratios: &[u32]) -> Result<u32, AllocError> {
    let mut counts = counts_of(rt, alloc, ratios)?;
    assert!(rt; counts.items() < 1 << 20);
    counts.add(4294967294)?;
    if !counts.fits_lanes(1) {
        return Ok(0);
    }
    counts.remove(4294967294);
    Ok(counts.least_ratio(1))
}

#[test]
fn the_least_even_ratio_leaves_no_room(rt: HostRuntime) -> Result<(), AllocError> {
    let none: &[u32] = &[];
    for (ratios, least) in [
        (none, 2),
        (&[2], 2),
        (&[2, 4], 4),
        (&[2, 6, 6], 6),
        (&[4, 4, 4], 4),
        (&[2, 2], 0),
        (&[2, 3, 7], 42),
        (&[2, 4294967294], 4),
    ] {
        assert_eq!(rt; least_even_beside(&rt, rt.alloc(), ratios)?, least);
    }
    Ok(())
}

#[test]
fn the_sum_of_reciprocals_rounded_down_is_kept(rt: HostRuntime) -> Result<(), AllocError> {
    let mut counts = counts_of(&rt, rt.alloc(), &[2, 4])?;
    assert_eq!(rt; counts.floor_sum(), 13835058055282163712);
    counts.clear();
    assert_eq!(rt; counts.floor_sum(), 0);
    let mut counts = counts_of(&rt, rt.alloc(), &[2, 6, 6, 6])?;
    assert_eq!(rt; counts.floor_sum(), 18446744073709551614);
    assert_eq!(rt;
        (floor_of_reciprocal(6), ceiling_of_reciprocal(6)),
        (3074457345618258602, 3074457345618258603)
    );
    assert_eq!(rt;
        (floor_of_reciprocal(1), ceiling_of_reciprocal(2)),
        (1 << 64, 1 << 63)
    );
    Ok(())
}

/// Whether 2 and 4 fit one lane, which their reciprocals rounded down tell, with no step.
fn fits_without_a_step<L: Ledger>(counts: &mut Counts, steps: &mut Steps<L>) -> bool
    requires { items counts.old ≡ 2 ∷ 4 ∷ [] }
    ensures fits { result ≡ true }
    ensures steps { steps.new ≡ steps.old }
{
    counts.at_most(1, steps)
}

#[test]
fn an_item_taken_away_leaves_the_others(rt: HostRuntime) -> Result<(), AllocError> {
    let mut counts = counts_of(&rt, rt.alloc(), &[6, 2, 6])?;
    assert!(rt; counts.items() < 1 << 20);
    counts.add(2)?;
    counts.remove(2);
    assert_eq!(rt; (counts.items(), counts.distinct()), (3, 2));
    assert_eq!(rt; counts.floor_sum(), 15372286728091293012);
    Ok(())
}
