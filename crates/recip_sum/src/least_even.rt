//! The least even ratio for which there is room.

ghost use Rattle.std.specs.Prelude.{◌≡◌, ◌*◌, ◌^◌, ◌<◌, ◌≤◌, IsTrue, ◌↔◌, ◌∷◌, length};
ghost use Rattle.tdm_problem.specs.Fit.{FitsLanes};
ghost use Rattle.recip_sum.specs.Items.{items_of};
ghost use Rattle.recip_sum.specs.Kept.{AreCounts};
ghost use Rattle.recip_sum.specs.LeastEven.{IsLeastEven};

use crate::counts::{UNIT, start_terms};
use crate::long_division::{Term, divide, sum_to_at_most};
use crate::rounding::floor_from;
use crate::steps::Steps;
use std::collections::BTreeMap;
use std::sync::ledger::Ledger;

/// How many items there are, and the sum of their reciprocals rounded down.
#[derive(Clone, Copy)]
pub(crate) struct Totals {
    pub(crate) items: u32,
    pub(crate) floors: u128,
}

/// Half of the greatest even ratio.
const MOST_HALF: u32 = (1 << 31) - 1;

/// The least even ratio with which one more item fits, by bisection of its half.
pub(crate) fn least_even_of<L: Ledger>(
    counts: &BTreeMap<u32, u32>,
    totals: Totals,
    terms: &mut [Term],
    lanes: u64,
    steps: &mut Steps<L>,
) -> u32
    requires kept { AreCounts counts.now.entries totals.items totals.floors (length terms.old) }
    requires some { 0 < totals.items }
    requires few { totals.items < 2 ^ 20 }
    requires room { FitsLanes (4294967294 ∷ items_of counts.now.entries) lanes }
    ensures least { IsLeastEven (items_of counts.now.entries) lanes result }
    ensures steps_rise { steps.old ≤ steps.new }
{
    let (mut low, mut high) = (1, MOST_HALF);
    while low < high {
        let half = low + (high - low) / 2;
        if fits_with(counts, totals, 2 * half, terms, lanes, steps) {
            high = half;
        } else {
            low = half + 1;
        }
    }
    2 * high
}

/// Whether all items and one more of this ratio fit the lanes, worked out in the first of the terms where the
/// reciprocals rounded down do not tell.
fn fits_with<L: Ledger>(
    counts: &BTreeMap<u32, u32>,
    totals: Totals,
    ratio: u32,
    terms: &mut [Term],
    lanes: u64,
    steps: &mut Steps<L>,
) -> bool
    requires kept { AreCounts counts.now.entries totals.items totals.floors (length terms.old) }
    requires some { 0 < totals.items }
    requires few { totals.items < 2 ^ 20 }
    requires positive { 0 < ratio }
    ensures room { length terms.new ≡ length terms.old }
    ensures exact { IsTrue result ↔ FitsLanes (ratio ∷ items_of counts.now.entries) lanes }
    ensures steps_rise { steps.old ≤ steps.new }
{
    let most = lanes as u128 * UNIT;
    let floors = totals.floors + floor_from(divide(u64::MAX, ratio, steps), ratio);
    if floors + totals.items as u128 + 1 <= most {
        return true;
    }
    if floors > most {
        return false;
    }
    let terms = &mut terms[..counts.len() + 1];
    terms[0] = Term {
        ratio,
        count: 1,
        remainder: 1,
    };
    start_terms(counts, &mut terms[1..]);
    sum_to_at_most(terms, totals.items + 1, lanes, steps)
}
