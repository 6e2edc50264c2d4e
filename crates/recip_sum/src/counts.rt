//! Counts of ratios, and whether the reciprocals of all items fit.

ghost use Rattle.std.specs.Prelude.{◌≡◌, ℕ, ◌+◌, ◌*◌, ◌^◌, ◌<◌, ◌≤◌, All, IsTrue, ◌↔◌, OnOk, OnErr, [], ◌∷◌, length, vec_len, map as map_list, ◌-◌, ◌==◌, if◌then◌else◌};
ghost use Rattle.std.specs.Ordering.{nat_cmp};
ghost use Rattle.std.specs.FinMap as map;
ghost use Rattle.std.specs.BTreeMap.{btree_map_len, insert_entry, IsOrdered, IsUnchanged, Updates};
ghost use Rattle.tdm_problem.specs.Limits.{most_nets};
ghost use Rattle.tdm_problem.specs.Fit.{FitsLanes};
ghost use Rattle.recip_sum.specs.Counts.{count_of, items, with_item, without_item};
ghost use Rattle.recip_sum.specs.Items.{SameReciprocals, counted, items_of, one_less};
ghost use Rattle.recip_sum.specs.Kept.{AreCounts};
ghost use Rattle.recip_sum.specs.LeastEven.{IsLeastEven};
ghost use Rattle.recip_sum.specs.LongDivision.{start_term};
ghost use Rattle.recip_sum.specs.Rounded.{floor_sum};

use crate::least_even::{Totals, least_even_of};
use crate::long_division::{Term, sum_to_at_most};
use crate::rounding::floor_of_reciprocal;
use crate::steps::Steps;
use std::alloc::{AllocError, Global};
use std::collections::BTreeMap;
use std::marker::{Brand, Model};
use std::sync::ledger::{Blank, Ledger};

/// The lanes' unit: a reciprocal of 1.
pub(crate) const UNIT: u128 = 1 << 64;

/// How many items there are of each ratio: at most 2^20 in all, of ratios from 1 to 2^32 - 1. Contracts see
/// it as a finite map from ratios to positive numbers of items.
#[derive(Drop)]
pub struct Counts {
    counts: BTreeMap<u32, u32>,
    total: u32,
    floors: u128,
    terms: Vec<Term>,
}

impl Model for Counts {
    ghost use Rattle.std.specs.Prelude.{ℕ, vec_len};
    ghost use Rattle.std.specs.Ordering.{nat_cmp};
    ghost use Rattle.std.specs.FinMap as map;
    ghost use Rattle.std.specs.Coded.{coded_ℕ};
    ghost use Rattle.recip_sum.specs.Kept.{AreCounts};

    ghost Value = { map.FinMap nat_cmp ℕ };

    ghost coded = { map.code coded_ℕ coded_ℕ };

    ghost view = { λ c. map.from_sorted c.counts.entries };

    ghost invariant = { λ c. AreCounts c.counts.entries c.total c.floors (vec_len c.terms) };
}

impl Counts {
    /// No items. Takes no memory yet.
    pub fn new(alloc: Global) -> Counts
        ensures empty { result ≡ map.empty }
        ensures no_items { items result ≡ [] }
    {
        Counts {
            counts: BTreeMap::new(alloc),
            total: 0,
            floors: 0,
            terms: Vec::new(alloc),
        }
    }

    /// How many items there are.
    pub fn items(&self) -> u32
        ensures { result ≡ length (items self.now) }
    {
        self.total
    }

    /// The sum over all items of `2^64 / ratio`, rounded down. It is kept, not worked out.
    pub fn floor_sum(&self) -> u128
        ensures { result ≡ floor_sum (items self.now) }
    {
        self.floors
    }

    /// How many different ratios there are. No ratio is kept that has no item.
    pub fn distinct(&self) -> u32
        ensures number { result ≡ map.len self.now }
        ensures positive { All (λ e. (0 < e.0) × (0 < e.1)) (map.entries self.now) }
    {
        self.counts.len() as u32
    }

    /// Adds one item of the ratio, in the time of a look-up or two and a division. Makes the room that
    /// `at_most` and `least_even` use.
    ///
    /// The only error is want of memory, and it leaves the items as they were.
    pub fn add(&mut self, ratio: u32) -> Result<(), AllocError>
        requires positive { 0 < ratio }
        requires few { length (items self.old) < most_nets }
        ensures ok { OnOk result (self.new ≡ with_item self.old ratio) }
        ensures same { OnOk result (SameReciprocals (items self.new) (ratio ∷ items self.old)) }
        ensures err { OnErr result (self.new ≡ self.old) }
    {
        make_room(&mut self.terms, self.counts.len())?;
        count_one_more(&mut self.counts, ratio)?;
        self.total += 1;
        self.floors += floor_of_reciprocal(ratio);
        Ok(())
    }

    /// Takes one item of the ratio away, with one division. Takes no memory.
    pub fn remove(&mut self, ratio: u32)
        requires there { 0 < count_of self.old ratio }
        ensures less { self.new ≡ without_item self.old ratio }
        ensures same { SameReciprocals (ratio ∷ items self.new) (items self.old) }
        ensures room { length (items self.new) < most_nets }
    {
        count_one_less(&mut self.counts, ratio);
        self.total -= 1;
        self.floors -= floor_of_reciprocal(ratio);
    }

    /// Takes all items away, and keeps the room that `at_most` uses.
    pub fn clear(&mut self)
        ensures empty { self.new ≡ map.empty }
        ensures no_items { items self.new ≡ [] }
    {
        self.counts.clear();
        self.total = 0;
        self.floors = 0;
    }

    /// Whether the reciprocals of all items sum to at most `lanes`, exactly. Leaves the items as they were,
    /// and takes no memory.
    ///
    /// A step is one division. There is none where the sum of the reciprocals rounded down tells: it fits
    /// with a unit more for each item, or it does not fit as it is. Else, with `d` different ratios, there
    /// are at most `d(d + 1)` steps, and mostly `d`, since the first digits decide. The method is long
    /// division in base 2^32, a digit of each ratio's reciprocal at a time.
    pub fn at_most<L: Ledger>(&mut self, lanes: u64, steps: &mut Steps<L>) -> bool
        ensures same { self.new ≡ self.old }
        ensures exact { IsTrue result ↔ FitsLanes (items self.old) lanes }
        ensures steps_rise { steps.old ≤ steps.new }
        ensures few_steps { steps.new ≤ steps.old + map.len self.old * (map.len self.old + 1) }
        ensures sure_yes { floor_sum (items self.old) + length (items self.old) ≤ lanes * 2 ^ 64
            → steps.new ≡ steps.old }
        ensures sure_no { lanes * 2 ^ 64 < floor_sum (items self.old) → steps.new ≡ steps.old }
    {
        let most = lanes as u128 * UNIT;
        if self.floors + self.total as u128 <= most {
            return true;
        }
        if self.floors > most {
            return false;
        }
        reciprocals_fit(&self.counts, &mut self.terms, self.total, lanes, steps)
    }

    /// The least even ratio, at least 2, with which one more item fits the lanes, exactly. Leaves the items
    /// as they were, and takes no memory.
    ///
    /// The halves of the ratios are bisected, and a step is one division. A ratio that is tried takes one
    /// step, and more only where the reciprocals rounded down do not tell.
    pub fn least_even<L: Ledger>(&mut self, lanes: u64, steps: &mut Steps<L>) -> u32
        requires few { length (items self.old) < most_nets }
        requires room { FitsLanes (4294967294 ∷ items self.old) lanes }
        ensures same { self.new ≡ self.old }
        ensures least { IsLeastEven (items self.old) lanes result }
        ensures steps_rise { steps.old ≤ steps.new }
    {
        if self.total == 0 {
            return 2;
        }
        let totals = Totals {
            items: self.total,
            floors: self.floors,
        };
        least_even_of(&self.counts, totals, &mut self.terms, lanes, steps)
    }

    /// `least_even` for a caller that counts no steps.
    pub fn least_ratio(&mut self, lanes: u64) -> u32
        requires few { length (items self.old) < most_nets }
        requires room { FitsLanes (4294967294 ∷ items self.old) lanes }
        ensures same { self.new ≡ self.old }
        ensures least { IsLeastEven (items self.old) lanes result }
    {
        least_even_from::<Brand>(self, lanes, Blank::new(1))
    }

    /// `at_most` for a caller that counts no steps.
    pub fn fits_lanes(&mut self, lanes: u64) -> bool
        ensures same { self.new ≡ self.old }
        ensures exact { IsTrue result ↔ FitsLanes (items self.old) lanes }
    {
        at_most_from::<Brand>(self, lanes, Blank::new(1))
    }
}

/// `at_most` with a counter of its own, over the new ledger.
fn at_most_from<L: Ledger>(counts: &mut Counts, lanes: u64, blank: Blank) -> bool
    requires name { blank.name ≡ L.name }
    requires parts { blank.parts ≡ L.parts }
    requires some { 0 < blank.parts }
    ensures same { counts.new ≡ counts.old }
    ensures exact { IsTrue result ↔ FitsLanes (items counts.old) lanes }
{
    let mut steps = Steps::<L>::new(blank);
    counts.at_most(lanes, &mut steps)
}

/// `least_even` with a counter of its own, over the new ledger.
fn least_even_from<L: Ledger>(counts: &mut Counts, lanes: u64, blank: Blank) -> u32
    requires name { blank.name ≡ L.name }
    requires parts { blank.parts ≡ L.parts }
    requires some { 0 < blank.parts }
    requires few { length (items counts.old) < 2 ^ 20 }
    requires room { FitsLanes (4294967294 ∷ items counts.old) lanes }
    ensures same { counts.new ≡ counts.old }
    ensures least { IsLeastEven (items counts.old) lanes result }
{
    let mut steps = Steps::<L>::new(blank);
    counts.least_even(lanes, &mut steps)
}

/// Makes room for the terms of two ratios more than these, where there is none.
fn make_room(terms: &mut Vec<Term>, ratios: usize) -> Result<(), AllocError>
    requires { ratios ≤ 2 ^ 20 }
    ensures room { OnOk result (ratios + 2 ≤ vec_len terms.new) }
    ensures kept { vec_len terms.old ≤ vec_len terms.new }
{
    while terms.len() < ratios + 2 {
        terms.push(Term {
            ratio: 1,
            count: 0,
            remainder: 1,
        })?;
    }
    Ok(())
}

/// Counts one item of the ratio more.
fn count_one_more(counts: &mut BTreeMap<u32, u32>, ratio: u32) -> Result<(), AllocError>
    requires { counted ratio counts.old.entries < 2 ^ 20 }
    ensures entries { OnOk result (counts.new.entries
        ≡ insert_entry nat_cmp counts.old.entries ratio (counted ratio counts.old.entries + 1)) }
    ensures updates { OnOk result (Updates nat_cmp counts.old counts.new ratio
        (Some (counted ratio counts.old.entries + 1))) }
    ensures len { OnOk result (btree_map_len counts.new ≤ btree_map_len counts.old + 1) }
    ensures err { OnErr result (IsUnchanged counts.old counts.new) }
    ensures ordered { IsOrdered nat_cmp counts.new }
{
    let count = counts.get(&ratio).copied().unwrap_or(0);
    counts.insert(ratio, count + 1)?;
    Ok(())
}

/// Counts one item of the ratio less. A ratio with no item left goes.
fn count_one_less(counts: &mut BTreeMap<u32, u32>, ratio: u32)
    requires { 0 < counted ratio counts.old.entries }
    ensures entries { counts.new.entries ≡ one_less ratio counts.old.entries }
    ensures updates { Updates nat_cmp counts.old counts.new ratio
        (if counted ratio counts.old.entries == 1 then None else Some
        (counted ratio counts.old.entries - 1)) }
    ensures len { btree_map_len counts.new ≤ btree_map_len counts.old }
    ensures ordered { IsOrdered nat_cmp counts.new }
{
    let count = counts.get(&ratio).copied().unwrap_or(0);
    if count == 1 {
        counts.remove(&ratio);
        return;
    }
    if let Some(count) = counts.get_mut(&ratio) {
        *count -= 1;
    }
}

/// Whether the reciprocals of all counted items sum to at most `lanes`, worked out in the first of the terms.
fn reciprocals_fit<L: Ledger>(
    counts: &BTreeMap<u32, u32>,
    terms: &mut [Term],
    total: u32,
    lanes: u64,
    steps: &mut Steps<L>,
) -> bool
    requires { (floors : ℕ) × AreCounts counts.now.entries total floors (length terms.old) }
    ensures exact { IsTrue result ↔ FitsLanes (items_of counts.now.entries) lanes }
    ensures steps_rise { steps.old ≤ steps.new }
    ensures few_steps { steps.new ≤ steps.old + btree_map_len counts.now * (btree_map_len counts.now + 1) }
{
    let terms = &mut terms[..counts.len()];
    start_terms(counts, terms);
    sum_to_at_most(terms, total, lanes, steps)
}

/// Writes the term of each ratio with the whole reciprocal left.
pub(crate) fn start_terms(counts: &BTreeMap<u32, u32>, terms: &mut [Term])
    requires { length terms.old ≡ btree_map_len counts.now }
    ensures { terms.new ≡ map_list start_term counts.now.entries }
{
    let mut place = 0;
    for (&ratio, &count) in counts {
        terms[place] = Term {
            ratio,
            count,
            remainder: 1,
        };
        place += 1;
    }
}
