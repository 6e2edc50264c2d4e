//! Long division in base 2^32 of several fractions at once.
//!
//! A term stands for `count * remainder / ratio`. A turn moves each remainder one digit on, and what the
//! terms then stand for, with the digits that were taken, is 2^32 times what they stood for before. So a sum
//! of reciprocals is compared with a whole number digit by digit, and no product of ratios is formed.

ghost use Rattle.std.specs.Prelude.{◌≡◌, ◌+◌, ◌*◌, ◌/◌, ◌%◌, ◌<◌, ◌≤◌, All, length, map, sum_by, IsTrue, ◌↔◌};
ghost use Rattle.recip_sum.specs.LongDivision.{after_digit, digits_sum, item_count, numerator, ratios_of, IsTerm};
ghost use Rattle.tdm_problem.specs.Fit.{product};

use crate::steps::Steps;
use std::sync::ledger::Ledger;

/// The items of one ratio, and what is left of each one's reciprocal.
#[derive(Clone, Copy)]
pub(crate) struct Term {
    pub(crate) ratio: u32,
    pub(crate) count: u32,
    pub(crate) remainder: u32,
}

/// What a division gives.
#[derive(Clone, Copy)]
pub(crate) struct Quotient {
    pub(crate) digit: u64,
    pub(crate) remainder: u32,
}

/// The most items that a list of terms may stand for.
pub(crate) const MAX_ITEMS: u32 = 1 << 20;

/// The base of the digits.
const BASE: u64 = 1 << 32;

/// Whether the terms sum to at most `lanes`.
pub(crate) fn sum_to_at_most<L: Ledger>(
    terms: &mut [Term],
    items: u32,
    lanes: u64,
    steps: &mut Steps<L>,
) -> bool
    requires terms { All IsTerm terms.old }
    requires items { items ≡ item_count terms.old }
    requires few_items { items ≤ MAX_ITEMS }
    ensures exact { IsTrue result ↔ (numerator terms.old ≤ lanes * product (ratios_of terms.old)) }
    ensures steps_rise { steps.old ≤ steps.new }
    ensures few_steps { steps.new ≤ steps.old + length terms.old * (length terms.old + 1) }
{
    let mut whole = lanes;
    let turns = terms.len() + 1;
    for _turn in 0..turns {
        if whole >= items as u64 {
            return true;
        }
        let digits = take_digits(terms, steps);
        let shifted = whole * BASE;
        if shifted < digits {
            return false;
        }
        whole = shifted - digits;
    }
    true
}

/// One turn: moves each remainder one digit on, and returns the sum of the digits, each as often as its count
/// says.
fn take_digits<L: Ledger>(terms: &mut [Term], steps: &mut Steps<L>) -> u64
    requires terms { All IsTerm terms.old }
    requires few_items { item_count terms.old ≤ MAX_ITEMS }
    ensures terms { terms.new ≡ map after_digit terms.old }
    ensures digits { result ≡ digits_sum terms.old }
    ensures steps { steps.new ≡ steps.old + length terms.old }
{
    let mut sum = 0;
    for term in terms.iter_mut() {
        let taken = divide(term.remainder as u64 * BASE, term.ratio, steps);
        term.remainder = taken.remainder;
        sum += term.count as u64 * taken.digit;
    }
    sum
}

/// The one division of the tests, which is a step.
pub(crate) fn divide<L: Ledger>(dividend: u64, divisor: u32, steps: &mut Steps<L>) -> Quotient
    requires { 0 < divisor }
    ensures digit { result.digit ≡ dividend / divisor }
    ensures remainder { result.remainder ≡ dividend % divisor }
    ensures step { steps.new ≡ steps.old + 1 }
{
    steps.tick();
    quotient_of(dividend, divisor)
}

/// Quotient and remainder, which nothing counts.
pub(crate) fn quotient_of(dividend: u64, divisor: u32) -> Quotient
    requires { 0 < divisor }
    ensures digit { result.digit ≡ dividend / divisor }
    ensures remainder { result.remainder ≡ dividend % divisor }
{
    let divisor = divisor as u64;
    Quotient {
        digit: dividend / divisor,
        remainder: (dividend % divisor) as u32,
    }
}
