//! Even ratios from prices, in two sweeps over the nets.
ghost use Rattle.std.specs.Prelude.{◌≡◌, ◌<◌, length, All};
ghost use Rattle.worst_refine.specs.declared.net_uses.NetUse.{NetUse};

use crate::net_uses::NetUse;
use crate::wire_rounding::{CLASSES, ClassCosts, Costs, WireRounding};

/// The most 64ths of the half of a ratio.
const MOST_PARTS: u128 = (1 << 27) - 1;

/// Reckons each use at the even ratio above the load over the price, of whose inverses in 2^-62ths there is one
/// for each net. Its part becomes the half of that quotient in 64ths.
pub(crate) fn round_up(
    parts: &mut [u32],
    wires: &mut [WireRounding],
    classes: &mut [ClassCosts],
    costs: &Costs,
    uses: &[NetUse],
    inverses: &[u64],
    loads: &[u64],
)
    requires nets { All (λ (u : NetUse). u.net < length inverses.now) uses.now }
    requires wires { All (λ (u : NetUse). u.wire < length loads.now) uses.now }
    requires wires_paired { length wires.old ≡ length loads.now }
    requires classes_paired { length classes.old ≡ length loads.now }
{
    for wire in wires.iter_mut() {
        *wire = WireRounding::new();
    }
    for of_wire in classes.iter_mut() {
        *of_wire = ClassCosts::new();
    }
    for place in 0..uses.len() {
        let wire = uses[place].wire as usize;
        let inverse = inverses[uses[place].net as usize];
        let count = parts_of(loads[wire], inverse);
        wires[wire].reckon(&mut classes[wire], costs, count);
        if place < parts.len() {
            parts[place] = count;
        }
    }
}

/// Half the load over the price with this inverse, in 64ths.
fn parts_of(load: u64, inverse: u64) -> u32 {
    let quotient = u128::from(load).wrapping_mul(u128::from(inverse)) >> 57;
    quotient.min(MOST_PARTS) as u32
}

/// Lowers the classes of all wires. Answers false where some wire is too full for that.
pub(crate) fn lower_all_classes(wires: &mut [WireRounding], classes: &[ClassCosts]) -> bool
    requires { length classes.now ≡ length wires.old }
{
    let mut all_fit = true;
    for e in 0..wires.len() {
        if !wires[e].lower_classes(&classes[e]) {
            all_fit = false;
        }
    }
    all_fit
}

/// Puts the half of its even ratio in the place of each use's part, and gives each net the sum of its ratios.
pub(crate) fn round_down_some(
    parts: &mut [u32],
    values: &mut [u32],
    wires: &mut [WireRounding],
    costs: &Costs,
    uses: &[NetUse],
)
    requires nets { All (λ (u : NetUse). u.net < length values.old) uses.now }
    requires wires { All (λ (u : NetUse). u.wire < length wires.old) uses.now }
{
    for value in values.iter_mut() {
        *value = 0;
    }
    for place in 0..uses.len() {
        if place < parts.len() {
            let net = uses[place].net as usize;
            let half = wires[uses[place].wire as usize].rounded_half(costs, parts[place]);
            parts[place] = half;
            values[net] = values[net].saturating_add(half.saturating_mul(2));
        }
    }
}
