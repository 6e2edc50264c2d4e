//! Values of nets, which stop at 2^32 - 1.
ghost use Rattle.std.specs.Prelude.{◌≡◌, ◌<◌, length, All};
ghost use Rattle.worst_refine.specs.declared.net_uses.NetUse.{NetUse};

use crate::net_uses::NetUse;
use crate::numbers::within_32_bits;

/// While ratios are not yet whole numbers they count in so many parts.
pub(crate) const PARTS: u64 = 16;

/// For each net the sum of the loads of its wires, each at least twice its price.
pub(crate) fn sum_loads(sums: &mut [u64], uses: &[NetUse], prices: &[u32], loads: &[u64])
    requires nets { All (λ (u : NetUse). u.net < length prices.now) uses.now }
    requires wires { All (λ (u : NetUse). u.wire < length loads.now) uses.now }
    requires paired { length sums.old ≡ length prices.now }
{
    for sum in sums.iter_mut() {
        *sum = 0;
    }
    for net_use in uses {
        let net = net_use.net as usize;
        let least = 2 * u64::from(prices[net]).max(1);
        sums[net] = sums[net].wrapping_add(loads[net_use.wire as usize].max(least));
    }
}

/// The value of each net at these prices, in parts: the sum of its loads over its price.
pub(crate) fn value_nets(values: &mut [u32], sums: &[u64], prices: &[u32])
    requires summed { length sums.now ≡ length values.old }
    requires paired { length prices.now ≡ length values.old }
{
    for n in 0..values.len() {
        let price = u64::from(prices[n]).max(1);
        values[n] = within_32_bits(sums[n].min(u64::MAX / PARTS) * PARTS / price);
    }
}
