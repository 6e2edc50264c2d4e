//! Prices of nets. On a wire whose nets' prices sum to a load, the ratio of a net is about the load over its
//! price.
ghost use Rattle.std.specs.Prelude.{◌≡◌, ◌<◌, length, All};
ghost use Rattle.worst_refine.specs.declared.net_uses.NetUse.{NetUse};

use crate::net_uses::NetUse;
use crate::numbers::{larger, within_32_bits};

/// About the largest price there is.
const TOP_PRICE: u64 = 1 << 30;

/// The least price at the start of a net whose number is above 0.
const LEAST_START: u64 = 1 << 21;

/// The least price at any time.
const LEAST_PRICE: u64 = 256;

/// The prices at the start: in proportion to the numbers, the largest about 2^30, but none so small that its
/// ratios would tell of nothing but that.
pub(crate) fn start_prices(prices: &mut [u32], numbers: &[u64])
    requires { length prices.old ≡ length numbers.now }
{
    let factor = (TOP_PRICE << 20) / largest(numbers).max(1);
    for n in 0..prices.len() {
        prices[n] = start_price(numbers[n], factor);
    }
}

/// The largest of the numbers, 0 of none.
fn largest(numbers: &[u64]) -> u64 {
    let mut most = 0;
    for number in numbers {
        if *number > most {
            most = *number;
        }
    }
    most
}

/// The price for a number, with the factor of 2^20ths.
fn start_price(number: u64, factor: u64) -> u32 {
    let least = if number == 0 {
        LEAST_PRICE
    } else {
        LEAST_START
    };
    within_32_bits((number.wrapping_mul(factor) >> 20).max(least))
}

/// The load of each wire: the sum of the prices of the nets that use it.
pub(crate) fn take_loads(loads: &mut [u64], uses: &[NetUse], prices: &[u32])
    requires nets { All (λ (u : NetUse). u.net < length prices.now) uses.now }
    requires wires { All (λ (u : NetUse). u.wire < length loads.old) uses.now }
{
    for load in loads.iter_mut() {
        *load = 0;
    }
    for net_use in uses {
        let wire = net_use.wire as usize;
        loads[wire] = loads[wire].wrapping_add(u64::from(prices[net_use.net as usize]));
    }
}

/// The inverse of each price in 2^-62ths.
pub(crate) fn take_inverses(inverses: &mut [u64], prices: &[u32])
    requires { length prices.now ≡ length inverses.old }
{
    for n in 0..inverses.len() {
        inverses[n] = (1 << 62) / u64::from(prices[n]).max(1);
    }
}

/// Makes each net dearer or cheaper: its price is multiplied by its largest group sum over the worst one, and
/// by a 64th at least. Then all prices are scaled, so that the largest is about 2^30 again.
pub(crate) fn reprice(prices: &mut [u32], largest_sums: &[u32], worst: u64)
    requires { length largest_sums.now ≡ length prices.old }
{
    let inverse = (1 << 48) / worst.max(1);
    let mut most = 0;
    for n in 0..prices.len() {
        let own = u64::from(largest_sums[n]);
        let factor = (own.wrapping_mul(inverse) >> 32).clamp(1024, 65_536);
        let price = within_32_bits(u64::from(prices[n]).wrapping_mul(factor) >> 16);
        prices[n] = price;
        most = larger(most, price);
    }
    scale(prices, (TOP_PRICE << 20) / u64::from(most).max(1));
}

/// Multiplies all prices by a factor of 2^20ths.
fn scale(prices: &mut [u32], factor: u64) {
    for price in prices.iter_mut() {
        let scaled = u64::from(*price).wrapping_mul(factor) >> 20;
        *price = within_32_bits(scaled.max(LEAST_PRICE));
    }
}
