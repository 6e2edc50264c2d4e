//! Even ratios from shares.
ghost use Rattle.std.specs.Prelude.{◌≡◌, ◌≤◌, ◌<◌, ◌+◌, ◌*◌, ◌^◌};
ghost use Rattle.ratio_shares.specs.Shares.{share_for};
ghost use Rattle.even_legalise.specs.Shared.{even_ratio};

use ratio_shares::share;
use tdm_problem::LANES;

/// The least even ratio, at least 2, that times the share is at least a lane, which has 2^64 units (see
/// [`even_ratio_is_least`](crate::even_ratio_is_least)). The share is at least 2^34, so the ratio is at most
/// 2^30.
pub fn even_of(share: u128) -> u32
    requires { 2 ^ 34 ≤ share }
    ensures value { result ≡ even_ratio share }
    ensures small { result ≤ 2 ^ 30 }
{
    if share >= 1 << 63 {
        return 2;
    }
    (2 * (1u64 << 63).div_ceil(share as u64)) as u32
}

/// The even ratio for the share of a claim, where all claims of the wire together are so much.
///
/// The least even number above all claims over this one is it, unless it is large beside 2^64 over all
/// claims, or two less would do: so there is mostly no division of 128 bits.
pub(crate) fn ratio_for(claim: u64, claims: u64) -> u32
    requires some { 1 ≤ claim }
    requires small { claim ≤ 2 ^ 30 }
    requires few { claims ≤ 2 ^ 30 * claim }
    requires some_claims { 1 ≤ claims }
    ensures value { result ≡ even_ratio (share_for claims 1 claim) }
    ensures small { result ≤ 2 ^ 30 }
{
    let part = LANES * claim;
    let half = half_of_quotient(claims, part);
    if 2 * half * part == claims || u128::from(half + 1) * u128::from(claims) > 1 << 63 {
        return even_of(share(claim, claims, LANES));
    }
    (2 * (half + 1)) as u32
}

/// Half of how often the part goes into all claims, rounded down twice.
fn half_of_quotient(claims: u64, part: u64) -> u64
    requires some { 1 ≤ part }
    requires few { claims ≤ 2 ^ 30 * part }
    ensures within { 2 * result * part ≤ claims }
    ensures above { claims < 2 * (result + 1) * part }
    ensures small { result ≤ 2 ^ 29 }
{
    claims / part / 2
}
