//! One ratio for all nets of a wire.
ghost use Rattle.std.specs.Prelude.{◌≡◌, ◌≤◌};
ghost use Rattle.tdm_problem.specs.Limits.{most_nets};
ghost use Rattle.even_legalise.specs.Uniform.{uniform_ratio};

/// The least even ratio with which `k` nets fit the lanes of a wire if they all have it (see
/// [`uniform_is_least`](crate::uniform_is_least)): twice half the nets of a lane, each division rounded up.
/// There are 1 to 2^20 nets and 1 to 1,024 lanes.
pub fn uniform(k: u32, lanes: u64) -> u32
    requires some { 1 ≤ k }
    requires few { k ≤ most_nets }
    requires lanes_there { 1 ≤ lanes }
    requires lanes_few { lanes ≤ 1024 }
    ensures { result ≡ uniform_ratio k lanes }
{
    let nets_of_lane = u64::from(k).div_ceil(lanes);
    (2 * nets_of_lane.div_ceil(2)) as u32
}
