//! Marginal lengths of wires for one net.
ghost use Rattle.std.specs.Prelude.{◌≡◌, ℕ, ◌+◌, ◌-◌, ◌*◌, ◌^◌, ◌<◌, ◌≤◌, length, slice_index, sum_by, All};

use shortest_forest::{Lengths, MOST_CAP};

/// The marginal lengths of wires for a net with a number of its own, which the loads do not count: twice the
/// load of the wire, and the number.
#[derive(Drop)]
pub(crate) struct Marginals<'a> {
    pub(crate) loads: &'a [u64],
    pub(crate) own: u64,
    ghost small: { All (λ x. 2 * x + own ≤ 2 ^ 51) loads.now },
}

impl Lengths for Marginals<'_> {
    ghost covered = { λ m. length m.loads.now };

    ghost length = { λ m e. 2 * slice_index m.loads.now e + m.own };

    ghost limit = { λ m e below. m.small e 0 below };

    fn len_of(&self, wire: u32) -> u64 {
        2 * self.loads[wire as usize] + self.own
    }
}

/// The length of some wires together, or the greatest cap of a search if that is less.
pub(crate) fn capped_length(marginals: &Marginals, wires: &[u32]) -> u64
    requires there { All (λ e. e < length marginals.now.loads.now) wires.now }
    ensures capped { result ≤ 2 ^ 64 - 2 ^ 51 }
    ensures within { result ≤ sum_by (λ e. 2 * slice_index marginals.now.loads.now e + marginals.now.own)
        wires.now }
    ensures exact { result < 2 ^ 64 - 2 ^ 51
        → result ≡ sum_by (λ e. 2 * slice_index marginals.now.loads.now e + marginals.now.own) wires.now }
{
    let mut total = 0;
    for e in wires {
        let length = marginals.len_of(*e);
        if MOST_CAP - length <= total {
            return MOST_CAP;
        }
        total += length;
    }
    total
}
