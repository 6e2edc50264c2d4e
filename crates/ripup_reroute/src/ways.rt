//! Lower bounds of walks, as searches for one net read them.
ghost use Rattle.std.specs.Prelude.{◌≡◌, ◌*◌, ◌/◌, ◌^◌, ◌<◌, ◌≤◌, ℕ, Bool, List, length, slice_index, All, IfSome};
ghost use Rattle.tdm_problem.specs.Board.{Board};
ghost use Rattle.steiner_build.specs.Joining.{AreOthers};
ghost use Rattle.ripup_reroute.specs.Bounds.{IsTable, IsScaled};
ghost use Rattle.ripup_reroute.specs.Ways.{AreWays, least_entry};

use crate::table::{MOST_ENTRY, Table, at_scale};
use shortest_forest::LowerBounds;
use steiner_build::TreeBounds;

/// Trees of more terminals are grown without lower bounds, which would cost more than they spare.
pub(crate) const MOST_BOUNDED: usize = 6;

/// Lower bounds of walks to the nearest of the terminals that a tree has not joined yet, at a scale that the
/// lengths keep.
#[derive(Drop)]
pub(crate) struct WayBounds<'a> {
    table: &'a Table,
    scale: u64,
    /// The terminals that are left come first, in any order; what stands behind them is of no use.
    waiting: [u32; MOST_BOUNDED],
    left: usize,
    ghost full: { length table.now.distances.items ≡ table.now.fpgas * table.now.fpgas },
    ghost small: { All (λ d. d ≤ 2 ^ 51) table.now.distances.items },
    ghost part: { scale ≤ 4096 },
    ghost room: { length waiting ≡ 6 },
    ghost few: { left ≤ 6 },
    ghost there: { All (λ t. t < table.now.fpgas) waiting },
}

impl<'a> WayBounds<'a> {
    /// Bounds for a tree that begins at one of these terminals.
    pub(crate) fn new(table: &'a Table, scale: u64, terminals: &[u32], start: u32) -> WayBounds<'a>
        requires full { length table.now.distances.items ≡ table.now.fpgas * table.now.fpgas }
        requires small { All (λ d. d ≤ 2 ^ 51) table.now.distances.items }
        requires part { scale ≤ 4096 }
        requires few { length terminals.now ≤ 6 }
        requires start { start < table.now.fpgas }
        requires there { All (λ t. t < table.now.fpgas) terminals.now }
        ensures covered { result.table.now.fpgas ≡ table.now.fpgas }
        ensures ways { (board : Board) (wire_length : ℕ → ℕ) (goals : List Bool) → IsTable board table.now
            → IsScaled table.now scale wire_length → AreOthers terminals.now start goals
            → AreWays board wire_length goals result.table.now result.scale result.waiting result.left }
    {
        let mut waiting = [start; MOST_BOUNDED];
        let mut left = 0;
        for t in terminals {
            if *t != start {
                waiting[left] = *t;
                left += 1;
            }
        }
        WayBounds {
            table,
            scale,
            waiting,
            left,
        }
    }

    /// Where a terminal stands among those that are left.
    fn place_of(&self, terminal: u32) -> Option<usize>
        ensures below { IfSome result (λ i. i < self.now.left) }
        ensures there { IfSome result (λ i. slice_index self.now.waiting i ≡ terminal) }
    {
        for i in 0..self.left {
            if self.waiting[i] == terminal {
                return Some(i);
            }
        }
        None
    }
}

impl LowerBounds for WayBounds<'_> {
    ghost bounds_covered = { λ w. w.table.now.fpgas };

    ghost lower_bound = { λ w f. least_entry w.table.now w.waiting f w.left * w.scale / 4096 };

    fn bound_of(&self, fpga: u32) -> u64 {
        let mut least = MOST_ENTRY;
        for i in 0..self.left {
            let entry = self.table.entry_of(self.waiting[i], fpga);
            least = if entry < least { entry } else { least };
        }
        at_scale(least, self.scale)
    }
}

impl TreeBounds for WayBounds<'_> {
    ghost use Rattle.ripup_reroute.specs.Ways.{ways-below};

    ghost are_true = { λ w board wire_length goals.
        AreWays board wire_length goals w.table.now w.scale w.waiting w.left };

    ghost below = { λ w board wire_length goals ways.
        ways-below board wire_length goals w.table.now w.scale w.waiting w.left ways };

    fn join(&mut self, terminal: u32) {
        if let Some(i) = self.place_of(terminal) {
            self.left -= 1;
            self.waiting[i] = self.waiting[self.left];
        }
    }
}
