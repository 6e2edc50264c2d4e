//! Which use first has a ratio that is not positive and even.
ghost use Rattle.std.specs.Prelude.{length, All, IsTrue, ◌↔◌, MatchOption};
ghost use Rattle.std.specs.List.Sorted.{IsStrictlyIncreasing};
ghost use Rattle.tdm_problem.specs.Routing.{wires_of, ratios_of};
ghost use Rattle.tdm_problem.specs.Legal.{IsEvenRatio};
ghost use Rattle.solution_eval.specs.Violations.{HasEvenRatios, AllBelow, IsLowestBadUse, IsFirstBadUse};

use tdm_problem::{Solution, WireUse};

/// A use whose ratio is 0 or odd, and the number of its net.
#[derive(Clone, Copy)]
pub(crate) struct BadUse {
    pub net: u32,
    pub wire_use: WireUse,
}

/// The first use with a ratio that is 0 or odd: nets rising, and wires rising within a net.
pub(crate) fn first_bad_use(solution: &Solution) -> Option<BadUse>
    ensures { MatchOption result (AllBelow (HasEvenRatios solution.now) (length solution.now))
        (λ bad. IsFirstBadUse solution.now bad.net bad.wire_use) }
{
    for n in 0..solution.nets() {
        if let Some(wire_use) = lowest_bad_use(solution.uses(n)) {
            return Some(BadUse { net: n, wire_use });
        }
    }
    None
}

/// The use of the lowest wire that has a ratio which is 0 or odd.
fn lowest_bad_use(uses: &[WireUse]) -> Option<WireUse>
    requires { IsStrictlyIncreasing (wires_of uses.now) }
    ensures { MatchOption result (All IsEvenRatio (ratios_of uses.now)) (IsLowestBadUse uses.now) }
{
    for wire_use in uses {
        if !is_even_ratio(wire_use.ratio) {
            return Some(*wire_use);
        }
    }
    None
}

/// Whether a net may have the ratio: it is positive and even.
fn is_even_ratio(ratio: u32) -> bool
    ensures { IsTrue result ↔ IsEvenRatio ratio }
{
    ratio != 0 && ratio % 2 == 0
}
