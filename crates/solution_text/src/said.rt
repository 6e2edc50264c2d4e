//! What the numbers of a line say.
ghost use Rattle.std.specs.Prelude.{◌≡◌, ◌≢◌, ◌<◌, ◌≤◌, ◌^◌, ◌-◌, List, length, nat_eq, slice_index, All, IfOk};
ghost use Rattle.std.specs.List.{IsDistinct};
ghost use Rattle.std.specs.List.Sorted.{IsStrictlyIncreasing};
ghost use Rattle.tdm_problem.specs.declared.solution.WireUse.{WireUse as Use};
ghost use Rattle.tdm_problem.specs.Routing.{wires_of};
ghost use Rattle.solution_text.specs.Reading.{count_said, use_said, by_wire};
ghost use Rattle.solution_text.specs.Steps.{Marks};

use crate::refusal::{SolutionKind, SolutionRefusal};
use tdm_problem::WireUse;

/// How many uses a net has, by the numbers of its count line.
pub(crate) fn count_said(line: u32, numbers: &[u64]) -> Result<u32, SolutionRefusal>
    requires { All (λ n. n ≤ 2 ^ 32 - 1) numbers.now }
    ensures { result ≡ count_said line numbers.now }
{
    match numbers {
        [count] => Ok(*count as u32),
        _ => Err(SolutionRefusal {
            kind: SolutionKind::WrongCount,
            line,
        }),
    }
}

/// The use on a line with these numbers, where the wires that bear the stamp were used on earlier lines.
pub(crate) fn use_said(
    line: u32,
    numbers: &[u64],
    stamps: &[u32],
    stamp: u32,
) -> Result<WireUse, SolutionRefusal>
    requires { All (λ n. n ≤ 2 ^ 32 - 1) numbers.now }
    ensures there { IfOk result (λ used. used.wire < length stamps.now) }
    ensures unused { IfOk result (λ used. slice_index stamps.now used.wire ≢ stamp) }
    ensures said { (earlier : List Use) → Marks stamps.now stamp earlier →
        result ≡ use_said (length stamps.now) earlier line numbers.now }
{
    let [wire, ratio] = numbers else {
        return Err(SolutionRefusal {
            kind: SolutionKind::WrongCount,
            line,
        });
    };
    if *wire >= stamps.len() as u64 {
        return Err(SolutionRefusal {
            kind: SolutionKind::UnknownWire,
            line,
        });
    }
    if stamps[*wire as usize] == stamp {
        return Err(SolutionRefusal {
            kind: SolutionKind::RepeatedWire,
            line,
        });
    }
    Ok(WireUse {
        wire: *wire as u32,
        ratio: *ratio as u32,
    })
}

/// Puts uses of different wires into the order of their wires.
pub(crate) fn sort_by_wire(uses: &mut [WireUse])
    requires { IsDistinct nat_eq (wires_of uses.old) }
    ensures sorted { uses.new ≡ by_wire uses.old }
    ensures rising { IsStrictlyIncreasing (wires_of uses.new) }
{
    uses.sort_unstable_by_key(|used| used.wire);
}
