//! Reading a whole solution text.
ghost use Rattle.std.specs.Prelude.{◌≡◌, ◌+◌, ◌≤◌, length, IfOk, IfErr, Ok};
ghost use Rattle.tdm_problem.specs.Routing.{IsFor};
ghost use Rattle.solution_text.specs.Reading.{solution_of, most_bytes};
ghost use Rattle.tdm_lines.specs.Refusals.{IsFaultOf};

use crate::reader::SolutionReader;
use crate::refusal::SolutionFault;
use std::alloc::Global;
use tdm_problem::{Problem, Solution};

/// The most bytes of a solution text, which are 2^30.
pub const MAX_SOLUTION_BYTES: usize = 1_073_741_824;

/// Reads the text of a solution for the problem: for each net, in order, a line with the number of its uses,
/// and then for each use a line with the wire and the ratio. The uses of a net may stand in any order.
///
/// The text has at most 2^30 + 1 bytes; a longer one may be cut there, since it is refused all the same.
///
/// Refused where the text is no solution for the problem: as TooLong before all, and else for the first line
/// at fault and the first of the [`SolutionKind`]s that holds there, but a line past the last one is an
/// ExtraLine whatever it holds. NoMemory where memory is wanting.
pub fn read_solution(
    alloc: Global,
    bytes: &[u8],
    problem: &Problem,
) -> Result<Solution, SolutionFault>
    requires { length bytes.now ≤ most_bytes + 1 }
    ensures ok { IfOk result (λ solution. solution_of problem.now bytes.now ≡ Ok solution) }
    ensures for_problem { IfOk result (IsFor problem.now) }
    // The fault is the refusal that the text has, or want of memory.
    ensures fault { IfErr result (λ fault. IsFaultOf fault (solution_of problem.now bytes.now)) }
{
    let mut reader = SolutionReader::new(alloc, problem);
    reader.feed(bytes)?;
    reader.end()
}
