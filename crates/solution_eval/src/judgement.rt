//! Whether a solution is legal, and what it is worth.
ghost use Rattle.std.specs.Prelude.{◌≡◌, ◌↔◌, IfOk};
ghost use Rattle.tdm_problem.specs.Routing.{IsFor};
ghost use Rattle.tdm_problem.specs.Legal.{IsLegal};
ghost use Rattle.solution_eval.specs.declared.judgement.Verdict.{Verdict};
ghost use Rattle.solution_eval.specs.Verdict.{IsVerdict, SaysLegal};

use crate::bad_use::first_bad_use;
use crate::joined::first_not_joined;
use crate::overfull::first_overfull;
use crate::worth::value;
use std::alloc::{AllocError, Global};
use tdm_problem::{Problem, Solution};

/// What a solution is judged to be. Nets and wires are named by their numbers from 0.
#[derive(Clone, Copy, Debug, PartialEq, Eq)]
pub enum Verdict {
    /// It is legal, and its largest group sum is the value.
    Legal { value: u128 },
    /// This net is the first whose wires do not join its FPGAs.
    NotJoined { net: u32 },
    /// All nets are joined, and this is the first use with a ratio that is 0 or odd.
    BadRatio { net: u32, wire: u32, ratio: u32 },
    /// All nets are joined by positive even ratios, and this wire is the first on which the reciprocals of
    /// the ratios sum to more than its lanes.
    Overfull { wire: u32 },
}

/// Judges a solution for the problem: legal with its value, or the first violation. Nets that are not joined
/// come first, nets rising; then ratios that are 0 or odd, nets rising and wires rising within a net; then
/// overfull wires, rising. Reciprocals are summed exactly. The only error is want of memory.
pub fn judge(alloc: Global, problem: &Problem, solution: &Solution) -> Result<Verdict, AllocError>
    requires { IsFor problem.now solution.now }
    ensures verdict { IfOk result (λ verdict. IsVerdict problem.now solution.now verdict) }
    ensures legal { IfOk result (λ verdict. SaysLegal verdict ↔ IsLegal problem.now solution.now) }
    ensures only { IfOk result (λ verdict. (other : Verdict)
        → IsVerdict problem.now solution.now other → other ≡ verdict) }
{
    if let Some(net) = first_not_joined(alloc, problem, solution)? {
        return Ok(Verdict::NotJoined { net });
    }
    if let Some(bad) = first_bad_use(solution) {
        return Ok(Verdict::BadRatio {
            net: bad.net,
            wire: bad.wire_use.wire,
            ratio: bad.wire_use.ratio,
        });
    }
    if let Some(wire) = first_overfull(alloc, problem, solution)? {
        return Ok(Verdict::Overfull { wire });
    }
    Ok(Verdict::Legal {
        value: value(alloc, problem, solution)?,
    })
}
