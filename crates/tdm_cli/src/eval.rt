//! The command `eval`, once its inputs are had.
ghost use Rattle.std.specs.Prelude.{◌≡◌, IfOk};
ghost use Rattle.tdm_problem.specs.Routing.{IsFor};
ghost use Rattle.command_run.specs.Outcome.{outcome_of};
ghost use Rattle.tdm_cli.specs.Texts.{text_of};
ghost use Rattle.tdm_cli.specs.Outcomes.{status_of_verdict, Judges};

use crate::outcome::said;
use crate::status::Status;
use crate::verdict_report;
use crate::writing::Output;
use command_run::Prepared;
use solution_eval::{Verdict, judge};
use std::alloc::{AllocError, Global};
use tdm_problem::{Problem, Solution};

/// How a run ends whose solution is judged so.
fn status(verdict: &Verdict) -> Status
    ensures { result ≡ status_of_verdict verdict.now }
{
    match verdict {
        Verdict::Legal { .. } => Status::Ok,
        Verdict::NotJoined { .. } => Status::Illegal,
        Verdict::BadRatio { .. } => Status::Illegal,
        Verdict::Overfull { .. } => Status::Illegal,
    }
}

/// Whether a solution is legal for the problem: its value, or its first violation. The only error is want of
/// memory.
pub fn eval(
    alloc: Global,
    problem: &Problem,
    solution: &Solution,
) -> Result<Prepared<Status, Output>, AllocError>
    requires { IsFor problem.now solution.now }
    ensures { IfOk result (λ prepared. Judges problem.now solution.now (outcome_of text_of 2 prepared)) }
{
    let verdict = judge(alloc, problem, solution)?;
    let report = verdict_report::verdict(alloc, &verdict)?;
    Ok(said(alloc, status(&verdict), report))
}
