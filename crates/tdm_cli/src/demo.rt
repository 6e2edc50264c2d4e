//! The command `demo`.
ghost use Rattle.std.specs.Prelude.{◌≡◌, ◌++◌, ℕ, map, IfOk};
ghost use Rattle.board_generator.specs.Generated.{AreSizes};
ghost use Rattle.command_run.specs.Outcome.{outcome_of};
ghost use Rattle.tdm_cli.specs.Texts.{text_of};
ghost use Rattle.tdm_cli.specs.Reports.{size_report};
ghost use Rattle.tdm_cli.specs.Outcomes.{comes_to, Demonstrates};

use crate::command::DEFAULT_ROUNDS;
use crate::report;
use crate::route::route;
use crate::status::Status;
use crate::writing::Output;
use board_generator::gen_problem;
use command_run::Prepared;
use std::alloc::{AllocError, Global};
use tdm_problem::Problem;

/// The same with how large the board is said first.
fn with_size(
    alloc: Global,
    problem: &Problem,
    routed: Prepared<Status, Output>,
) -> Result<Prepared<Status, Output>, AllocError>
    ensures { IfOk result (λ prepared. (opened : ℕ) → outcome_of text_of opened prepared
        ≡ comes_to opened routed.status (size_report problem.now ++ routed.report.items)
        (map text_of routed.texts.items)) }
{
    let mut report = report::size(alloc, problem)?;
    report.extend_from_slice(&routed.report)?;
    Ok(Prepared {
        status: routed.status,
        report,
        texts: routed.texts,
    })
}

/// Routes the board of these numbers, and says how large it is before its value and bound, unless its
/// baseline has too many uses. The only error is want of memory.
pub fn demo(
    alloc: Global,
    fpgas: u32,
    nets: u32,
    groups: u32,
) -> Result<Prepared<Status, Output>, AllocError>
    requires { AreSizes fpgas nets groups }
    ensures { IfOk result (λ prepared. Demonstrates fpgas nets groups (outcome_of text_of 0 prepared)) }
{
    let problem = gen_problem(alloc, fpgas, nets, groups)?;
    let routed = route(alloc, &problem, DEFAULT_ROUNDS)?;
    match routed.status {
        Status::Ok => with_size(alloc, &problem, routed),
        _ => Ok(routed),
    }
}
