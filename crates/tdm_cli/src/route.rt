//! The command `route`, once its input is had.
ghost use Rattle.std.specs.Prelude.{◌≡◌, [], ◌∷◌, ℕ, IfOk};
ghost use Rattle.tdm_problem.specs.Board.{Board};
ghost use Rattle.command_run.specs.Outcome.{outcome_of};
ghost use Rattle.tdm_cli.specs.Texts.{text_of};
ghost use Rattle.tdm_cli.specs.Obstacle.{ObstacleShows};
ghost use Rattle.tdm_cli.specs.Outcomes.{Routes};
ghost use Rattle.tdm_cli.specs.declared.writing.Output.TheVariants as output;

use crate::baseline::Obstacle;
use crate::outcome::said;
use crate::prepare::prepare;
use crate::report;
use crate::status::Status;
use crate::writing::Output;
use bound_cert::Certificate;
use command_run::Prepared;
use std::alloc::{AllocError, Global};
use tdm_problem::{Problem, Solution};

/// The texts of a solution and of a certificate, in this order.
fn texts(alloc: Global, solution: Solution, cert: Certificate) -> Result<Vec<Output>, AllocError>
    ensures { IfOk result (λ texts. texts.items ≡ output.Solution solution ∷ output.Cert cert ∷ []) }
{
    let mut texts = Vec::new(alloc);
    texts.push(Output::Solution(solution))?;
    texts.push(Output::Cert(cert))?;
    Ok(texts)
}

/// What is said of nets that have no solution that may be written.
fn obstructed(alloc: Global, obstacle: &Obstacle) -> Result<Prepared<Status, Output>, AllocError>
    ensures { IfOk result (λ prepared. (board : Board) (rounds : ℕ) → ObstacleShows board obstacle.now
        → Routes board rounds (outcome_of text_of 1 prepared)) }
{
    match obstacle {
        Obstacle::Unconnectable(nets) => {
            let report = report::unconnectable(alloc, nets.as_slice())?;
            Ok(said(alloc, Status::Unconnectable, report))
        }
        Obstacle::UseLimit => {
            let report = Vec::from_slice(alloc, report::USE_LIMIT)?;
            Ok(said(alloc, Status::UseLimit, report))
        }
        Obstacle::NoMemory => Err(AllocError),
    }
}

/// Routes the nets of a problem by so many rounds: a solution and a certificate with their value and bound,
/// or why there are none. The only error is want of memory.
pub fn route(
    alloc: Global,
    problem: &Problem,
    rounds: u32,
) -> Result<Prepared<Status, Output>, AllocError>
    ensures { IfOk result (λ prepared. Routes problem.now rounds (outcome_of text_of 1 prepared)) }
{
    match prepare(alloc, problem, rounds) {
        Ok(plan) => {
            let texts = texts(alloc, plan.solution, plan.cert)?;
            Ok(Prepared {
                status: Status::Ok,
                report: plan.report,
                texts,
            })
        }
        Err(obstacle) => obstructed(alloc, &obstacle),
    }
}
