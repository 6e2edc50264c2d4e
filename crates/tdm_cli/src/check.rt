//! The command `check`, once its inputs are had.
ghost use Rattle.std.specs.Prelude.{◌≡◌, IfOk};
ghost use Rattle.bound_cert.specs.Certificate.{IsCertFor};
ghost use Rattle.command_run.specs.Outcome.{outcome_of};
ghost use Rattle.tdm_cli.specs.Texts.{text_of};
ghost use Rattle.tdm_cli.specs.Outcomes.{status_of_answer, Checks};

use crate::answer_report;
use crate::outcome::said;
use crate::status::Status;
use crate::writing::Output;
use bound_cert::Certificate;
use cert_checker::CheckAnswer;
use command_run::Prepared;
use std::alloc::{AllocError, Global};
use tdm_problem::Problem;

/// How a run ends whose certificate is checked to be so.
fn status(answer: CheckAnswer) -> Status
    ensures { result ≡ status_of_answer answer }
{
    match answer {
        CheckAnswer::Accepted { .. } => Status::Ok,
        CheckAnswer::Rejected(_) => Status::CertRejected,
    }
}

/// Whether a certificate is valid for the problem: its bound, or its first steep pair. The only error is want
/// of memory.
pub fn check(
    alloc: Global,
    problem: &Problem,
    cert: &Certificate,
) -> Result<Prepared<Status, Output>, AllocError>
    requires { IsCertFor problem.now cert.now }
    ensures { IfOk result (λ prepared. Checks problem.now cert.now (outcome_of text_of 2 prepared)) }
{
    let answer = cert_checker::check(alloc, problem, cert)?;
    let report = answer_report::answer(alloc, answer)?;
    Ok(said(alloc, status(answer), report))
}
