//! Outcomes that write nothing.
ghost use Rattle.std.specs.Prelude.{◌≡◌, ℕ, [], IfOk};
ghost use Rattle.command_run.specs.Outcome.{outcome_of};
ghost use Rattle.tdm_cli.specs.Texts.{text_of};
ghost use Rattle.tdm_cli.specs.Outcomes.{comes_to, refused_words};

use crate::report;
use crate::status::Status;
use crate::writing::Output;
use command_run::Prepared;
use std::alloc::{AllocError, Global};

/// The outcome that has this status and report, and writes nothing.
pub fn said(alloc: Global, status: Status, report: Vec<u8>) -> Prepared<Status, Output>
    ensures { (opened : ℕ) → outcome_of text_of opened result ≡ comes_to opened status report.items [] }
{
    Prepared {
        status,
        report,
        texts: Vec::new(alloc),
    }
}

/// What is said of words that are no command. The only error is want of memory.
pub fn refused(alloc: Global) -> Result<Prepared<Status, Output>, AllocError>
    ensures { IfOk result (λ prepared. outcome_of text_of 0 prepared ≡ refused_words) }
{
    let report = Vec::from_slice(alloc, report::USAGE)?;
    Ok(said(alloc, Status::Usage, report))
}
