//! The command `gen`.
ghost use Rattle.std.specs.Prelude.{◌≡◌, IfOk};
ghost use Rattle.board_generator.specs.Generated.{AreSizes};
ghost use Rattle.command_run.specs.Outcome.{outcome_of};
ghost use Rattle.tdm_cli.specs.Texts.{text_of};
ghost use Rattle.tdm_cli.specs.Outcomes.{Generates};

use crate::report;
use crate::status::Status;
use crate::writing::Output;
use board_generator::gen_problem;
use command_run::Prepared;
use std::alloc::{AllocError, Global};

/// The board of these numbers, to be written, and how large it is. The only error is want of memory.
pub fn generate(
    alloc: Global,
    fpgas: u32,
    nets: u32,
    groups: u32,
) -> Result<Prepared<Status, Output>, AllocError>
    requires { AreSizes fpgas nets groups }
    ensures { IfOk result (λ prepared. Generates fpgas nets groups (outcome_of text_of 0 prepared)) }
{
    let problem = gen_problem(alloc, fpgas, nets, groups)?;
    let report = report::size(alloc, &problem)?;
    let mut texts = Vec::new(alloc);
    texts.push(Output::Board(problem))?;
    Ok(Prepared {
        status: Status::Ok,
        report,
        texts,
    })
}
