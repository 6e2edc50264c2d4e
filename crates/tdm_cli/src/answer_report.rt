//! What is said of a certificate that was checked.
ghost use Rattle.std.specs.Prelude.{◌≡◌, IfOk};
ghost use Rattle.tdm_cli.specs.Reports.{steep_report, answer_report};

use crate::report;
use cert_checker::{CheckAnswer, Steep};
use command_run::{push_line, push_number};
use std::alloc::{AllocError, Global};

/// `steep potential P wire W`.
fn steep(alloc: Global, pair: Steep) -> Result<Vec<u8>, AllocError>
    ensures { IfOk result (λ text. text.items ≡ steep_report pair) }
{
    let mut text = Vec::new(alloc);
    push_number(&mut text, b"steep potential ", u128::from(pair.potential))?;
    push_line(&mut text, b" wire ", u128::from(pair.wire))?;
    Ok(text)
}

/// The bound of a valid certificate, or the first steep pair of one that is not.
pub fn answer(alloc: Global, answer: CheckAnswer) -> Result<Vec<u8>, AllocError>
    ensures { IfOk result (λ text. text.items ≡ answer_report answer) }
{
    match answer {
        CheckAnswer::Accepted { bound } => report::bound(alloc, bound),
        CheckAnswer::Rejected(pair) => steep(alloc, pair),
    }
}
