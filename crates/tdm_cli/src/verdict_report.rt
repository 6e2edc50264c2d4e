//! What is said of a solution that was judged.
ghost use Rattle.std.specs.Prelude.{◌≡◌, IfOk};
ghost use Rattle.tdm_cli.specs.Reports.{verdict_report};

use crate::report;
use command_run::{push_line, push_number};
use solution_eval::Verdict;
use std::alloc::{AllocError, Global};

/// `illegal net N not joined`.
fn not_joined(alloc: Global, net: u32) -> Result<Vec<u8>, AllocError>
    ensures { IfOk result (λ text. text.items ≡ verdict_report (Verdict.NotJoined net)) }
{
    let mut text = Vec::new(alloc);
    push_number(&mut text, b"illegal net ", u128::from(net))?;
    text.extend_from_slice(b" not joined\n")?;
    Ok(text)
}

/// `illegal net N wire W ratio R`.
fn bad_ratio(alloc: Global, net: u32, wire: u32, ratio: u32) -> Result<Vec<u8>, AllocError>
    ensures { IfOk result (λ text. text.items ≡ verdict_report (Verdict.BadRatio net wire ratio)) }
{
    let mut text = Vec::new(alloc);
    push_number(&mut text, b"illegal net ", u128::from(net))?;
    push_number(&mut text, b" wire ", u128::from(wire))?;
    push_line(&mut text, b" ratio ", u128::from(ratio))?;
    Ok(text)
}

/// `illegal wire W overfull`.
fn overfull(alloc: Global, wire: u32) -> Result<Vec<u8>, AllocError>
    ensures { IfOk result (λ text. text.items ≡ verdict_report (Verdict.Overfull wire)) }
{
    let mut text = Vec::new(alloc);
    push_number(&mut text, b"illegal wire ", u128::from(wire))?;
    text.extend_from_slice(b" overfull\n")?;
    Ok(text)
}

/// The value of a legal solution, or the first violation of one that is not.
pub fn verdict(alloc: Global, verdict: &Verdict) -> Result<Vec<u8>, AllocError>
    ensures { IfOk result (λ text. text.items ≡ verdict_report verdict.now) }
{
    match verdict {
        Verdict::Legal { value } => report::value(alloc, *value),
        Verdict::NotJoined { net } => not_joined(alloc, *net),
        Verdict::BadRatio { net, wire, ratio } => bad_ratio(alloc, *net, *wire, *ratio),
        Verdict::Overfull { wire } => overfull(alloc, *wire),
    }
}
