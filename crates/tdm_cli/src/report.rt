//! The texts that the program says.
ghost use Rattle.std.specs.Prelude.{◌≡◌, IfOk};
ghost use Rattle.command_run.specs.Reports.{numbered};
ghost use Rattle.tdm_cli.specs.Reports.{value_report, bound_report, route_report, size_report, unconnectable_report};

use command_run::{push_line, push_number};
use std::alloc::{AllocError, Global};
use tdm_problem::Problem;

/// What is said of words that are no command.
pub const USAGE: &[u8] = b"words refused\n";

/// What is said where the solution would have too many uses.
pub const USE_LIMIT: &[u8] = b"too many uses\n";

/// A line of these words and a number.
fn line(alloc: Global, words: &[u8], number: u128) -> Result<Vec<u8>, AllocError>
    ensures { IfOk result (λ text. text.items ≡ numbered words.now number) }
{
    let mut text = Vec::new(alloc);
    push_line(&mut text, words, number)?;
    Ok(text)
}

/// `value V`: what a solution is worth.
pub fn value(alloc: Global, value: u128) -> Result<Vec<u8>, AllocError>
    ensures { IfOk result (λ text. text.items ≡ value_report value) }
{
    line(alloc, b"value ", value)
}

/// `value V`, and on a further line `bound L`: what the written solution is worth, and what no legal
/// solution's value is below.
pub fn routed(alloc: Global, value: u128, bound: u128) -> Result<Vec<u8>, AllocError>
    ensures { IfOk result (λ text. text.items ≡ route_report value bound) }
{
    let mut text = line(alloc, b"value ", value)?;
    push_line(&mut text, b"bound ", bound)?;
    Ok(text)
}

/// `bound L`: what no legal solution is worth less than.
pub fn bound(alloc: Global, bound: u128) -> Result<Vec<u8>, AllocError>
    ensures { IfOk result (λ text. text.items ≡ bound_report bound) }
{
    line(alloc, b"bound ", bound)
}

/// `unconnectable net N`, a line for each of the nets.
pub fn unconnectable(alloc: Global, nets: &[u32]) -> Result<Vec<u8>, AllocError>
    ensures { IfOk result (λ text. text.items ≡ unconnectable_report nets.now) }
{
    let mut text = Vec::new(alloc);
    for net in nets {
        push_line(&mut text, b"unconnectable net ", u128::from(*net))?;
    }
    Ok(text)
}

/// `fpgas F wires W nets N groups G`: how large a board is.
pub fn size(alloc: Global, problem: &Problem) -> Result<Vec<u8>, AllocError>
    ensures { IfOk result (λ text. text.items ≡ size_report problem.now) }
{
    let mut text = Vec::new(alloc);
    push_number(&mut text, b"fpgas ", u128::from(problem.fpgas()))?;
    push_number(&mut text, b" wires ", u128::from(problem.wires()))?;
    push_number(&mut text, b" nets ", u128::from(problem.nets()))?;
    push_line(&mut text, b" groups ", u128::from(problem.groups()))?;
    Ok(text)
}
