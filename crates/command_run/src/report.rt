//! Lines that are said.
ghost use Rattle.std.specs.Prelude.{◌≡◌, ◌++◌, IfOk, OnOk};
ghost use Rattle.command_run.specs.Slots.{place};
ghost use Rattle.command_run.specs.Reports.{counted, numbered, refused_report, read_fault_report, no_input_report};

use std::alloc::{AllocError, Global};
use tdm_desk::InSlot;
use tdm_lines::decimal;

/// Adds these words and a number.
pub fn push_number(text: &mut Vec<u8>, words: &[u8], number: u128) -> Result<(), AllocError>
    ensures { OnOk result (text.new.items ≡ text.old.items ++ counted words.now number) }
{
    text.extend_from_slice(words)?;
    text.extend_from_slice(decimal(number).as_bytes())?;
    Ok(())
}

/// Adds a line of these words and a number.
pub fn push_line(text: &mut Vec<u8>, words: &[u8], number: u128) -> Result<(), AllocError>
    ensures { OnOk result (text.new.items ≡ text.old.items ++ numbered words.now number) }
{
    push_number(text, words, number)?;
    text.push(b'\n')?;
    Ok(())
}

/// A line of these words and a number.
fn line(alloc: Global, words: &[u8], number: u128) -> Result<Vec<u8>, AllocError>
    ensures { IfOk result (λ text. text.items ≡ numbered words.now number) }
{
    let mut text = Vec::new(alloc);
    push_line(&mut text, words, number)?;
    Ok(text)
}

/// These words, and then `KIND line LINE`.
pub fn refused(alloc: Global, words: &[u8], kind: &str, line: u32) -> Result<Vec<u8>, AllocError>
    ensures { IfOk result (λ text. text.items ≡ refused_report words.now kind.now line) }
{
    let mut text = Vec::new(alloc);
    text.extend_from_slice(words)?;
    text.extend_from_slice(kind.as_bytes())?;
    text.extend_from_slice(b" line ")?;
    self::line(alloc, text.as_slice(), u128::from(line))
}

/// The place of an input among the inputs of a command, counted from 1.
fn number_of(slot: InSlot) -> u8
    ensures { result ≡ place slot }
{
    match slot {
        InSlot::In0 => 1,
        InSlot::In1 => 2,
        InSlot::In2 => 3,
    }
}

/// `read fault input K`: reading this input failed. It takes no memory to say so.
pub(crate) fn read_fault(slot: InSlot) -> &'static [u8]
    ensures { result.now ≡ read_fault_report (place slot) }
{
    match slot {
        InSlot::In0 => b"read fault input 1\n",
        InSlot::In1 => b"read fault input 2\n",
        InSlot::In2 => b"read fault input 3\n",
    }
}

/// `no input K`: there is no file for this input.
pub(crate) fn no_input(alloc: Global, slot: InSlot) -> Result<Vec<u8>, AllocError>
    ensures { IfOk result (λ text. text.items ≡ no_input_report (place slot)) }
{
    line(alloc, b"no input ", u128::from(number_of(slot)))
}
