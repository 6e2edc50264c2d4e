//! The lines of a whole text.
ghost use Rattle.std.specs.Prelude.{◌≡◌, ◌≤◌, ◌^◌, length, IfOk};
ghost use Rattle.tdm_lines.specs.Lines.{lines, line_after};

use crate::cursor::LineCursor;
use std::alloc::{AllocError, Global};
use std::marker::Model;

/// What is wrong with a line: the first of these that holds.
#[derive(Clone, Copy, PartialEq, Eq, Debug)]
pub enum TokenFault {
    /// Some token is not one or more decimal digits.
    BadNumber,
    /// Each token is a number, and some number is above the text's largest.
    NumberTooLarge,
}

/// A line with at least one token.
#[derive(Debug, Drop)]
pub struct TokenLine {
    number: u32,
    fault: Option<TokenFault>,
    numbers: Vec<u64>,
}

impl Model for TokenLine {
    ghost use Rattle.tdm_lines.specs.Lines.{Line};

    ghost Value = { Line };

    ghost view = { λ l. record { number = l.number; fault = l.fault; numbers = l.numbers.items } };
}

impl TokenLine {
    /// Which piece of the text it is, from 1.
    pub fn number(&self) -> u32
        ensures { result ≡ self.now.number }
    {
        self.number
    }

    /// What is wrong with it, if anything.
    pub fn fault(&self) -> Option<TokenFault>
        ensures { result ≡ self.now.fault }
    {
        self.fault
    }

    /// Its numbers in order, or nothing where it has a fault.
    pub fn numbers(&self) -> &[u64]
        ensures { result.now ≡ self.now.numbers }
    {
        &self.numbers
    }
}

/// The lines of a text of at most 2^30 bytes, in order, where numbers are at most `max`.
///
/// A line with a fault has no numbers. The only error is a want of memory.
pub fn token_lines(alloc: Global, bytes: &[u8], max: u64) -> Result<Vec<TokenLine>, AllocError>
    requires { length bytes.now ≤ 2 ^ 30 }
    ensures { IfOk result (λ found. found.items ≡ lines max bytes.now) }
{
    let mut cursor = LineCursor::new(bytes, max);
    let mut found = Vec::new(alloc);
    loop {
        let mut numbers = Vec::new(alloc);
        match cursor.next_line(&mut numbers)? {
            None => break,
            Some(line) => found.push(TokenLine {
                number: line.number,
                fault: line.fault,
                numbers,
            })?,
        }
    }
    Ok(found)
}

/// The number of line feeds in a text of at most 2^30 bytes, plus 1: the line where a missing line
/// would stand.
pub fn line_after(bytes: &[u8]) -> u32
    requires { length bytes.now ≤ 2 ^ 30 }
    ensures { result ≡ line_after bytes.now }
{
    bytes.iter().filter(|byte| **byte == b'\n').count() as u32 + 1
}
