//! Lines, tokens and decimal numbers of a text.
//!
//! A text is cut at each line feed into pieces, which are numbered from 1. The tokens of a piece are
//! its runs of bytes other than space, tab and carriage return. A piece with a token is a line, and
//! keeps its number.
#![tactic(auto)]

mod cursor;
#[cfg(test)]
mod definitions;
mod digits;
mod first_numbers;
mod grammar;
mod line;
mod pushed;
mod reader;
mod reading;
mod refusal;
mod scan;
#[cfg(test)]
mod tests;

pub use cursor::{FoundLine, LineCursor};
pub use digits::{Digits, decimal};
pub use first_numbers::FirstNumbers;
pub use grammar::Grammar;
pub use line::{TokenFault, TokenLine, line_after, token_lines};
pub use pushed::{Scan, ScanStep, TokenEnd};
pub use reading::Reading;
pub use refusal::{ReadingFault, Refusal, RefusalKind, clean, refused};
