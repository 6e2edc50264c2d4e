//! The text of a solution: writing it to a desk, and reading it back.
//!
//! For each net of the board, in order, the text has a line with the number of the net's uses, and then for
//! each use a line with the wire and the ratio.
#![tactic(auto)]

#[cfg(test)]
mod definitions;
mod laws;
mod read;
mod reader;
mod refusal;
mod said;
mod state;
#[cfg(test)]
mod tests;
mod write;

pub use laws::{cut_text_says_the_same, reads_back, text_is_short};
pub use read::{MAX_SOLUTION_BYTES, read_solution};
pub use reader::SolutionReader;
pub use refusal::{SolutionFault, SolutionKind, SolutionRefusal};
pub use write::write_solution;
