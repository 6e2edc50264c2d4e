//! The text of a board, both ways: its wires, nets and groups, or the first thing that is wrong with it.
#![tactic(auto)]

#[cfg(test)]
mod definitions;
mod fault;
mod header;
mod kind;
mod law;
mod lists;
mod read;
mod reader;
mod roles;
#[cfg(test)]
mod tests;
mod wires;
mod write;

pub use fault::{BoardFault, BoardRefusal};
pub use kind::BoardKind;
pub use law::{a_cut_text_says_the_same, a_text_describes_a_board, what_is_written_reads_back};
pub use read::read_board;
pub use reader::BoardReader;
pub use write::write_board;

/// The most bytes of a board text.
pub const MAX_BOARD_BYTES: usize = 268_435_456;

/// The largest number that a board text may hold.
pub const MAX_BOARD_NUMBER: u64 = 4_294_967_295;
