//! The outside world as a program sees it: inputs that are read, outputs that are written, and
//! what is said to the user.
//!
//! A program takes any `Desk`. `StdDesk` is the desk of real files and the standard output, and
//! `MemoryDesk` is one in memory, whose every byte the contracts know.
#![tactic(auto)]

mod calls;
mod fault_counts;
mod file_table;
mod loading;
mod memory_desk;
mod memory_store;
mod open_input;
mod plan;
mod slots;
mod std_desk;
mod writing;

pub use calls::{Desk, DeskFault};
pub use loading::load;
pub use memory_desk::MemoryDesk;
pub use slots::{InSlot, OutSlot};
pub use std_desk::StdDesk;
pub use writing::{say_whole, write_whole};

#[cfg(test)]
mod tests;
