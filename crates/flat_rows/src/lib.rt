//! Lists of lists, kept flat: all items one after another in one list.
#![tactic(auto)]

mod rows;
#[cfg(test)]
mod tests;

pub use rows::FlatRows;
