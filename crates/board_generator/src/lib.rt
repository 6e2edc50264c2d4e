//! Boards of any size from three numbers, for a first look and for measuring.
#![tactic(auto)]

#[cfg(test)]
mod definitions;
mod generator;
#[cfg(test)]
mod tests;

pub use generator::gen_problem;
