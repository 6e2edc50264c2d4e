//! The weights of the groups for the next round.
#![tactic(auto)]

#[cfg(test)]
mod definitions;
mod renewal;

pub use renewal::{largest_sum, next_weights};

#[cfg(test)]
mod tests;
