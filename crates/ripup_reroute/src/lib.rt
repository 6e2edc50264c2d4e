//! Rip-up and reroute: one net at a time is taken off its wires and gets another tree beside what crowds the
//! others, where that makes the cost of the loads smaller.
#![tactic(auto)]

#[cfg(test)]
mod definitions;
mod effort;
mod growing;
mod loads;
mod marginals;
mod passes;
mod table;
#[cfg(test)]
mod tests;
mod tools;
mod turn;
mod walks;
mod ways;

pub use effort::Effort;
pub use loads::loads_of;
pub use passes::{Rerouted, reroute, reroute_with};
