//! Which groups hold each net, and what the groups then sum to.
#![tactic(auto)]

#[cfg(test)]
mod definitions;
mod gathering;
mod incidence;
mod running;
mod summing;

pub use incidence::Incidence;
pub use running::RunningSums;

#[cfg(test)]
mod tests;
