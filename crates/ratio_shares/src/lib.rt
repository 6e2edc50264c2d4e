//! How the lanes of a wire are shared among its nets.
#![tactic(auto)]

#[cfg(test)]
mod definitions;
mod laws;
mod sharing;

pub use laws::{shares_are_in_range, shares_fit_the_lanes};
pub use sharing::{claim, least_claim_for, share, shares};

#[cfg(test)]
mod tests;
