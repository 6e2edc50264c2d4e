//! Legal even ratios for the trees of all nets.
#![tactic(auto)]

mod claims;
mod counts;
#[cfg(test)]
mod definitions;
mod even;
mod group_sums;
mod laws;
mod ratio;
mod shared;
mod solution;

pub use even::even_of;
pub use group_sums::shared_sums;
pub use laws::{even_ratio_is_least, shares_fit, uniform_is_least};
pub use ratio::uniform;
pub use shared::legalise;
pub use solution::uniform_solution;

#[cfg(test)]
mod tests;
