//! Whether reciprocals sum to at most a number of lanes, and the least even ratio for which there is room,
//! decided exactly without forming a product.
#![tactic(auto)]

mod counts;
#[cfg(test)]
mod definitions;
mod laws;
mod least_even;
mod long_division;
mod rounding;
mod steps;
#[cfg(test)]
mod tests;

pub use counts::Counts;
pub use laws::items_are_counted;
pub use rounding::{ceiling_of_reciprocal, floor_of_reciprocal};
pub use steps::Steps;
