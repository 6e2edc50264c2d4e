//! Checking certificates: whether their potentials are gentle enough, and what they bound the value of every
//! legal solution by. Nothing here rests on how a certificate was made.
#![tactic(auto)]

mod answer;
mod bound;
#[cfg(test)]
mod definitions;
mod growth;
#[cfg(test)]
mod growth_tests;
mod marked_list;
mod net_growths;
mod net_weights;
mod spread;
mod steep;

pub use answer::{CheckAnswer, check};
pub use bound::bound_by_shares;
pub use growth::Grower;
pub use net_growths::growths;
pub use steep::{Steep, first_steep};

#[cfg(test)]
mod tests;
