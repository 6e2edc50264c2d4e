//! Trees that join terminals, grown from one of them by a least path to the nearest of the others, again and
//! again; how such trees grow, and how long they are.
#![tactic(auto)]

mod bounds;
mod builder;
#[cfg(test)]
mod definitions;
mod fault;
mod joining;
mod laws;
#[cfg(test)]
mod tests;

pub use bounds::TreeBounds;
pub use builder::{TreeBuilder, build};
pub use fault::BuildFault;
pub use laws::{joining_is_as_long_as_walks, tree_grows_by_a_path, walks_are_short};
