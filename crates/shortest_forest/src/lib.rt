//! Searches on a board: least hops and baseline trees; least lengths over wires or arcs, from any sources to
//! the nearest goal.
#![tactic(auto)]

#[cfg(test)]
mod arc_tests;
mod baseline;
mod breadth_first;
#[cfg(test)]
mod definitions;
mod hop_forest;
mod label;
mod last;
mod laws;
mod least;
#[cfg(test)]
mod length_tests;
mod lengths;
mod marks;
mod nearest;
mod search;
mod stamped;
#[cfg(test)]
mod tests;
mod way;
mod wire_ends;

pub use baseline::{BaseTrees, base_tree};
pub use hop_forest::{Forest, hops};
pub use label::Label;
pub use last::last_goal;
pub use laws::{caps_may_fall, ways_back_are_walks};
pub use least::{forest, settle_all};
pub use lengths::{ArcLengths, BothWays, Lengths, LowerBounds, NoBound};
pub use nearest::{MOST_CAP, nearest_goal};
pub use search::Search;
pub use way::way_back;
pub use wire_ends::other_end;
