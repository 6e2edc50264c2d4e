//! Judging solutions: whether they are legal, and what they are worth.
#![tactic(auto)]

mod bad_use;
#[cfg(test)]
mod definitions;
mod flood;
mod joined;
mod judgement;
mod overfull;
mod steps;
mod worth;

pub use judgement::{Verdict, judge};
pub use overfull::count_ratios;
pub use worth::value;

#[cfg(test)]
mod tests;
