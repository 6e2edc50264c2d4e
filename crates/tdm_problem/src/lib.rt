//! The problem: boards with their nets and groups, and solutions for them, with the definitions that say
//! which solutions are legal and what they are worth.
#![tactic(auto)]

#[cfg(test)]
mod definitions;
mod firsts;
mod laws;
mod limits;
mod load_laws;
mod pool;
mod problem;
mod solution;
#[cfg(test)]
mod tests;
mod trees;
mod wire;

pub use laws::{even, exchange, root_is_exact, tangent, users_have_the_ratios};
pub use limits::{
    LANES, MAX_FPGAS, MAX_GROUPS, MAX_LISTED_FPGAS, MAX_LISTED_NETS, MAX_NETS, MAX_WIRES,
};
pub use load_laws::marginal;
pub use problem::{Problem, ProblemDraft};
pub use solution::{Solution, WireUse};
pub use trees::Trees;
pub use wire::Wire;
