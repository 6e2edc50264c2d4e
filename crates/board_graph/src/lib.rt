//! The FPGAs and wires of a board as a graph, with the wires at each FPGA side by side in memory.
#![tactic(auto)]

#[cfg(test)]
mod definitions;
mod graph;
mod neighbour;
mod rows;

pub use graph::BoardGraph;
pub use neighbour::Neighbour;
