//! Ratios of a legal solution made as good as they can be.
#![tactic(auto)]

#[cfg(test)]
mod definitions;
mod doubt;
mod members;
mod net_uses;
mod numbers;
mod prices;
mod proposed;
mod rounding;
mod spending;
mod sums;
mod sure;
mod tight;
mod trader;
mod trading;
mod wire_rounding;
mod worst_groups;

pub use proposed::TradedSolution;
pub use tight::tighten;
pub use trading::{trade, trade_from};

#[cfg(test)]
mod tests;
#[cfg(test)]
mod trade_tests;
