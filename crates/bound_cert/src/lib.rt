//! Certificates of lower bounds: what no legal solution of a board can go below, and why.
//!
//! A certificate is made for a board, written to a desk as a text, and read back from it.
#![tactic(auto)]

mod certificate;
#[cfg(test)]
mod definitions;
mod growth_maker;
mod header;
mod holders;
mod hop_maker;
mod hops;
mod laws;
mod laws_text;
mod limits;
#[cfg(test)]
mod maker_tests;
mod potential;
mod read;
mod reader;
mod refusal;
mod repeated;
mod said;
mod scaling;
mod share_maker;
mod sources;
mod state;
#[cfg(test)]
mod text_tests;
mod weighted_maker;
mod write;

pub use certificate::{CertKind, Certificate};
pub use growth_maker::{growing_hop_cert, growing_share_cert};
pub use hop_maker::hop_group_cert;
pub use laws::{bound_is_least, bound_is_one, dual_bound, growth_is_short, spread};
pub use laws_text::{a_text_says_a_certificate, cut_text_says_the_same, reads_back, text_is_short};
pub use limits::{
    MAX_LENGTH, MAX_POTENTIAL_VALUE, MAX_POTENTIALS, MAX_UNIT, MAX_WEIGHT, UNIFORM_WEIGHT,
};
pub use read::{MAX_CERT_BYTES, read_cert};
pub use reader::CertReader;
pub use refusal::{CertFault, CertRefusal, CertTextKind};
pub use share_maker::uniform_share_cert;
pub use weighted_maker::weighted_share_cert;
pub use write::write_cert;
