//! The run of a command: its inputs are read in order and come to an outcome, whose texts are written to the
//! outputs in order, and whose report is said.
//!
//! What the texts say, and what comes of them, is not known here: a command brings its readers of texts, its
//! texts that can be written, and its statuses.
#![tactic(auto)]

mod concluding;
mod outcome;
mod reading;
mod report;
mod status;
mod text;
mod writing;

pub use concluding::conclude;
pub use outcome::{Decision, Prepared, decided};
pub use reading::read_input;
pub use report::{push_line, push_number, refused};
pub use status::RunStatus;
pub use text::{OutputText, TextFault, TextReader};
