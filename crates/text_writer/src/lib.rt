//! Texts on their way to a desk: pieces and numbers are gathered, and written many at once.
//!
//! What was added to a text is written or still pending, and a caller that is done writes what is pending by
//! [`flush`]. After a fault a first part of the text is written, and the rest is let go.
#![tactic(auto)]

mod pending;
#[cfg(test)]
mod tests;
mod write;

pub use pending::Pending;
pub use write::{flush, put_line, put_number, put_numbers};
