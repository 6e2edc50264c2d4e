//! What a run comes to.
ghost use Rattle.std.specs.Prelude.{◌≡◌, IfOk, IfErr};

use std::alloc::AllocError;
use tdm_desk::InSlot;

/// An outcome that is ready to be put out: its status, what is said, and the text of each output, in order.
#[derive(Drop)]
pub struct Prepared<S, T> {
    pub status: S,
    pub report: Vec<u8>,
    pub texts: Vec<T>,
}

/// What the reading of the inputs came to.
#[derive(Drop)]
pub enum Decision<S, T> {
    /// The inputs call for this outcome.
    Prepared(Prepared<S, T>),
    /// This input could not be read.
    Unread(InSlot),
    /// Memory was wanting.
    NoMemory,
}

/// The outcome, if there was memory for it.
pub fn decided<S, T>(prepared: Result<Prepared<S, T>, AllocError>) -> Decision<S, T>
    ensures some { IfOk prepared (λ outcome. result ≡ Decision.Prepared outcome) }
    ensures wanting { IfErr prepared (λ _. result ≡ Decision.NoMemory) }
{
    match prepared {
        Ok(prepared) => Decision::Prepared(prepared),
        Err(AllocError) => Decision::NoMemory,
    }
}
