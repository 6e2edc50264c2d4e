//! Why a text is refused, and what reading it answers then.
ghost use Rattle.std.specs.Prelude.{◌≡◌, None, OnOk};
ghost use Rattle.tdm_lines.specs.Refusals.{clean};
ghost use Rattle.tdm_lines.specs.declared.refusal.ReadingFault.TheVariants.{NoMemory, Refused};

use crate::line::TokenFault;
use std::alloc::AllocError;
use thiserror::Error;

/// The first fault of a text.
#[derive(Clone, Copy, Debug, PartialEq, Eq)]
pub struct Refusal<K> {
    /// What is wrong.
    pub kind: K,
    /// The line at fault, from 1. What is missing is said to stand where the text ends, on the line that is
    /// the number of line feeds plus 1; 0 where the whole text is at fault.
    pub line: u32,
}

/// Why reading a text gave nothing.
#[derive(Clone, Copy, Debug, PartialEq, Eq, Error)]
pub enum ReadingFault<K> {
    /// The text says nothing of its kind.
    #[error("the text is refused")]
    Refused(Refusal<K>),
    /// Memory was wanting, and nothing is said of the text.
    #[error("memory was wanting")]
    NoMemory,
}

impl<K> From<AllocError> for ReadingFault<K> {
    ghost from_gives = { λ _ fault. fault ≡ NoMemory };

    fn from(_error: AllocError) -> ReadingFault<K> {
        ReadingFault::NoMemory
    }
}

impl<K> From<Refusal<K>> for ReadingFault<K> {
    ghost from_gives = { λ refusal fault. fault ≡ Refused refusal };

    fn from(refusal: Refusal<K>) -> ReadingFault<K> {
        ReadingFault::Refused(refusal)
    }
}

/// The kinds of what can be wrong with a text, among them the faults of tokens.
pub trait RefusalKind: Copy {
    ghost use Rattle.tdm_lines.specs.declared.line.TokenFault.{TokenFault};

    // the kind of a fault of tokens
    ghost of_token: { TokenFault → Self };

    /// The kind of a fault of tokens.
    fn of_token(fault: TokenFault) -> Self
        ensures { result ≡ of_token fault };
}

/// The refusal of a text for this fault of this line.
pub fn refused<K: Copy>(kind: K, line: u32) -> ReadingFault<K>
    ensures { result ≡ Refused (record { kind = kind; line = line }) }
{
    ReadingFault::Refused(Refusal { kind, line })
}

/// Refuses a line whose tokens have a fault.
pub fn clean<K: RefusalKind>(fault: Option<TokenFault>, line: u32) -> Result<(), Refusal<K>>
    ensures none { OnOk result (fault ≡ None) }
    ensures said { result ≡ clean K.of_token line fault }
{
    match fault {
        None => Ok(()),
        Some(fault) => Err(Refusal {
            kind: K::of_token(fault),
            line,
        }),
    }
}
