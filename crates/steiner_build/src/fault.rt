//! Why there is no tree.
use std::alloc::AllocError;
use thiserror::Error;

/// Why there is no tree.
#[derive(Clone, Copy, Debug, PartialEq, Eq, Error)]
pub enum BuildFault {
    /// All wires of the graph together do not join the terminals.
    #[error("the terminals cannot be connected")]
    NotConnectable,
    /// Memory is lacking.
    #[error("out of memory")]
    NoMemory,
}

impl From<AllocError> for BuildFault {
    ghost use Rattle.std.specs.Prelude.{◌≡◌};
    ghost use Rattle.steiner_build.specs.declared.fault.BuildFault.TheVariants.{NoMemory};

    ghost from_gives = { λ _ fault. fault ≡ NoMemory };

    fn from(_: AllocError) -> BuildFault {
        BuildFault::NoMemory
    }
}
