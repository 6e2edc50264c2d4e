//! Lists of one number.
ghost use Rattle.std.specs.Prelude.{◌≡◌, replicate, IfOk};

use std::alloc::{AllocError, Global};

/// The number, so many times.
pub(crate) fn repeated(alloc: Global, number: u64, count: u32) -> Result<Vec<u64>, AllocError>
    ensures { IfOk result (λ list. list.items ≡ replicate count number) }
{
    vec![in alloc; number; count as usize]
}
