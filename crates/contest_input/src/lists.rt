//! Lines that list things by their numbers.
ghost use Rattle.std.specs.Prelude.{ℕ, List, [], ◌∷◌, ◌++◌, ◌≡◌, ◌<◌, ◌≤◌, ◌^◌, All, OnOk, IfNone, nat_le};
ghost use Rattle.std.specs.Bool.{OnFalse};
ghost use Rattle.std.specs.List.{list_any};
ghost use Rattle.contest_input.specs.Faults.{net_fault, group_fault};
ghost use Rattle.contest_input.specs.Lists.{list_fault};
ghost use Rattle.contest_input.specs.Roles.{IsKeptOf};

use crate::kind::BoardKind;
use std::alloc::AllocError;
use tdm_problem::{MAX_LISTED_FPGAS, MAX_LISTED_NETS};

/// What the lines of a section list.
#[derive(Clone, Copy)]
pub(crate) struct Listing {
    /// The fault of a number that names nothing.
    pub(crate) unknown: BoardKind,
    /// How many things there are to name.
    pub(crate) below: u32,
    /// The most numbers that the lines of the section may have together.
    pub(crate) most: u64,
}

/// What net lines list on a board with so many FPGAs.
pub(crate) fn net_listing(fpgas: u32) -> Listing
    ensures { (listed : ℕ) (numbers : List ℕ) → list_fault result listed numbers
        ≡ net_fault fpgas listed numbers }
{
    Listing {
        unknown: BoardKind::UnknownFpga,
        below: fpgas,
        most: MAX_LISTED_FPGAS,
    }
}

/// What group lines list on a board with so many nets.
pub(crate) fn group_listing(nets: u32) -> Listing
    ensures { (listed : ℕ) (numbers : List ℕ) → list_fault result listed numbers
        ≡ group_fault nets listed numbers }
{
    Listing {
        unknown: BoardKind::UnknownNet,
        below: nets,
        most: MAX_LISTED_NETS,
    }
}

/// Whether some number names nothing, where there are things below a number alone.
fn has_unknown(below: u32, numbers: &[u64]) -> bool
    ensures value { result ≡ list_any (nat_le below) numbers.now }
    ensures known { OnFalse result (All (λ n. n < below) numbers.now) }
{
    for &n in numbers {
        if n >= u64::from(below) {
            return true;
        }
    }
    false
}

/// What is wrong with the numbers of a line, where this and all earlier lines of the section have so many.
pub(crate) fn list_fault(listing: Listing, listed: u64, numbers: &[u64]) -> Option<BoardKind>
    ensures value { result ≡ list_fault listing listed numbers.now }
    ensures known { IfNone result (All (λ n. n < listing.below) numbers.now) }
    ensures within { IfNone result (listed ≤ listing.most) }
{
    if has_unknown(listing.below, numbers) {
        return Some(listing.unknown);
    }
    if listed > listing.most {
        return Some(BoardKind::TotalLimit);
    }
    None
}

/// Keeps one number more of a line. Of a line with as many numbers as there is room for, or more, the last
/// that is kept is the largest of those that came since the room was full.
pub(crate) fn keep(numbers: &mut Vec<u64>, room: usize, number: u64) -> Result<(), AllocError>
    requires { 0 < room }
    ensures { OnOk result ((whole : List ℕ) → IsKeptOf room numbers.old.items whole
        → IsKeptOf room numbers.new.items (whole ++ number ∷ [])) }
{
    if numbers.len() < room {
        numbers.push(number)?;
        return Ok(());
    }
    let last = numbers.len() - 1;
    if numbers[last] < number {
        numbers[last] = number;
        return Ok(());
    }
    Ok(())
}

/// Writes the numbers into `row` in place of what stood there.
pub(crate) fn narrow(numbers: &[u64], row: &mut Vec<u32>) -> Result<(), AllocError>
    requires { All (λ n. n < 2 ^ 32) numbers.now }
    ensures { OnOk result (row.new.items ≡ numbers.now) }
{
    row.clear();
    for &n in numbers {
        row.push(n as u32)?;
    }
    Ok(())
}
