//! The header of a board text.
ghost use Rattle.tdm_problem.specs.Limits.{most_fpgas, most_wires, most_nets, most_groups};
ghost use Rattle.std.specs.Prelude.{◌≤◌, ◌≡◌, None};
ghost use Rattle.contest_input.specs.Faults.{sizes_of, header_fault};

use crate::kind::BoardKind;
use tdm_problem::{MAX_FPGAS, MAX_GROUPS, MAX_NETS, MAX_WIRES};

/// How many FPGAs, wires, nets and groups the header says there are.
#[derive(Clone, Copy)]
pub(crate) struct Sizes {
    pub(crate) fpgas: u32,
    pub(crate) wires: u32,
    pub(crate) nets: u32,
    pub(crate) groups: u32,
}

/// What is wrong with the numbers of a header.
pub(crate) fn header_fault(numbers: &[u64]) -> Option<BoardKind>
    ensures { result ≡ header_fault numbers.now }
{
    if numbers.len() != 4 {
        return Some(BoardKind::WrongCount);
    }
    if numbers[0] > u64::from(MAX_FPGAS)
        || numbers[1] > u64::from(MAX_WIRES)
        || numbers[2] > u64::from(MAX_NETS)
        || numbers[3] > u64::from(MAX_GROUPS)
    {
        return Some(BoardKind::CountLimit);
    }
    None
}

/// The sizes that a header without fault asks for.
pub(crate) fn sizes_of(numbers: &[u64]) -> Sizes
    requires { header_fault numbers.now ≡ None }
    ensures sizes { result ≡ sizes_of numbers.now }
    ensures fpgas { result.fpgas ≤ most_fpgas }
    ensures wires { result.wires ≤ most_wires }
    ensures nets { result.nets ≤ most_nets }
    ensures groups { result.groups ≤ most_groups }
{
    Sizes {
        fpgas: numbers[0] as u32,
        wires: numbers[1] as u32,
        nets: numbers[2] as u32,
        groups: numbers[3] as u32,
    }
}
