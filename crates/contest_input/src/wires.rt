//! The wire lines of a board text.
ghost use Rattle.std.specs.Prelude.{◌≡◌, None};
ghost use Rattle.tdm_problem.specs.Board.{IsWireOf};
ghost use Rattle.contest_input.specs.Faults.{wire_of, wire_fault};

use crate::kind::BoardKind;
use tdm_problem::Wire;

/// What is wrong with the numbers of a wire line of a board with so many FPGAs.
pub(crate) fn wire_fault(fpgas: u32, numbers: &[u64]) -> Option<BoardKind>
    ensures { result ≡ wire_fault fpgas numbers.now }
{
    if numbers.len() != 2 {
        return Some(BoardKind::WrongCount);
    }
    if numbers[0] >= u64::from(fpgas) || numbers[1] >= u64::from(fpgas) {
        return Some(BoardKind::UnknownFpga);
    }
    if numbers[0] == numbers[1] {
        return Some(BoardKind::SelfLoop);
    }
    None
}

/// The wire of a line without fault.
pub(crate) fn wire_of(fpgas: u32, numbers: &[u64]) -> Wire
    requires { wire_fault fpgas numbers.now ≡ None }
    ensures wire { result ≡ wire_of numbers.now }
    ensures joins { IsWireOf fpgas result }
{
    Wire {
        a: numbers[0] as u32,
        b: numbers[1] as u32,
    }
}
