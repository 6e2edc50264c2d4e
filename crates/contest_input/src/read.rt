//! A whole board text.
ghost use Rattle.std.specs.Prelude.{◌≡◌, ◌+◌, ◌≤◌, length, IfOk, IfErr, Ok};
ghost use Rattle.tdm_lines.specs.Refusals.{IsFaultOf};
ghost use Rattle.contest_input.specs.BoardText.{board_of, most_bytes};

use crate::fault::BoardFault;
use crate::reader::BoardReader;
use std::alloc::Global;
use tdm_problem::Problem;

/// Reads a board text of at most 2^28 + 1 bytes; a longer one may be cut there, since it is refused all the
/// same.
///
/// The text's lines are a header with the numbers of FPGAs, wires, nets and groups, then a line for each wire
/// with its two FPGAs, one for each net with its FPGAs, the source first, and one for each group with its
/// nets. All things are numbered from 0. A number that a net or a group lists again counts once, in its first
/// place.
///
/// Refused where the text is none of this, for the first line at fault and the first fault of that line.
/// NoMemory where memory is wanting.
pub fn read_board(alloc: Global, bytes: &[u8]) -> Result<Problem, BoardFault>
    requires { length bytes.now ≤ most_bytes + 1 }
    ensures board { IfOk result (λ problem. board_of bytes.now ≡ Ok problem) }
    ensures refused { IfErr result (λ fault. IsFaultOf fault (board_of bytes.now)) }
{
    let mut reader = BoardReader::new(alloc);
    reader.feed(bytes)?;
    reader.end()
}
