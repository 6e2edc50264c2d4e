//! What holds of board texts by their definition alone.
ghost use Rattle.std.specs.Prelude.{◌≡◌, ◌+◌, ◌≤◌, ℕ, List, take, length, Ok};
ghost use Rattle.tdm_problem.specs.Board.{Board, IsBoard};
ghost use Rattle.contest_input.specs.BoardText.{board_of, most_bytes};
ghost use Rattle.contest_input.specs.Canonical.{board_text};

/// A text that is cut one byte past the longest says what the whole text says, so no more of it need be read.
pub fn a_cut_text_says_the_same()
    ensures { (text : List ℕ) → board_of (take (most_bytes + 1) text) ≡ board_of text }
{}

/// The board that a text describes keeps to the limits, and all its numbers name something.
pub fn a_text_describes_a_board()
    ensures { (text : List ℕ) (board : Board) → board_of text ≡ Ok board → IsBoard board }
{}

/// The text that is written of a board is never too long, and describes just that board.
pub fn what_is_written_reads_back()
    ensures short { (board : Board) → IsBoard board → length (board_text board) ≤ most_bytes }
    ensures same { (board : Board) → IsBoard board → board_of (board_text board) ≡ Ok board }
{}
