//! Laws on the text of a solution.
ghost use Rattle.std.specs.Prelude.{◌≡◌, ◌+◌, ◌*◌, ◌^◌, ◌≤◌, ℕ, List, take, length, sum_by, Ok};
ghost use Rattle.tdm_problem.specs.Board.{Board};
ghost use Rattle.tdm_problem.specs.Routing.{Routing};
ghost use Rattle.solution_text.specs.Text.{solution_text};
ghost use Rattle.solution_text.specs.Reading.{solution_of, most_bytes};
ghost use Rattle.solution_text.specs.Sayable.{IsSayable};

/// What is written reads back: the text of a solution, where it has at most 2^30 bytes, says just that
/// solution.
pub fn reads_back()
    ensures { (board : Board) (routing : Routing) → IsSayable board routing →
        length (solution_text routing) ≤ most_bytes →
        solution_of board (solution_text routing) ≡ Ok routing }
{}

/// A text has at most 17 bytes for each use and 6 for each net, so that of a solution with at most 2^25
/// uses is never too long.
pub fn text_is_short()
    ensures bytes { (board : Board) (routing : Routing) → IsSayable board routing →
        length (solution_text routing) ≤ 17 * sum_by length routing + 6 * length routing }
    ensures enough { (board : Board) (routing : Routing) → IsSayable board routing →
        sum_by length routing ≤ 2 ^ 25 →
        length (solution_text routing) ≤ most_bytes }
{}

/// A text that is cut one byte past the longest says what the whole text says, so no more of it need be read.
pub fn cut_text_says_the_same()
    ensures { (board : Board) (text : List ℕ) →
        solution_of board (take (most_bytes + 1) text) ≡ solution_of board text }
{}
