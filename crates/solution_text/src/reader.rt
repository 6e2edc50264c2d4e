//! A solution text that comes in pieces.
ghost use Rattle.std.specs.Prelude.{◌≡◌, ◌+◌, ◌≤◌, ◌++◌, ℕ, List, [], length, IfOk, IfErr, OnOk, OnErr, IsTrue, Ok, Err, alloc_error, true};
ghost use Rattle.tdm_problem.specs.Board.{Board};
ghost use Rattle.tdm_problem.specs.Routing.{IsFor};
ghost use Rattle.solution_text.specs.Reading.{solution_of, most_bytes};
ghost use Rattle.tdm_lines.specs.Refusals.{IsFaultOf};
ghost use Rattle.solution_text.specs.Reader.{IsAt};
ghost use Rattle.tdm_lines.specs.declared.refusal.ReadingFault.TheVariants.{NoMemory};

use crate::read::MAX_SOLUTION_BYTES;
use crate::refusal::{SolutionFault, SolutionKind};
use crate::state::{LARGEST_NUMBER, SolutionState};
use std::alloc::{AllocError, Global};
use std::marker::Model;
use tdm_lines::Reading;
use tdm_problem::{Problem, Solution};

/// Reads the text of a solution for a problem that comes in pieces of any cut.
#[derive(Drop)]
pub struct SolutionReader {
    reading: Reading<SolutionState>,
}

impl Model for SolutionReader {
    ghost use Rattle.std.specs.Prelude.{◌≡◌, false};
    ghost use Rattle.tdm_lines.specs.declared.reading.Reading.{Reading};
    ghost use Rattle.solution_text.specs.declared.state.SolutionState.{SolutionState};
    ghost use Rattle.solution_text.specs.Roles.{IsFine};

    ghost Value = { Reading SolutionState };

    ghost view = { λ r. r.reading };

    ghost invariant = { λ r. r.reading.spent ≡ false → IsFine r.reading.grammar };
}

impl SolutionReader {
    /// Before the first byte of a text of a solution for this problem. No memory is taken.
    pub fn new(alloc: Global, problem: &Problem) -> SolutionReader
        ensures at { IsAt result problem.now [] }
        ensures none { result.fed ≡ 0 }
    {
        let state = SolutionState::new(alloc, problem.wires(), problem.nets());
        SolutionReader {
            reading: Reading::new(state, LARGEST_NUMBER),
        }
    }

    /// How many bytes were fed.
    pub fn fed(&self) -> u64
        ensures { result ≡ self.now.fed }
    {
        self.reading.fed()
    }

    /// Takes the next piece of a text, of which at most one byte more than the longest is fed. After a want
    /// of memory the reader is spent, and answers so from then on.
    pub fn feed(&mut self, piece: &[u8]) -> Result<(), AllocError>
        requires { self.old.fed + length piece.now ≤ most_bytes + 1 }
        ensures at { OnOk result ((board : Board) (text : List ℕ) → IsAt self.old board text
            → IsAt self.new board (text ++ piece.now)) }
        ensures fed { OnOk result (self.new.fed ≡ self.old.fed + length piece.now) }
        ensures spent { OnErr result (IsTrue self.new.spent) }
        ensures stays { self.old.spent ≡ true → result ≡ Err alloc_error }
    {
        self.reading.feed(piece)?;
        Ok(())
    }

    /// Ends the text, and answers what it says. A reader that is spent answers NoMemory.
    pub fn end(self) -> Result<Solution, SolutionFault>
        ensures stays { self.spent ≡ true → result ≡ Err NoMemory }
        ensures ok { IfOk result (λ solution. (board : Board) (text : List ℕ) → IsAt self board text
            → solution_of board text ≡ Ok solution) }
        ensures for_problem { IfOk result (λ solution. (board : Board) (text : List ℕ) → IsAt self board text
            → IsFor board solution) }
        ensures fault { IfErr result (λ fault. (board : Board) (text : List ℕ) → IsAt self board text
            → IsFaultOf fault (solution_of board text)) }
    {
        let most = MAX_SOLUTION_BYTES as u64;
        let (state, end) = self.reading.finish(most, SolutionKind::TooLong)?;
        Ok(state.finish(end)?)
    }
}
