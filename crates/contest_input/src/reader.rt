//! A board text that comes in pieces.
ghost use Rattle.std.specs.Prelude.{◌≡◌, ◌+◌, ◌≤◌, ◌++◌, ℕ, List, [], length, IfOk, IfErr, OnOk, OnErr, IsTrue, Ok, Err, alloc_error, true, false};
ghost use Rattle.tdm_lines.specs.Refusals.{IsFaultOf};
ghost use Rattle.contest_input.specs.BoardText.{board_of, most_bytes};
ghost use Rattle.contest_input.specs.Reader.{IsAt};
ghost use Rattle.tdm_lines.specs.declared.refusal.ReadingFault.TheVariants.{NoMemory};

use crate::fault::BoardFault;
use crate::kind::BoardKind;
use crate::roles::BoardState;
use crate::{MAX_BOARD_BYTES, MAX_BOARD_NUMBER};
use std::alloc::{AllocError, Global};
use std::marker::Model;
use tdm_lines::Reading;
use tdm_problem::Problem;

/// Reads a board text that comes in pieces of any cut.
#[derive(Drop)]
pub struct BoardReader {
    reading: Reading<BoardState>,
}

impl Model for BoardReader {
    ghost use Rattle.std.specs.Prelude.{◌≡◌, false};
    ghost use Rattle.tdm_lines.specs.declared.reading.Reading.{Reading};
    ghost use Rattle.contest_input.specs.declared.roles.BoardState.{BoardState};
    ghost use Rattle.contest_input.specs.Roles.{IsFine};

    ghost Value = { Reading BoardState };

    ghost view = { λ r. r.reading };

    ghost invariant = { λ r. r.reading.spent ≡ false → IsFine r.reading.grammar };
}

impl BoardReader {
    /// Before the first byte. No memory is taken.
    pub fn new(alloc: Global) -> BoardReader
        ensures at { IsAt result [] }
        ensures none { result.fed ≡ 0 }
    {
        BoardReader {
            reading: Reading::new(BoardState::new(alloc), MAX_BOARD_NUMBER),
        }
    }

    /// How many bytes were fed.
    pub fn fed(&self) -> u64
        ensures { result ≡ self.now.fed }
    {
        self.reading.fed()
    }

    /// Takes the next piece of a text, of which at most one byte more than the longest is fed. After a want
    /// of memory the reader is spent, and answers so from then on.
    pub fn feed(&mut self, piece: &[u8]) -> Result<(), AllocError>
        requires { self.old.fed + length piece.now ≤ most_bytes + 1 }
        ensures at { OnOk result ((text : List ℕ) → IsAt self.old text → IsAt self.new (text ++ piece.now)) }
        ensures fed { OnOk result (self.new.fed ≡ self.old.fed + length piece.now) }
        ensures spent { OnErr result (IsTrue self.new.spent) }
        ensures stays { self.old.spent ≡ true → result ≡ Err alloc_error }
    {
        self.reading.feed(piece)?;
        Ok(())
    }

    /// Ends the text, and answers what it says. A reader that is spent answers NoMemory.
    pub fn end(self) -> Result<Problem, BoardFault>
        ensures stays { self.spent ≡ true → result ≡ Err NoMemory }
        ensures board { IfOk result (λ problem. (text : List ℕ) → IsAt self text
            → board_of text ≡ Ok problem) }
        ensures refused { IfErr result (λ fault. (text : List ℕ) → IsAt self text
            → IsFaultOf fault (board_of text)) }
    {
        let most = MAX_BOARD_BYTES as u64;
        let (state, end) = self.reading.finish(most, BoardKind::TooLong)?;
        Ok(state.finish(end)?)
    }
}
