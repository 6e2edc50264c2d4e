//! The lines of a text, one at a time.
ghost use Rattle.std.specs.Prelude.{◌≡◌, [], ◌∷◌, ◌≤◌, ◌^◌, length, All, IfOk, IfSome, IfNone, OnErr};
ghost use Rattle.tdm_lines.specs.Lines.{lines};

use crate::line::TokenFault;
use crate::scan::read_piece;
use std::alloc::AllocError;
use std::marker::Model;

/// A line that a cursor found. Its numbers stand where the cursor was told to put them.
#[derive(Clone, Copy, PartialEq, Eq, Debug)]
pub struct FoundLine {
    /// Which piece of the text it is, from 1.
    pub number: u32,
    /// What is wrong with it, if anything.
    pub fault: Option<TokenFault>,
}

/// Reads the lines of a text in order, in one pass, with no memory of its own.
///
/// Contracts see it as the lines that are still to be read, and the largest number that a line may
/// hold.
#[derive(Drop)]
pub struct LineCursor<'a> {
    bytes: &'a [u8],
    at: usize,
    line: u32,
    max: u64,
}

impl<'a> Model for LineCursor<'a> {
    ghost use Rattle.std.specs.Prelude.{length, drop, ◌≤◌, ◌<◌, ◌+◌, ◌^◌};
    ghost use Rattle.tdm_lines.specs.Lines.{Unread, lines_from, pieces};

    ghost Value = { Unread };

    ghost view = { λ c. record {
      max = c.max;
      lines = lines_from c.max c.line (pieces (drop c.at c.bytes.now));
    } };

    ghost invariant = { λ c. c.line + length c.bytes.now < 2 ^ 32 + c.at };
}

impl<'a> LineCursor<'a> {
    /// A cursor before the first line of a text of at most 2^30 bytes, where numbers are at most
    /// `max`.
    pub fn new(bytes: &'a [u8], max: u64) -> LineCursor<'a>
        requires { length bytes.now ≤ 2 ^ 30 }
        ensures { result ≡ record { max = max; lines = lines max bytes.now } }
    {
        LineCursor {
            bytes,
            at: 0,
            line: 1,
            max,
        }
    }

    /// Reads the next line and puts its numbers, or nothing where it has a fault, into `numbers` in
    /// place of what stood there. Answers None, and empties `numbers`, where no line is left.
    ///
    /// Where memory for the numbers is lacking, the line is still to be read, and `numbers` is empty.
    pub fn next_line(&mut self, numbers: &mut Vec<u64>) -> Result<Option<FoundLine>, AllocError>
        ensures found { IfOk result (λ line. IfSome line (λ f. self.old.lines ≡
            record { number = f.number; fault = f.fault; numbers = numbers.new.items } ∷ self.new.lines)) }
        ensures none_left { IfOk result (λ line. IfNone line (self.old.lines ≡ [])) }
        ensures still_none { IfOk result (λ line. IfNone line (self.new ≡ self.old)) }
        ensures none_read { IfOk result (λ line. IfNone line (numbers.new.items ≡ [])) }
        ensures within { IfOk result (λ _. All (λ n. n ≤ self.old.max) numbers.new.items) }
        ensures max { self.new.max ≡ self.old.max }
        ensures err { OnErr result (self.new ≡ self.old) }
        ensures emptied { OnErr result (numbers.new.items ≡ []) }
    {
        while self.at < self.bytes.len() {
            let piece = match read_piece(self.bytes, self.at, self.max, numbers) {
                Ok(piece) => piece,
                Err(lack) => {
                    numbers.clear();
                    return Err(lack);
                }
            };
            let number = self.line;
            self.at = piece.next;
            self.line += 1;
            if piece.has_token {
                return Ok(Some(FoundLine {
                    number,
                    fault: piece.fault,
                }));
            }
        }
        numbers.clear();
        Ok(None)
    }
}
