//! The loop over the bytes of a text.
ghost use Rattle.std.specs.Prelude.{◌≡◌, ◌+◌, ◌<◌, ◌≤◌, ◌^◌, ◌++◌, ℕ, List, [], ◌∷◌, length, take, slice_range, map, OnOk, IsFalse, None, slice_index, IfOk, false};
ghost use Rattle.tdm_lines.specs.Lines.{Line, line_after, lines, put_line};
ghost use Rattle.tdm_lines.specs.Scan.{is_token_byte, reading_of, worse_of};
ghost use Rattle.tdm_lines.specs.Pending.{end_of, unfinished, ending};
ghost use Rattle.tdm_lines.specs.SoFar.{Keeps, Stands, ended_line, token_there};

use crate::grammar::Grammar;
use crate::line::TokenFault;
use crate::pushed::{Scan, TokenEnd};
use crate::scan::worse;
use std::alloc::AllocError;

/// A text that was read so far, and what it made of its grammar's state.
///
/// Of the line in progress it keeps how many tokens it has and the first fault by the order of kinds. Its
/// numbers are kept by the grammar, as far as it wants them. After a want of memory it is spent, and answers
/// so from then on.
#[derive(Drop)]
pub struct Reading<G> {
    pub(crate) spent: bool,
    pub(crate) scan: Scan,
    pub(crate) fed: u64,
    fault: Option<TokenFault>,
    count: u32,
    pub(crate) grammar: G,
    ghost few: { (scan.line ≤ fed + 1) × (count ≤ fed) × (fed < 2 ^ 31) },
}

impl<G: Grammar + Drop> Reading<G> {
    /// The state at the beginning of a text where numbers are at most `max`.
    pub fn new(grammar: G, max: u64) -> Reading<G>
        ensures grammar { result.grammar ≡ grammar }
        ensures kept { result.spent ≡ false }
        ensures fed { result.fed ≡ 0 }
        ensures max { result.scan.max ≡ max }
        ensures stands { G.reads grammar [] → G.holds grammar []
            → Stands G.reads G.holds result.scan result.fed
            result.fault result.count result.grammar [] }
    {
        Reading {
            spent: false,
            scan: Scan::new(max),
            fed: 0,
            fault: None,
            count: 0,
            grammar,
        }
    }

    /// How many bytes were fed.
    pub fn fed(&self) -> u64
        ensures { result ≡ self.now.fed }
    {
        self.fed
    }

    /// A token ends in the line in progress, if one does.
    #[inline]
    fn token(&mut self, token: Option<TokenEnd>) -> Result<(), AllocError>
        requires fine { G.fine self.old.grammar }
        requires room { self.old.count < self.old.fed }
        ensures fine { OnOk result (G.fine self.new.grammar) }
        ensures fed { self.new.fed ≡ self.old.fed }
        ensures scan { self.new.scan ≡ self.old.scan }
        ensures sizes { OnOk result (G.sizes self.new.grammar ≡ G.sizes self.old.grammar) }
        ensures keeps { OnOk result ((max : ℕ) (done : List Line) (toks : List (List ℕ)) (bytes : List ℕ)
            → token ≡ ending max bytes
            → Keeps G.reads G.holds max self.old.fault self.old.count self.old.grammar done toks
            → Keeps G.reads G.holds max self.new.fault self.new.count self.new.grammar done
            (toks ++ token_there bytes)) }
    {
        match token {
            None => return Ok(()),
            Some(TokenEnd::Number(number)) => {
                if self.fault.is_none() {
                    self.grammar.number(self.count, number)?;
                }
            }
            Some(TokenEnd::Bad) => self.fault = Some(worse(self.fault, TokenFault::BadNumber)),
            Some(TokenEnd::Large) => {
                self.fault = Some(worse(self.fault, TokenFault::NumberTooLarge));
            }
        }
        self.count += 1;
        Ok(())
    }

    /// The line in progress, which has this number, ends, and the next begins.
    #[inline]
    fn line_end(&mut self, line: u32) -> Result<(), AllocError>
        requires fine { G.fine self.old.grammar }
        ensures fine { OnOk result (G.fine self.new.grammar) }
        ensures fed { self.new.fed ≡ self.old.fed }
        ensures scan { self.new.scan ≡ self.old.scan }
        ensures sizes { OnOk result (G.sizes self.new.grammar ≡ G.sizes self.old.grammar) }
        ensures keeps { OnOk result ((max : ℕ) (done : List Line) (toks : List (List ℕ)) → max ≤ G.largest
            → Keeps G.reads G.holds max self.old.fault self.old.count self.old.grammar done toks
            → Keeps G.reads G.holds max self.new.fault self.new.count self.new.grammar
            (done ++ put_line max line toks []) []) }
    {
        if self.count == 0 {
            return Ok(());
        }
        self.grammar.line(line, self.fault, self.count)?;
        self.fault = None;
        self.count = 0;
        Ok(())
    }

    /// A blank or a line feed comes.
    #[inline]
    fn end(&mut self, byte: u8) -> Result<(), AllocError>
        requires fine { G.fine self.old.grammar }
        requires dark { IsFalse (is_token_byte byte) }
        requires room { self.old.fed + 1 < 2 ^ 31 }
        ensures fine { OnOk result (G.fine self.new.grammar) }
        ensures fed { OnOk result (self.new.fed ≡ self.old.fed + 1) }
        ensures max { OnOk result (self.new.scan.max ≡ self.old.scan.max) }
        ensures sizes { OnOk result (G.sizes self.new.grammar ≡ G.sizes self.old.grammar) }
        ensures stands { OnOk result ((text : List ℕ) → self.old.scan.max ≤ G.largest
            → Stands G.reads G.holds self.old.scan self.old.fed self.old.fault self.old.count self.old.grammar
            text
            → Stands G.reads G.holds self.new.scan self.new.fed self.new.fault self.new.count self.new.grammar
            (text ++ byte ∷ [])) }
    {
        let line = self.scan.line();
        self.fed += 1;
        let step = self.scan.push(byte);
        self.token(step.token)?;
        if !step.line_end {
            return Ok(());
        }
        self.line_end(line)?;
        Ok(())
    }

    /// The bytes of a token from `at` on come, where any do. Answers where they end.
    #[inline]
    fn run(&mut self, piece: &[u8], at: usize) -> usize
        requires within { at ≤ length piece.now }
        requires room { self.old.fed + length piece.now < 2 ^ 31 + at }
        ensures from { at ≤ result }
        ensures within { result ≤ length piece.now }
        ensures ends { result < length piece.now → IsFalse (is_token_byte (slice_index piece.now result)) }
        ensures fed { self.new.fed + at ≡ self.old.fed + result }
        ensures max { self.new.scan.max ≡ self.old.scan.max }
        ensures grammar { self.new.grammar ≡ self.old.grammar }
        ensures stands { (text : List ℕ)
            → Stands G.reads G.holds self.old.scan self.old.fed self.old.fault self.old.count self.old.grammar
            text
            → Stands G.reads G.holds self.new.scan self.new.fed self.new.fault self.new.count self.new.grammar
            (text ++ slice_range piece.now at result) }
    {
        let end = self.scan.push_token(piece, at);
        self.fed += (end - at) as u64;
        end
    }

    /// Takes the next piece of the text. After an error nothing is said of the state.
    pub(crate) fn take(&mut self, piece: &[u8]) -> Result<(), AllocError>
        requires fine { G.fine self.old.grammar }
        requires room { self.old.fed + length piece.now < 2 ^ 31 }
        ensures fine { OnOk result (G.fine self.new.grammar) }
        ensures fed { OnOk result (self.new.fed ≡ self.old.fed + length piece.now) }
        ensures max { OnOk result (self.new.scan.max ≡ self.old.scan.max) }
        ensures sizes { OnOk result (G.sizes self.new.grammar ≡ G.sizes self.old.grammar) }
        ensures stands { OnOk result ((text : List ℕ) → self.old.scan.max ≤ G.largest
            → Stands G.reads G.holds self.old.scan self.old.fed self.old.fault self.old.count self.old.grammar
            text
            → Stands G.reads G.holds self.new.scan self.new.fed self.new.fault self.new.count self.new.grammar
            (text ++ piece.now)) }
    {
        let mut at = 0;
        while at < piece.len() {
            at = self.run(piece, at);
            if at < piece.len() {
                self.end(piece[at])?;
                at += 1;
            }
        }
        Ok(())
    }

    /// Ends the text. Answers what its lines made of the grammar's state, and the number of its last line.
    pub(crate) fn close(mut self) -> Result<(G, u32), AllocError>
        requires fine { G.fine self.grammar }
        requires room { self.fed + 1 < 2 ^ 31 }
        ensures fine { IfOk result (λ r. G.fine r.0) }
        ensures sizes { IfOk result (λ r. G.sizes r.0 ≡ G.sizes self.grammar) }
        ensures read { IfOk result (λ r. (text : List ℕ) → self.scan.max ≤ G.largest
            → Stands G.reads G.holds self.scan self.fed self.fault self.count self.grammar text
            → G.reads r.0 (lines self.scan.max text)) }
        ensures line { IfOk result (λ r. (text : List ℕ)
            → Stands G.reads G.holds self.scan self.fed self.fault self.count self.grammar text
            → r.1 ≡ line_after text) }
    {
        let line = self.scan.line();
        let token = self.scan.finish();
        self.fed += 1;
        self.token(token)?;
        self.line_end(line)?;
        Ok((self.grammar, line))
    }
}
