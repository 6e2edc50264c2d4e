//! The tokens and lines of a text whose bytes come one at a time.
ghost use Rattle.std.specs.Prelude.{◌≡◌, ◌+◌, ◌<◌, ◌≤◌, ◌==◌, ◌++◌, ℕ, List, [], ◌∷◌, None, if◌then◌else◌, IsTrue, IsFalse, length, slice_index, slice_range};
ghost use Rattle.std.specs.List.{list_all};
ghost use Rattle.tdm_lines.specs.Pending.{StandsFor, end_of, ending, reading_before};
ghost use Rattle.tdm_lines.specs.Scan.{is_token_byte};

use crate::line::TokenFault;
use crate::scan::{extend, is_token_byte};
use std::marker::Model;

/// What a token is, once it is known to end.
#[derive(Clone, Copy, PartialEq, Eq, Debug)]
pub enum TokenEnd {
    /// A number, at most the largest.
    Number(u64),
    /// It is not one or more decimal digits.
    Bad,
    /// It is a number above the largest.
    Large,
}

/// What a byte ends.
#[derive(Clone, Copy, PartialEq, Eq, Debug)]
pub struct ScanStep {
    /// The token that ends before the byte, if one does.
    pub token: Option<TokenEnd>,
    /// Whether the byte is a line feed, which ends its line.
    pub line_end: bool,
}

/// Where a text that comes byte by byte stands: in which line, and in which token, of which it keeps the
/// number alone. It takes no memory.
#[derive(Clone, Copy)]
pub struct Scan {
    max: u64,
    line: u32,
    pending: Option<TokenEnd>,
}

impl Model for Scan {
    ghost use Rattle.tdm_lines.specs.Pending.{Scanned};

    ghost Value = { Scanned };

    ghost view = { λ s. record { max = s.max; line = s.line; pending = s.pending } };

    ghost inverse = { λ s. record { max = s.max; line = s.line; pending = s.pending } };
}

/// What a token is that was read so.
#[inline]
fn end_of(reading: Result<u64, TokenFault>) -> TokenEnd
    ensures { result ≡ end_of reading }
{
    match reading {
        Ok(number) => TokenEnd::Number(number),
        Err(TokenFault::BadNumber) => TokenEnd::Bad,
        Err(TokenFault::NumberTooLarge) => TokenEnd::Large,
    }
}

/// The reading of a token so far.
#[inline]
fn reading_before(pending: Option<TokenEnd>) -> Result<u64, TokenFault>
    ensures { result ≡ reading_before pending }
{
    match pending {
        None => Ok(0),
        Some(TokenEnd::Number(number)) => Ok(number),
        Some(TokenEnd::Bad) => Err(TokenFault::BadNumber),
        Some(TokenEnd::Large) => Err(TokenFault::NumberTooLarge),
    }
}

/// What a token is with one more byte.
#[inline]
fn with_byte(pending: Option<TokenEnd>, byte: u8, max: u64) -> Option<TokenEnd>
    ensures { (token : List ℕ) → pending ≡ ending max token → result ≡ ending max (token ++ byte ∷ []) }
{
    Some(end_of(extend(reading_before(pending), byte, max)))
}

impl Scan {
    /// Before the first byte of a text where numbers are at most `max`.
    pub fn new(max: u64) -> Scan
        ensures max { result.max ≡ max }
        ensures stands { StandsFor result [] }
    {
        Scan {
            max,
            line: 1,
            pending: None,
        }
    }

    /// Takes the next byte.
    #[inline]
    pub fn push(&mut self, byte: u8) -> ScanStep
        requires { self.old.line < 4294967295 }
        ensures token { result.token ≡ (if is_token_byte byte then None else self.old.pending) }
        ensures line_end { result.line_end ≡ (byte == 10) }
        ensures stands { (text : List ℕ) → StandsFor self.old text → StandsFor self.new (text ++ byte ∷ []) }
        ensures line { self.new.line ≡ self.old.line + (if byte == 10 then 1 else 0) }
        ensures max { self.new.max ≡ self.old.max }
    {
        if is_token_byte(byte) {
            self.pending = with_byte(self.pending, byte, self.max);
            return ScanStep {
                token: None,
                line_end: false,
            };
        }
        let token = self.finish();
        let line_end = byte == b'\n';
        if line_end {
            self.line += 1;
        }
        ScanStep { token, line_end }
    }

    /// Takes the bytes of a token that stand from `at` on, where any do, and answers where they end. It is
    /// the same as to push each of them.
    #[inline]
    pub fn push_token(&mut self, bytes: &[u8], at: usize) -> usize
        requires { at ≤ length bytes.now }
        ensures from { at ≤ result }
        ensures within { result ≤ length bytes.now }
        ensures token { IsTrue (list_all is_token_byte (slice_range bytes.now at result)) }
        ensures ends { result < length bytes.now → IsFalse (is_token_byte (slice_index bytes.now result)) }
        ensures stands { (text : List ℕ) → StandsFor self.old text
            → StandsFor self.new (text ++ slice_range bytes.now at result) }
        ensures line { self.new.line ≡ self.old.line }
        ensures max { self.new.max ≡ self.old.max }
    {
        let mut end = at;
        let mut reading = reading_before(self.pending);
        while end < bytes.len() && is_token_byte(bytes[end]) {
            reading = extend(reading, bytes[end], self.max);
            end += 1;
        }
        if at < end {
            self.pending = Some(end_of(reading));
        }
        end
    }

    /// Ends the token that the text ends in, if it ends in one.
    #[inline]
    pub fn finish(&mut self) -> Option<TokenEnd>
        ensures token { result ≡ self.old.pending }
        ensures none_left { self.new ≡ record self.old { pending = None } }
    {
        let token = self.pending;
        self.pending = None;
        token
    }

    /// The number of the line in progress, from 1.
    pub fn line(&self) -> u32
        ensures { result ≡ self.now.line }
    {
        self.line
    }
}
