//! One token, and one piece of the text.
ghost use Rattle.std.specs.Prelude.{◌≡◌, ℕ, ◌+◌, ◌*◌, ◌≤◌, ◌<◌, ◌++◌, [], ◌∷◌, length, drop, IfOk, IsTrue, IsFalse, nat_lt, slice_index, slice_range, List};
ghost use Rattle.tdm_lines.specs.Lines.{NumberTooLarge};
ghost use Rattle.tdm_lines.specs.Tokens.{is_blank};
ghost use Rattle.tdm_lines.specs.Scan.{is_token_byte, reading_of, first_tokens, after_first_line, SameAhead, BeginsWith, IsReadOf, worse_of};

use crate::line::TokenFault;
use std::alloc::AllocError;

/// A token: where it ends, and its number.
#[derive(Clone, Copy)]
struct Token {
    end: usize,
    reading: Result<u64, TokenFault>,
}

/// A piece of the text: where the next one begins, whether it has a token, and what is wrong with
/// its tokens.
#[derive(Clone, Copy)]
pub(crate) struct Piece {
    pub(crate) next: usize,
    pub(crate) has_token: bool,
    pub(crate) fault: Option<TokenFault>,
}

/// Whether the byte is part of a token: neither a blank nor a line feed.
#[inline]
pub(crate) fn is_token_byte(byte: u8) -> bool
    ensures { result ≡ is_token_byte byte }
{
    !matches!(byte, b'\n' | b' ' | b'\t' | b'\r')
}

/// Whether the byte is a blank: a space, a tab or a carriage return.
#[inline]
fn is_blank(byte: u8) -> bool
    ensures { result ≡ is_blank byte }
{
    matches!(byte, b' ' | b'\t' | b'\r')
}

/// A number with one more digit.
#[inline]
fn with_digit(before: u64, digit: u8, max: u64) -> Result<u64, TokenFault>
    ensures fits { before * 10 + digit ≤ max → result ≡ Ok (before * 10 + digit) }
    ensures too_large { max < before * 10 + digit → result ≡ Err NumberTooLarge }
{
    let value = before as u128 * 10 + digit as u128;
    if value <= max as u128 {
        Ok(value as u64)
    } else {
        Err(TokenFault::NumberTooLarge)
    }
}

/// The reading of a token that has one more byte.
#[inline]
pub(crate) fn extend(
    reading: Result<u64, TokenFault>,
    byte: u8,
    max: u64,
) -> Result<u64, TokenFault>
    ensures { (token : List ℕ) → reading ≡ reading_of max token →
        result ≡ reading_of max (token ++ byte ∷ []) }
{
    if !byte.is_ascii_digit() {
        return Err(TokenFault::BadNumber);
    }
    match reading {
        Ok(before) => with_digit(before, byte - b'0', max),
        Err(fault) => Err(fault),
    }
}

/// The place of the first byte from `at` on that is not blank.
fn skip_blanks(bytes: &[u8], at: usize) -> usize
    requires { at ≤ length bytes.now }
    ensures from { at ≤ result }
    ensures within { result ≤ length bytes.now }
    ensures same { SameAhead (drop at bytes.now) (drop result bytes.now) }
    ensures stops { result < length bytes.now → IsFalse (is_blank (slice_index bytes.now result)) }
{
    let mut place = at;
    while place < bytes.len() && is_blank(bytes[place]) {
        place += 1;
    }
    place
}

/// The token that begins at `at`.
fn read_token(bytes: &[u8], at: usize, max: u64) -> Token
    requires within { at < length bytes.now }
    requires begins { IsTrue (is_token_byte (slice_index bytes.now at)) }
    ensures from { at < result.end }
    ensures within { result.end ≤ length bytes.now }
    ensures token { BeginsWith (drop at bytes.now)
        (slice_range bytes.now at result.end) (drop result.end bytes.now) }
    ensures reading { result.reading ≡ reading_of max (slice_range bytes.now at result.end) }
{
    let mut end = at;
    let mut reading = Ok(0);
    while end < bytes.len() && is_token_byte(bytes[end]) {
        reading = extend(reading, bytes[end], max);
        end += 1;
    }
    Token { end, reading }
}

/// The worse of two faults.
pub(crate) fn worse(fault: Option<TokenFault>, found: TokenFault) -> TokenFault
    ensures { result ≡ worse_of fault found }
{
    match fault {
        Some(TokenFault::BadNumber) => TokenFault::BadNumber,
        _ => found,
    }
}

/// Adds one token's number or fault to those of the tokens before it.
fn add_reading(
    fault: Option<TokenFault>,
    reading: Result<u64, TokenFault>,
    numbers: &mut Vec<u64>,
) -> Result<Option<TokenFault>, AllocError>
    ensures added { IfOk result (λ r. (max : ℕ) (done : List (List ℕ)) (token : List ℕ) →
        IsReadOf max done fault numbers.old.items → reading ≡ reading_of max token →
        IsReadOf max (done ++ token ∷ []) r numbers.new.items) }
{
    match reading {
        Ok(number) => {
            if fault.is_none() {
                numbers.push(number)?;
            }
            Ok(fault)
        }
        Err(found) => {
            numbers.clear();
            Ok(Some(worse(fault, found)))
        }
    }
}

/// The piece that begins at `at`, with its numbers.
pub(crate) fn read_piece(
    bytes: &[u8],
    at: usize,
    max: u64,
    numbers: &mut Vec<u64>,
) -> Result<Piece, AllocError>
    requires { at < length bytes.now }
    ensures from { IfOk result (λ piece. at < piece.next) }
    ensures next { IfOk result (λ piece.
        drop piece.next bytes.now ≡ after_first_line (drop at bytes.now)) }
    ensures token { IfOk result (λ piece.
        piece.has_token ≡ nat_lt 0 (length (first_tokens (drop at bytes.now)))) }
    ensures read { IfOk result (λ piece.
        IsReadOf max (first_tokens (drop at bytes.now)) piece.fault numbers.new.items) }
{
    numbers.clear();
    let mut fault = None;
    let mut has_token = false;
    let mut place = skip_blanks(bytes, at);
    while place < bytes.len() && bytes[place] != b'\n' {
        let token = read_token(bytes, place, max);
        fault = add_reading(fault, token.reading, numbers)?;
        has_token = true;
        place = skip_blanks(bytes, token.end);
    }
    Ok(Piece {
        next: place + 1,
        has_token,
        fault,
    })
}
