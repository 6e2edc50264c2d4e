//! Decimal text without allocation.
ghost use Rattle.std.specs.Prelude.{◌≡◌, ◌<◌, ◌≤◌, length, slice_index, IsTrue};
ghost use Rattle.tdm_lines.specs.Digits.{digits};
ghost use Rattle.tdm_lines.specs.Tokens.{is_number, value};

use itoa::Buffer;
use std::marker::Model;

/// The digits of `u128::MAX`.
const MOST_DIGITS: usize = 39;

/// The decimal digits of a number, from `decimal`.
#[derive(Drop)]
pub struct Digits {
    bytes: [u8; MOST_DIGITS],
    len: usize,
}

impl Model for Digits {
    ghost use Rattle.std.specs.Prelude.{List, ℕ, take, ◌≤◌};

    ghost Value = { List ℕ };

    ghost view = { λ d. take d.len d.bytes };

    ghost invariant = { λ d. d.len ≤ 39 };
}

/// The decimal digits of `n`, without leading zeros. Nothing is allocated.
pub fn decimal(n: u128) -> Digits
    ensures digits { result ≡ digits n }
    ensures number { IsTrue (is_number result) }
    ensures reads_back { value result ≡ n }
    ensures no_leading_zero { 0 < n → 48 < slice_index result 0 }
    ensures short { length result ≤ 39 }
{
    Digits::copy_of(Buffer::new().format(n).as_bytes())
}

impl Digits {
    /// A text of digits, copied.
    fn copy_of(text: &[u8]) -> Digits
        requires { length text.now ≤ 39 }
        ensures { result ≡ text.now }
    {
        let mut bytes = [0; MOST_DIGITS];
        bytes[..text.len()].copy_from_slice(text);
        Digits {
            bytes,
            len: text.len(),
        }
    }

    /// The digits as ASCII text.
    pub fn as_bytes(&self) -> &[u8]
        ensures { result.now ≡ self.now }
    {
        &self.bytes[..self.len]
    }
}
