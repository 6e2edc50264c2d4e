//! The definitions, computed on short texts.
ghost use Rattle.std.specs.Prelude.{◌≡◌, [], ◌∷◌, codes, None, Some};
ghost use Rattle.tdm_lines.specs.Digits.{digits};
ghost use Rattle.tdm_lines.specs.Lines.{BadNumber, NumberTooLarge, line_after, lines};
ghost use Rattle.tdm_lines.specs.Pending.{ending, unfinished};
ghost use Rattle.tdm_lines.specs.declared.pushed.TokenEnd.TheVariants.{Bad, Large, Number};
ghost use Rattle.tdm_lines.specs.Tokens.{tokens, value};
ghost use Rattle.tdm_lines.specs.Written.{line_text};

/// Runs of bytes other than blanks are tokens, and their digits are a number.
fn tokens_stand_between_blanks()
    ensures tokens { tokens (codes " 1\t02 \r") ≡ codes "1" ∷ codes "02" ∷ [] }
    ensures none { tokens (codes " \t") ≡ [] }
    ensures value { value (codes "0042") ≡ 42 }
{}

/// A line keeps the number of its piece, and a piece without a token is none.
fn lines_have_a_token_each()
    ensures mixed { lines 4294967295 (codes "1 02\r\n \nx")
        ≡ record { number = 1; fault = None; numbers = 1 ∷ 2 ∷ [] }
        ∷ record { number = 3; fault = Some BadNumber; numbers = [] } ∷ [] }
    ensures above { lines 5 (codes "5\n6\n6 -1\n")
        ≡ record { number = 1; fault = None; numbers = 5 ∷ [] }
        ∷ record { number = 2; fault = Some NumberTooLarge; numbers = [] }
        ∷ record { number = 3; fault = Some BadNumber; numbers = [] } ∷ [] }
    ensures none { lines 5 (codes "") ≡ [] }
{}

/// A text may end in a token, of which it is known what it is if nothing comes after it.
fn the_last_token_may_be_unfinished()
    ensures open { unfinished (codes "1\n2 02") ≡ codes "02" }
    ensures ended { unfinished (codes "1 02\t") ≡ [] }
    ensures largest { ending 9 (codes "09") ≡ Some (Number 9) }
    ensures larger { ending 9 (codes "10") ≡ Some Large }
    ensures bad { ending 9 (codes "9x") ≡ Some Bad }
    ensures nothing { ending 9 (codes "") ≡ None }
{}

/// The number of the last piece is one more than that of the line feeds.
fn the_last_piece_may_be_empty()
    ensures empty { line_after (codes "") ≡ 1 }
    ensures ended { line_after (codes "a\n") ≡ 2 }
    ensures open { line_after (codes "\n\r\n\n1") ≡ 4 }
{}

/// Numbers are written without leading zeros, with single spaces.
fn numbers_are_written_in_decimal()
    ensures nothing { digits 0 ≡ codes "0" }
    ensures ten { digits 10 ≡ codes "10" }
    ensures line { line_text (0 ∷ 4294967294 ∷ []) ≡ codes "0 4294967294\n" }
{}
