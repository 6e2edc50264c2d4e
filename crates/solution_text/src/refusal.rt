//! Why a text is no solution.
ghost use Rattle.std.specs.Prelude.{◌≡◌};
ghost use Rattle.solution_text.specs.Kinds.{name_of};

use tdm_lines::{ReadingFault, Refusal, RefusalKind, TokenFault};

/// What is wrong with a text that is no solution. Of the kinds from BadNumber to RepeatedWire that a line
/// has, the earlier one is named; a line past the last one is an ExtraLine whatever it holds. TooLong comes
/// before all.
#[derive(Clone, Copy, Debug, PartialEq, Eq)]
pub enum SolutionKind {
    /// Some token of the line is not one or more decimal digits.
    BadNumber,
    /// Some number of the line is above 4,294,967,295.
    NumberTooLarge,
    /// A line that counts uses has not one number, or a line of a use has not two.
    WrongCount,
    /// The wire of a use is no wire of the board.
    UnknownWire,
    /// The wire of a use stood on an earlier line of the same net.
    RepeatedWire,
    /// The text ends before the last line of the last net.
    MissingLine,
    /// A line stands after the last line of the last net.
    ExtraLine,
    /// The text has more than 2^30 bytes.
    TooLong,
}

impl SolutionKind {
    /// The kind's name, as reports print it.
    pub fn name(self) -> &'static str
        ensures { result.now ≡ name_of self }
    {
        match self {
            SolutionKind::BadNumber => "BadNumber",
            SolutionKind::NumberTooLarge => "NumberTooLarge",
            SolutionKind::WrongCount => "WrongCount",
            SolutionKind::UnknownWire => "UnknownWire",
            SolutionKind::RepeatedWire => "RepeatedWire",
            SolutionKind::MissingLine => "MissingLine",
            SolutionKind::ExtraLine => "ExtraLine",
            SolutionKind::TooLong => "TooLong",
        }
    }
}

impl RefusalKind for SolutionKind {
    ghost use Rattle.solution_text.specs.Kinds.{of_token};

    ghost of_token = { of_token };

    fn of_token(fault: TokenFault) -> SolutionKind {
        match fault {
            TokenFault::BadNumber => SolutionKind::BadNumber,
            TokenFault::NumberTooLarge => SolutionKind::NumberTooLarge,
        }
    }
}

/// The first fault of a solution text. The line is 0 for TooLong.
pub type SolutionRefusal = Refusal<SolutionKind>;

/// Why reading a solution gave none.
pub type SolutionFault = ReadingFault<SolutionKind>;
