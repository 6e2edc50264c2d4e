//! What can be wrong with a board text.
ghost use Rattle.std.specs.Prelude.{◌≡◌};
ghost use Rattle.contest_input.specs.Kinds.{name_of};

/// What is wrong with a board text. Within one line the first fault of BadNumber, NumberTooLarge, WrongCount,
/// CountLimit, UnknownFpga, SelfLoop, UnknownNet and TotalLimit is the one that counts.
#[derive(Clone, Copy, Debug, PartialEq, Eq)]
pub enum BoardKind {
    /// There is no line with a token.
    NoHeader,
    /// Some token of the line is not one or more decimal digits.
    BadNumber,
    /// Some number of the line is above 4,294,967,295.
    NumberTooLarge,
    /// The header has not four numbers, or a wire line not two.
    WrongCount,
    /// The header asks for more FPGAs, wires, nets or groups than a board may have.
    CountLimit,
    /// A wire line or a net line names an FPGA that the board does not have.
    UnknownFpga,
    /// A wire line joins an FPGA with itself.
    SelfLoop,
    /// A group line names a net that the board does not have.
    UnknownNet,
    /// There are fewer lines than the header asks for, and none of them is at fault.
    MissingLine,
    /// There is a line past the last one that the header asks for.
    ExtraLine,
    /// The net lines up to this one list too many FPGAs, or the group lines up to this one too many nets.
    TotalLimit,
    /// The text has more than 2^28 bytes.
    TooLong,
}

impl BoardKind {
    /// The variant's name, as reports print it.
    pub fn name(self) -> &'static str
        ensures { result.now ≡ name_of self }
    {
        match self {
            BoardKind::NoHeader => "NoHeader",
            BoardKind::BadNumber => "BadNumber",
            BoardKind::NumberTooLarge => "NumberTooLarge",
            BoardKind::WrongCount => "WrongCount",
            BoardKind::CountLimit => "CountLimit",
            BoardKind::UnknownFpga => "UnknownFpga",
            BoardKind::SelfLoop => "SelfLoop",
            BoardKind::UnknownNet => "UnknownNet",
            BoardKind::MissingLine => "MissingLine",
            BoardKind::ExtraLine => "ExtraLine",
            BoardKind::TotalLimit => "TotalLimit",
            BoardKind::TooLong => "TooLong",
        }
    }
}
