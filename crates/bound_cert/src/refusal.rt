//! Why a text is no certificate.
ghost use Rattle.std.specs.Prelude.{◌≡◌};
ghost use Rattle.bound_cert.specs.CertKinds.{name_of};

use tdm_lines::{ReadingFault, Refusal, RefusalKind, TokenFault};

/// What is wrong with a text that is no certificate.
///
/// Of the kinds that hold of a line, the earlier one here is named. But a line behind the last one is
/// ExtraLine, whatever it holds, and a text of too many bytes is TooLong, whatever its lines hold.
#[derive(Clone, Copy, Debug, PartialEq, Eq)]
pub enum CertTextKind {
    /// No line of the text has a token.
    NoHeader,
    /// Some token of the line is not one or more decimal digits.
    BadNumber,
    /// Some number of the line is above 2^60 - 1.
    NumberTooLarge,
    /// The line has another number of tokens than its place asks for.
    WrongCount,
    /// The header's version is neither 1 nor 4.
    BadVersion,
    /// The header's kind is neither 1 nor 2.
    BadKind,
    /// The header's unit is one that its kind cannot have: other than 0 for kind 1, 0 or above 2^20 for kind
    /// 2.
    BadUnit,
    /// The header has more than 4,096 potentials, or some where the board has no FPGAs or the version is 4.
    CountLimit,
    /// A weight is above 2^40.
    WeightLimit,
    /// A length is above 2^48.
    LengthLimit,
    /// A net chooses a potential that is not there.
    UnknownPotential,
    /// The text ends before its last line.
    MissingLine,
    /// A line stands after the last one.
    ExtraLine,
    /// The text has more than 2^30 bytes.
    TooLong,
}

impl CertTextKind {
    /// The kind's name, as reports print it.
    pub fn name(self) -> &'static str
        ensures { result.now ≡ name_of self }
    {
        match self {
            CertTextKind::NoHeader => "NoHeader",
            CertTextKind::BadNumber => "BadNumber",
            CertTextKind::NumberTooLarge => "NumberTooLarge",
            CertTextKind::WrongCount => "WrongCount",
            CertTextKind::BadVersion => "BadVersion",
            CertTextKind::BadKind => "BadKind",
            CertTextKind::BadUnit => "BadUnit",
            CertTextKind::CountLimit => "CountLimit",
            CertTextKind::WeightLimit => "WeightLimit",
            CertTextKind::LengthLimit => "LengthLimit",
            CertTextKind::UnknownPotential => "UnknownPotential",
            CertTextKind::MissingLine => "MissingLine",
            CertTextKind::ExtraLine => "ExtraLine",
            CertTextKind::TooLong => "TooLong",
        }
    }
}

impl RefusalKind for CertTextKind {
    ghost use Rattle.bound_cert.specs.CertKinds.{of_token};

    ghost of_token = { of_token };

    fn of_token(fault: TokenFault) -> CertTextKind {
        match fault {
            TokenFault::BadNumber => CertTextKind::BadNumber,
            TokenFault::NumberTooLarge => CertTextKind::NumberTooLarge,
        }
    }
}

/// The first fault of a certificate text. The line is 0 for TooLong.
pub type CertRefusal = Refusal<CertTextKind>;

/// Why reading a certificate gave none.
pub type CertFault = ReadingFault<CertTextKind>;
