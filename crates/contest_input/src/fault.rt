//! What reading a board text answers in place of a board.
use crate::kind::BoardKind;
use tdm_lines::{ReadingFault, Refusal};

/// The first fault of a board text. The line is 0 for TooLong.
pub type BoardRefusal = Refusal<BoardKind>;

/// Why a board text gave no board.
pub type BoardFault = ReadingFault<BoardKind>;
