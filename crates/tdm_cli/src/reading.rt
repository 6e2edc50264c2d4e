//! The texts that commands read.
ghost use Rattle.std.specs.Prelude.{◌≡◌, ◌≤◌, ◌+◌, ℕ, List, [], length, take, vec_len, Ok, IfOk};
ghost use Rattle.tdm_problem.specs.Board.{Board};
ghost use Rattle.tdm_problem.specs.Routing.{Routing};
ghost use Rattle.contest_input.specs.Reader.{IsAt as IsAtBoard};
ghost use Rattle.contest_input.specs.BoardText.{board_of, most_bytes as most_board_bytes};
ghost use Rattle.solution_text.specs.Reader.{IsAt as IsAtSolution};
ghost use Rattle.solution_text.specs.Reading.{solution_of, most_bytes as most_solution_bytes};
ghost use Rattle.bound_cert.specs.Certificate.{Cert};
ghost use Rattle.bound_cert.specs.CertReader.{IsAt as IsAtCert};
ghost use Rattle.bound_cert.specs.CertReading.{cert_of, most_bytes as most_cert_bytes};
ghost use Rattle.tdm_cli.specs.Kinds.{boards, solutions, certificates};
ghost use Rattle.tdm_cli.specs.declared.reading.SolutionText.{SolutionText};
ghost use Rattle.tdm_cli.specs.declared.reading.CertText.{CertText};

use crate::status::Status;
use bound_cert::{CertFault, CertReader, CertRefusal, Certificate, MAX_CERT_BYTES};
use command_run::{TextFault, TextReader, refused};
use contest_input::{BoardFault, BoardReader, BoardRefusal, MAX_BOARD_BYTES};
use solution_text::{MAX_SOLUTION_BYTES, SolutionFault, SolutionReader, SolutionRefusal};
use std::alloc::{AllocError, Global};
use tdm_problem::{Problem, Solution};

/// The text of a board.
#[derive(Drop)]
pub struct BoardText {
    reader: BoardReader,
}

impl BoardText {
    /// Before its first byte. No memory is taken.
    pub fn new(alloc: Global) -> BoardText
        ensures at { IsAtBoard result.reader [] }
        ensures none { result.reader.fed ≡ 0 }
    {
        BoardText {
            reader: BoardReader::new(alloc),
        }
    }
}

/// A text that is accepted is within its limit, and a longer one is refused for any bytes behind one past the
/// limit.
fn long_boards_are_refused()
    ensures same { (text : List ℕ) → board_of (take (most_board_bytes + 1) text) ≡ board_of text }
    ensures within { (text : List ℕ) (board : Board)
        → board_of text ≡ Ok board → length text ≤ most_board_bytes }
{
    contest_input::a_cut_text_says_the_same();
}

impl TextReader for BoardText {
    type Status = Status;

    type Value = Problem;

    type Refusal = BoardRefusal;

    ghost kind = { λ _. boards };

    ghost limit = { λ _. most_board_bytes };

    ghost is_at = { λ it text. IsAtBoard it.reader text };

    ghost fed = { λ it. it.reader.fed };

    fn limit(&self) -> u64 {
        MAX_BOARD_BYTES as u64
    }

    fn cut(&self) {
        long_boards_are_refused();
    }

    fn feed(&mut self, piece: &[u8]) -> Result<(), AllocError> {
        self.reader.feed(piece)
    }

    fn end(self) -> Result<Problem, TextFault<BoardRefusal>> {
        match self.reader.end() {
            Ok(problem) => Ok(problem),
            Err(BoardFault::Refused(refusal)) => Err(TextFault::Refused(refusal)),
            Err(BoardFault::NoMemory) => Err(TextFault::NoMemory),
        }
    }

    fn status() -> Status {
        Status::BoardRefused
    }

    fn report(alloc: Global, refusal: BoardRefusal) -> Result<Vec<u8>, AllocError> {
        refused(alloc, b"board refused ", refusal.kind.name(), refusal.line)
    }
}

/// The text of a solution for a problem.
#[derive(Drop)]
pub struct SolutionText<'a> {
    problem: &'a Problem,
    reader: SolutionReader,
}

impl<'a> SolutionText<'a> {
    /// Before its first byte. No memory is taken.
    pub fn new(alloc: Global, problem: &'a Problem) -> SolutionText<'a>
        ensures problem { result.problem.now ≡ problem.now }
        ensures at { IsAtSolution result.reader problem.now [] }
        ensures none { result.reader.fed ≡ 0 }
    {
        SolutionText {
            problem,
            reader: SolutionReader::new(alloc, problem),
        }
    }
}

/// A text that is accepted is within its limit, and a longer one is refused for any bytes behind one past the
/// limit.
fn long_solutions_are_refused()
    ensures same { (board : Board) (text : List ℕ)
        → solution_of board (take (most_solution_bytes + 1) text) ≡ solution_of board text }
    ensures within { (board : Board) (text : List ℕ) (routing : Routing)
        → solution_of board text ≡ Ok routing → length text ≤ most_solution_bytes }
{
    solution_text::cut_text_says_the_same();
}

impl TextReader for SolutionText<'_> {
    type Status = Status;

    type Value = Solution;

    type Refusal = SolutionRefusal;

    ghost kind = { λ it. solutions it.problem.now };

    ghost limit = { λ _. most_solution_bytes };

    ghost is_at = { λ it text. IsAtSolution it.reader it.problem.now text };

    ghost fed = { λ it. it.reader.fed };

    fn limit(&self) -> u64 {
        MAX_SOLUTION_BYTES as u64
    }

    fn cut(&self) {
        long_solutions_are_refused();
    }

    fn feed(&mut self, piece: &[u8]) -> Result<(), AllocError> {
        self.reader.feed(piece)
    }

    fn end(self) -> Result<Solution, TextFault<SolutionRefusal>> {
        match self.reader.end() {
            Ok(solution) => Ok(solution),
            Err(SolutionFault::Refused(refusal)) => Err(TextFault::Refused(refusal)),
            Err(SolutionFault::NoMemory) => Err(TextFault::NoMemory),
        }
    }

    fn status() -> Status
        ensures { (it : SolutionText) → result ≡ (solutions it.problem.now).status }
    {
        Status::SolutionRefused
    }

    fn report(alloc: Global, refusal: SolutionRefusal) -> Result<Vec<u8>, AllocError>
        ensures { IfOk result (λ text. (it : SolutionText)
            → text.items ≡ (solutions it.problem.now).report refusal) }
    {
        refused(
            alloc,
            b"solution refused ",
            refusal.kind.name(),
            refusal.line,
        )
    }
}

/// The text of a certificate for a problem.
#[derive(Drop)]
pub struct CertText<'a> {
    problem: &'a Problem,
    reader: CertReader,
}

impl<'a> CertText<'a> {
    /// Before its first byte. No memory is taken.
    pub fn new(alloc: Global, problem: &'a Problem) -> CertText<'a>
        ensures problem { result.problem.now ≡ problem.now }
        ensures at { IsAtCert result.reader problem.now [] }
        ensures none { result.reader.fed ≡ 0 }
    {
        CertText {
            problem,
            reader: CertReader::new(alloc, problem),
        }
    }
}

/// A text that is accepted is within its limit, and a longer one is refused for any bytes behind one past the
/// limit.
fn long_certificates_are_refused()
    ensures same { (board : Board) (text : List ℕ)
        → cert_of board (take (most_cert_bytes + 1) text) ≡ cert_of board text }
    ensures within { (board : Board) (text : List ℕ) (cert : Cert)
        → cert_of board text ≡ Ok cert → length text ≤ most_cert_bytes }
{
    bound_cert::cut_text_says_the_same();
}

impl TextReader for CertText<'_> {
    type Status = Status;

    type Value = Certificate;

    type Refusal = CertRefusal;

    ghost kind = { λ it. certificates it.problem.now };

    ghost limit = { λ _. most_cert_bytes };

    ghost is_at = { λ it text. IsAtCert it.reader it.problem.now text };

    ghost fed = { λ it. it.reader.fed };

    fn limit(&self) -> u64 {
        MAX_CERT_BYTES as u64
    }

    fn cut(&self) {
        long_certificates_are_refused();
    }

    fn feed(&mut self, piece: &[u8]) -> Result<(), AllocError> {
        self.reader.feed(piece)
    }

    fn end(self) -> Result<Certificate, TextFault<CertRefusal>> {
        match self.reader.end() {
            Ok(cert) => Ok(cert),
            Err(CertFault::Refused(refusal)) => Err(TextFault::Refused(refusal)),
            Err(CertFault::NoMemory) => Err(TextFault::NoMemory),
        }
    }

    fn status() -> Status
        ensures { (it : CertText) → result ≡ (certificates it.problem.now).status }
    {
        Status::CertRefused
    }

    fn report(alloc: Global, refusal: CertRefusal) -> Result<Vec<u8>, AllocError>
        ensures { IfOk result (λ text. (it : CertText)
            → text.items ≡ (certificates it.problem.now).report refusal) }
    {
        refused(
            alloc,
            b"certificate refused ",
            refusal.kind.name(),
            refusal.line,
        )
    }
}
