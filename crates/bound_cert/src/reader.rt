//! A certificate text that comes in pieces.
ghost use Rattle.std.specs.Prelude.{◌≡◌, ◌+◌, ◌≤◌, ◌++◌, ℕ, List, [], length, IfOk, IfErr, OnOk, OnErr, IsTrue, Ok, Err, alloc_error, true};
ghost use Rattle.tdm_problem.specs.Board.{Board};
ghost use Rattle.bound_cert.specs.Certificate.{IsCertFor};
ghost use Rattle.bound_cert.specs.CertReading.{cert_of, most_bytes};
ghost use Rattle.tdm_lines.specs.Refusals.{IsFaultOf};
ghost use Rattle.bound_cert.specs.CertReader.{IsAt};
ghost use Rattle.tdm_lines.specs.declared.refusal.ReadingFault.TheVariants.{NoMemory};

use crate::certificate::Certificate;
use crate::limits::MAX_POTENTIAL_VALUE;
use crate::read::MAX_CERT_BYTES;
use crate::refusal::{CertFault, CertTextKind};
use crate::state::{CertState, Sizes};
use std::alloc::{AllocError, Global};
use std::marker::Model;
use tdm_lines::Reading;
use tdm_problem::Problem;

/// Reads the text of a certificate for a problem that comes in pieces of any cut.
#[derive(Drop)]
pub struct CertReader {
    reading: Reading<CertState>,
}

impl Model for CertReader {
    ghost use Rattle.std.specs.Prelude.{◌≡◌, false};
    ghost use Rattle.tdm_lines.specs.declared.reading.Reading.{Reading};
    ghost use Rattle.bound_cert.specs.declared.state.CertState.{CertState};
    ghost use Rattle.bound_cert.specs.Roles.{IsFine};

    ghost Value = { Reading CertState };

    ghost view = { λ r. r.reading };

    ghost invariant = { λ r. r.reading.spent ≡ false → IsFine r.reading.grammar };
}

impl CertReader {
    /// Before the first byte of a text of a certificate for this problem. No memory is taken.
    pub fn new(alloc: Global, problem: &Problem) -> CertReader
        ensures at { IsAt result problem.now [] }
        ensures none { result.fed ≡ 0 }
    {
        let sizes = Sizes {
            fpgas: problem.fpgas(),
            groups: problem.groups(),
            wires: problem.wires(),
            nets: problem.nets(),
        };
        CertReader {
            reading: Reading::new(CertState::new(alloc, sizes), MAX_POTENTIAL_VALUE),
        }
    }

    /// How many bytes were fed.
    pub fn fed(&self) -> u64
        ensures { result ≡ self.now.fed }
    {
        self.reading.fed()
    }

    /// Takes the next piece of a text, of which at most one byte more than the longest is fed. After a want
    /// of memory the reader is spent, and answers so from then on.
    pub fn feed(&mut self, piece: &[u8]) -> Result<(), AllocError>
        requires { self.old.fed + length piece.now ≤ most_bytes + 1 }
        ensures at { OnOk result ((board : Board) (text : List ℕ) → IsAt self.old board text
            → IsAt self.new board (text ++ piece.now)) }
        ensures fed { OnOk result (self.new.fed ≡ self.old.fed + length piece.now) }
        ensures spent { OnErr result (IsTrue self.new.spent) }
        ensures stays { self.old.spent ≡ true → result ≡ Err alloc_error }
    {
        self.reading.feed(piece)?;
        Ok(())
    }

    /// Ends the text, and answers what it says. A reader that is spent answers NoMemory.
    pub fn end(self) -> Result<Certificate, CertFault>
        ensures stays { self.spent ≡ true → result ≡ Err NoMemory }
        ensures ok { IfOk result (λ cert. (board : Board) (text : List ℕ) → IsAt self board text
            → cert_of board text ≡ Ok cert) }
        ensures for_problem { IfOk result (λ cert. (board : Board) (text : List ℕ) → IsAt self board text
            → IsCertFor board cert) }
        ensures fault { IfErr result (λ fault. (board : Board) (text : List ℕ) → IsAt self board text
            → IsFaultOf fault (cert_of board text)) }
    {
        let most = MAX_CERT_BYTES as u64;
        let (state, end) = self.reading.finish(most, CertTextKind::TooLong)?;
        Ok(state.finish(end)?)
    }
}
