//! Reading a whole certificate text.
ghost use Rattle.std.specs.Prelude.{◌≡◌, Ok, IfOk, IfErr};
ghost use Rattle.bound_cert.specs.Certificate.{IsCertFor};
ghost use Rattle.bound_cert.specs.CertReading.{cert_of};
ghost use Rattle.tdm_lines.specs.Refusals.{IsFaultOf};

use crate::certificate::Certificate;
use crate::reader::CertReader;
use crate::refusal::{CertFault, CertTextKind};
use std::alloc::Global;
use tdm_lines::refused;
use tdm_problem::Problem;

/// The most bytes of a certificate text, which are 2^30.
pub const MAX_CERT_BYTES: usize = 1_073_741_824;

/// Reads the text of a certificate for the problem: a header of the version, the kind, its unit and the
/// number of potentials, then a line for each weight, for each length unless the certificate is by hops, for
/// each potential and, unless nets grow, for each choice of a net.
///
/// Whether the potentials are valid is not asked. A text of more than 2^30 bytes may be cut one byte past
/// them, since it is refused all the same.
///
/// Refused where the text is no certificate for the problem, for the first line at fault and the first of the
/// [`CertTextKind`]s that holds there; but a line behind the last one is ExtraLine, whatever it holds, and a
/// text of more than 2^30 bytes is TooLong, before its lines are looked at. NoMemory where memory is wanting.
pub fn read_cert(alloc: Global, bytes: &[u8], problem: &Problem) -> Result<Certificate, CertFault>
    ensures ok { IfOk result (λ cert. cert_of problem.now bytes.now ≡ Ok cert) }
    ensures for_problem { IfOk result (IsCertFor problem.now) }
    // The fault is the refusal that the text has, or want of memory.
    ensures fault { IfErr result (λ fault. IsFaultOf fault (cert_of problem.now bytes.now)) }
{
    if bytes.len() > MAX_CERT_BYTES {
        return Err(refused(CertTextKind::TooLong, 0));
    }
    let mut reader = CertReader::new(alloc, problem);
    reader.feed(bytes)?;
    reader.end()
}
