//! The header of a certificate text.
ghost use Rattle.std.specs.Prelude.{◌≡◌, ◌≤◌, ◌<◌, true, Ok, IfOk};
ghost use Rattle.bound_cert.specs.CertReading.{grows_said, kind_said, count_said, header_said};
ghost use Rattle.tdm_lines.specs.Refusals.{Leads};
ghost use Rattle.bound_cert.specs.Certificate.{HasUnit};
ghost use Rattle.bound_cert.specs.Limits.{most_potentials};

use crate::certificate::CertKind;
use crate::limits::{MAX_POTENTIALS, MAX_UNIT};
use crate::refusal::{CertFault, CertTextKind};
use tdm_lines::refused;

/// What a header says: the kind, whether the spread of a net is its growth, and how many potentials there
/// are.
#[derive(Clone, Copy)]
pub(crate) struct Header {
    pub(crate) kind: CertKind,
    pub(crate) grows: bool,
    pub(crate) potentials: u32,
}

/// Whether the spread of a net is its growth, by the version.
fn grows_said(line: u32, version: u64) -> Result<bool, CertFault>
    ensures { Leads result (grows_said line version) Ok }
{
    match version {
        1 => Ok(false),
        4 => Ok(true),
        _ => Err(refused(CertTextKind::BadVersion, line)),
    }
}

/// The kind of this number, with a unit that it may have.
fn kind_said(line: u32, kind: u64, unit: u64) -> Result<CertKind, CertFault>
    ensures said { Leads result (kind_said line kind unit) Ok }
    ensures unit { IfOk result HasUnit }
{
    match kind {
        1 => {
            if unit == 0 {
                Ok(CertKind::Share)
            } else {
                Err(refused(CertTextKind::BadUnit, line))
            }
        }
        2 => {
            if unit == 0 || unit > MAX_UNIT {
                Err(refused(CertTextKind::BadUnit, line))
            } else {
                Ok(CertKind::Hop { unit })
            }
        }
        _ => Err(refused(CertTextKind::BadKind, line)),
    }
}

/// How many potentials there are: none where nets grow, and where they would have no value.
fn count_said(grows: bool, fpgas: u32, line: u32, count: u64) -> Result<u32, CertFault>
    ensures said { Leads result (count_said grows fpgas line count) Ok }
    ensures few { IfOk result (λ count. count ≤ most_potentials) }
    ensures some { IfOk result (λ count. 0 < count → 0 < fpgas) }
    ensures grown { IfOk result (λ count. grows ≡ true → count ≡ 0) }
{
    if count > MAX_POTENTIALS as u64 || ((grows || fpgas == 0) && count > 0) {
        return Err(refused(CertTextKind::CountLimit, line));
    }
    Ok(count as u32)
}

/// What a header of these numbers says.
pub(crate) fn header_said(fpgas: u32, line: u32, numbers: &[u64]) -> Result<Header, CertFault>
    ensures said { Leads result (header_said fpgas line numbers.now) Ok }
    ensures few { IfOk result (λ header. header.potentials ≤ most_potentials) }
    ensures some { IfOk result (λ header. 0 < header.potentials → 0 < fpgas) }
    ensures grown { IfOk result (λ header. header.grows ≡ true → header.potentials ≡ 0) }
    ensures kind { IfOk result (λ header. HasUnit header.kind) }
{
    match numbers {
        [version, kind, unit, count] => {
            let grows = grows_said(line, *version)?;
            let kind = kind_said(line, *kind, *unit)?;
            let potentials = count_said(grows, fpgas, line, *count)?;
            Ok(Header {
                kind,
                grows,
                potentials,
            })
        }
        _ => Err(refused(CertTextKind::WrongCount, line)),
    }
}
