//! What the numbers of a line say.
ghost use Rattle.std.specs.Prelude.{◌≡◌, ◌≤◌, length, All, Ok, IfOk};
ghost use Rattle.bound_cert.specs.CertReading.{number_said, potential_said};
ghost use Rattle.tdm_lines.specs.Refusals.{Leads};
ghost use Rattle.bound_cert.specs.Limits.{most_potential_value};

use crate::potential::Potential;
use crate::refusal::{CertFault, CertTextKind};
use std::alloc::Global;
use tdm_lines::refused;

/// The number of a line that has one, at most the limit.
pub(crate) fn number_said(
    above: CertTextKind,
    limit: u64,
    line: u32,
    numbers: &[u64],
) -> Result<u64, CertFault>
    ensures said { Leads result (number_said above limit line numbers.now) Ok }
    ensures within { IfOk result (λ n. n ≤ limit) }
{
    match numbers {
        [n] => {
            if *n > limit {
                return Err(refused(above, line));
            }
            Ok(*n)
        }
        _ => Err(refused(CertTextKind::WrongCount, line)),
    }
}

/// The potential of a line that has a value for each of so many FPGAs.
pub(crate) fn potential_said(
    alloc: Global,
    fpgas: u32,
    line: u32,
    numbers: &[u64],
) -> Result<Potential, CertFault>
    requires { All (λ n. n ≤ most_potential_value) numbers.now }
    ensures said { Leads result (potential_said fpgas line numbers.now) Ok }
    ensures count { IfOk result (λ potential. length potential ≡ fpgas) }
    ensures within { IfOk result (All (λ v. v ≤ most_potential_value)) }
{
    if numbers.len() != fpgas as usize {
        return Err(refused(CertTextKind::WrongCount, line));
    }
    Ok(Potential::new(numbers.to_vec(alloc)?))
}
