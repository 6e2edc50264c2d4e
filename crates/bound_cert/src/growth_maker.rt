//! Certificates by growth.
ghost use Rattle.std.specs.Prelude.{◌≡◌, ◌<◌, ◌≤◌, length, All, IfOk};
ghost use Rattle.bound_cert.specs.declared.certificate.CertKind.TheVariants.{Share};
ghost use Rattle.bound_cert.specs.Certificate.{IsCert, IsCertFor};
ghost use Rattle.tdm_problem.specs.Limits.{most_weight};
ghost use Rattle.bound_cert.specs.Limits.{most_length};
ghost use Rattle.bound_cert.specs.Makers.{growing_cert, group_growing_cert};
ghost use Rattle.bound_cert.specs.Valid.{IsValid};

use crate::certificate::{CertKind, Certificate};
use crate::repeated::repeated;
use std::alloc::{AllocError, Global};
use tdm_problem::Problem;

/// The certificate by shares and by growth with these weights of the groups, each at most
/// [`MAX_WEIGHT`](crate::MAX_WEIGHT), and these lengths of the wires, each at most
/// [`MAX_LENGTH`](crate::MAX_LENGTH). The only error is want of memory.
pub fn growing_share_cert(
    alloc: Global,
    problem: &Problem,
    weights: &[u64],
    lengths: &[u64],
) -> Result<Certificate, AllocError>
    requires weights_count { length weights.now ≡ length problem.now.groups }
    requires weights_small { All (λ w. w ≤ most_weight) weights.now }
    requires lengths_count { length lengths.now ≡ length problem.now.wires }
    requires lengths_small { All (λ l. l ≤ most_length) lengths.now }
    ensures made { IfOk result (λ cert. cert ≡ growing_cert problem.now Share weights.now lengths.now) }
    ensures for_problem { IfOk result (IsCertFor problem.now) }
    ensures within { IfOk result IsCert }
    ensures valid { IfOk result (IsValid problem.now) }
{
    let choices = vec![in alloc; 0; problem.nets() as usize]?;
    Ok(Certificate::from_parts(
        CertKind::Share,
        true,
        weights.to_vec(alloc)?,
        lengths.to_vec(alloc)?,
        Vec::new(alloc),
        choices,
    ))
}

/// The certificate by hops and by growth, with unit 1, that gives weight 1 to group `g` and 0 to the others.
/// The only error is want of memory.
pub fn growing_hop_cert(alloc: Global, problem: &Problem, g: u32) -> Result<Certificate, AllocError>
    requires there { g < length problem.now.groups }
    ensures made { IfOk result (λ cert. cert ≡ group_growing_cert problem.now g) }
    ensures for_problem { IfOk result (IsCertFor problem.now) }
    ensures within { IfOk result IsCert }
    ensures valid { IfOk result (IsValid problem.now) }
{
    let mut weights = repeated(alloc, 0, problem.groups())?;
    weights[g as usize] = 1;
    let lengths = repeated(alloc, 1, problem.wires())?;
    let choices = vec![in alloc; 0; problem.nets() as usize]?;
    Ok(Certificate::from_parts(
        CertKind::Hop { unit: 1 },
        true,
        weights,
        lengths,
        Vec::new(alloc),
        choices,
    ))
}
