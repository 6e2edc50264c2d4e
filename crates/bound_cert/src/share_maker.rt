//! The certificate by shares with one weight for all groups.
ghost use Rattle.std.specs.Prelude.{◌≡◌, ◌≤◌, ◌^◌, ◌*◌, ℕ, length, sum_by, slice_index, All, IfOk};
ghost use Rattle.tdm_problem.specs.Sums.{sum_below};
ghost use Rattle.tdm_problem.specs.Roots.{root_of};
ghost use Rattle.tdm_problem.specs.Limits.{most_fpgas, most_nets, most_groups};
ghost use Rattle.board_graph.specs.Graph.{graph_of};
ghost use Rattle.bound_cert.specs.Limits.{most_potential_values, uniform_weight};
ghost use Rattle.bound_cert.specs.Certificate.{IsCert, IsCertFor};
ghost use Rattle.bound_cert.specs.Valid.{IsValid};
ghost use Rattle.bound_cert.specs.Bound.{bound_of};
ghost use Rattle.tdm_problem.specs.Legal.{AllConnectable};
ghost use Rattle.bound_cert.specs.Floors.{IsShareFloor, part_of, uniform_length as wire_length_of};
ghost use Rattle.bound_cert.specs.Depths.{AreDepths};
ghost use Rattle.bound_cert.specs.Makers.{IsUniformShareCert};

use crate::certificate::{CertKind, Certificate};
use crate::holders::holders;
use crate::hops::HopReach;
use crate::limits::UNIFORM_WEIGHT;
use crate::repeated::repeated;
use crate::scaling::scale_all;
use board_graph::BoardGraph;
use integer_root::isqrt;
use std::alloc::{AllocError, Global};
use tdm_problem::Problem;

/// The certificate by shares that gives each group the weight 2^20 and all wires one length: the sum over the
/// nets of the root of the net's weight times the hops from its source to its farthest FPGA, divided by the
/// number of wires and rounded down, or 0 without wires. There is a potential for each distinct source of a
/// net, in the order in which the nets first have them: its value at an FPGA is the least distance from
/// there, and 0 where no wires lead. Each net chooses the potential of its source. All nets can be joined,
/// and the graph is that of the problem's board. The bound is the least even number that is, times the weight
/// of all groups, at least twice the length times that sum less the square of the length for each wire. The
/// only error is want of memory.
pub fn uniform_share_cert(
    alloc: Global,
    problem: &Problem,
    graph: &BoardGraph,
) -> Result<Certificate, AllocError>
    requires graph { graph.now ≡ graph_of problem.now }
    requires connectable { AllConnectable problem.now }
    ensures made { IfOk result (IsUniformShareCert problem.now) }
    ensures for_problem { IfOk result (IsCertFor problem.now) }
    ensures within { IfOk result IsCert }
    ensures valid { IfOk result (IsValid problem.now) }
    ensures floor { IfOk result (λ cert. IsShareFloor problem.now (bound_of problem.now cert)) }
    ensures only_floor { IfOk result (λ cert. (floor : ℕ) → IsShareFloor problem.now floor → floor
        ≡ bound_of problem.now cert) }
    ensures few { IfOk result (λ cert. sum_by length cert.potentials ≤ most_potential_values) }
{
    let mut reach = HopReach::of(alloc, problem, graph)?;
    let wire_length = uniform_length(alloc, problem, &reach.depths)?;
    scale_all(&mut reach.potentials, wire_length);
    let weights = repeated(alloc, UNIFORM_WEIGHT, problem.groups())?;
    let lengths = repeated(alloc, wire_length, problem.wires())?;
    Ok(Certificate::from_parts(
        CertKind::Share,
        false,
        weights,
        lengths,
        reach.potentials,
        reach.choices,
    ))
}

/// The one length of all wires: the depths of all nets, by the roots of their weights, divided by the number
/// of wires.
fn uniform_length(alloc: Global, problem: &Problem, depths: &[u64]) -> Result<u64, AllocError>
    requires depths { AreDepths problem.now depths.now }
    requires small { All (λ h. h ≤ most_fpgas) depths.now }
    requires short { All (λ h. h ≤ length problem.now.wires) depths.now }
    ensures value { IfOk result (λ answer. answer ≡ wire_length_of problem.now depths.now) }
    ensures within { IfOk result (λ answer. answer ≤ 2 ^ 40) }
{
    let holders = holders(alloc, problem)?;
    let total = rooted_depths(&holders, depths);
    Ok(part(total, problem.wires()))
}

/// The depths of all nets, by the roots of their weights: each group that holds a net adds the uniform
/// weight.
fn rooted_depths(holders: &[u32], depths: &[u64]) -> u64
    requires count { length holders.now ≡ length depths.now }
    requires few { length depths.now ≤ most_nets }
    requires few_holders { All (λ count. count ≤ most_groups) holders.now }
    requires small { All (λ h. h ≤ most_fpgas) depths.now }
    ensures total { result ≡ sum_below (length depths.now)
        (λ n. root_of (uniform_weight * slice_index holders.now n) * slice_index depths.now n) }
    ensures within { (most : ℕ) → All (λ h. h ≤ most) depths.now → result ≤ 2 ^ 40 * most }
{
    let mut total = 0;
    for n in 0..depths.len() {
        total += rooted_depth(holders[n], depths[n]);
    }
    total
}

/// The depth of a net that so many groups hold, by the root of its weight.
fn rooted_depth(holders: u32, depth: u64) -> u64
    requires few { holders ≤ most_groups }
    requires small { depth ≤ most_fpgas }
    ensures value { result ≡ root_of (uniform_weight * holders) * depth }
    ensures within { result ≤ 2 ^ 20 * depth }
{
    let root = isqrt(UNIFORM_WEIGHT * u64::from(holders));
    u64::from(root) * depth
}

/// A whole number of parts, rounded down; 0 without parts.
fn part(whole: u64, parts: u32) -> u64
    ensures value { result ≡ part_of whole parts }
    ensures within { (most : ℕ) → whole ≤ most * parts → result ≤ most }
{
    if parts == 0 {
        return 0;
    }
    whole / u64::from(parts)
}
