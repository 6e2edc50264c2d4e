//! The certificate by hops for the group that reaches farthest.
ghost use Rattle.std.specs.Prelude.{◌≡◌, ◌<◌, ◌≤◌, ◌^◌, ℕ, [], length, sum_by, slice_set, replicate, All, IfOk, MatchOption};
ghost use Rattle.tdm_problem.specs.Limits.{most_fpgas};
ghost use Rattle.board_graph.specs.Graph.{graph_of};
ghost use Rattle.bound_cert.specs.Limits.{most_potential_values};
ghost use Rattle.bound_cert.specs.Certificate.{IsCert, IsCertFor};
ghost use Rattle.bound_cert.specs.Valid.{IsValid};
ghost use Rattle.bound_cert.specs.Bound.{bound_of};
ghost use Rattle.tdm_problem.specs.Legal.{AllConnectable};
ghost use Rattle.bound_cert.specs.Depths.{group_depth};
ghost use Rattle.bound_cert.specs.Floors.{IsHopFloor};
ghost use Rattle.bound_cert.specs.Makers.{IsHopGroupCert, IsFirstDeepest};

use crate::certificate::{CertKind, Certificate};
use crate::hops::HopReach;
use crate::repeated::repeated;
use board_graph::BoardGraph;
use std::alloc::{AllocError, Global};
use tdm_problem::Problem;

/// The certificate by hops, with unit 1, that gives weight 1 to the first of the groups whose nets together
/// reach farthest from their sources, and 0 to the others. There is a potential for each distinct source of a
/// net, in the order in which the nets first have them: its value at an FPGA is the least number of hops from
/// there, and 0 where no wires lead. Each net chooses the potential of its source. All nets can be joined,
/// and the graph is that of the problem's board. The bound is twice the sum of the hops of that group's nets,
/// each to its farthest FPGA. The only error is want of memory.
pub fn hop_group_cert(
    alloc: Global,
    problem: &Problem,
    graph: &BoardGraph,
) -> Result<Certificate, AllocError>
    requires graph { graph.now ≡ graph_of problem.now }
    requires connectable { AllConnectable problem.now }
    ensures made { IfOk result (IsHopGroupCert problem.now) }
    ensures for_problem { IfOk result (IsCertFor problem.now) }
    ensures within { IfOk result IsCert }
    ensures valid { IfOk result (IsValid problem.now) }
    ensures floor { IfOk result (λ cert. IsHopFloor problem.now (bound_of problem.now cert)) }
    ensures only_floor { IfOk result (λ cert. (floor : ℕ) → IsHopFloor problem.now floor → floor
        ≡ bound_of problem.now cert) }
    ensures few { IfOk result (λ cert. sum_by length cert.potentials ≤ most_potential_values) }
{
    let reach = HopReach::of(alloc, problem, graph)?;
    let weights = weights_of_deepest(alloc, problem, &reach.depths)?;
    let lengths = repeated(alloc, 1, problem.wires())?;
    Ok(Certificate::from_parts(
        CertKind::Hop { unit: 1 },
        false,
        weights,
        lengths,
        reach.potentials,
        reach.choices,
    ))
}

/// Weight 1 for the first of the deepest groups, and 0 for the others.
fn weights_of_deepest(
    alloc: Global,
    problem: &Problem,
    depths: &[u64],
) -> Result<Vec<u64>, AllocError>
    requires count { length depths.now ≡ length problem.now.nets }
    requires small { All (λ h. h ≤ most_fpgas) depths.now }
    ensures none { IfOk result (λ weights. length problem.now.groups ≡ 0 → weights.items ≡ []) }
    ensures some { IfOk result (λ weights. 0 < length problem.now.groups → (g : ℕ)
        × IsFirstDeepest problem.now depths.now g
        × (weights.items ≡ slice_set (replicate (length problem.now.groups) 0) g 1)) }
{
    let mut weights = repeated(alloc, 0, problem.groups())?;
    if let Some(g) = deepest_group(problem, depths) {
        weights[g as usize] = 1;
    }
    Ok(weights)
}

/// The first of the groups whose nets have together the greatest depth, None without groups.
fn deepest_group(problem: &Problem, depths: &[u64]) -> Option<u32>
    requires count { length depths.now ≡ length problem.now.nets }
    requires small { All (λ h. h ≤ most_fpgas) depths.now }
    ensures { MatchOption result (length problem.now.groups ≡ 0) (IsFirstDeepest problem.now depths.now) }
{
    if problem.groups() == 0 {
        return None;
    }
    let mut deepest = 0;
    let mut most = depth_of_group(depths, problem.group(0));
    for g in 1..problem.groups() {
        let depth = depth_of_group(depths, problem.group(g));
        if most < depth {
            most = depth;
            deepest = g;
        }
    }
    Some(deepest)
}

/// The depths of a group's nets together.
fn depth_of_group(depths: &[u64], group: &[u32]) -> u64
    requires there { All (λ n. n < length depths.now) group.now }
    requires small { All (λ h. h ≤ most_fpgas) depths.now }
    requires few { length group.now ≤ 2 ^ 24 }
    ensures { result ≡ group_depth depths.now group.now }
{
    let mut depth = 0;
    for n in group {
        depth += depths[*n as usize];
    }
    depth
}
