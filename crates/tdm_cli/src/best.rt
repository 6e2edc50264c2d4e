//! The best solution and the best certificate that were found so far.
ghost use Rattle.std.specs.Prelude.{◌≡◌, ◌≤◌, ◌^◌, ℕ, length, map, sum_by, All, OnOk};
ghost use Rattle.tdm_problem.specs.Board.{Board};
ghost use Rattle.tdm_problem.specs.Legal.{AllConnectable};
ghost use Rattle.tdm_problem.specs.Tight.{IsTight};
ghost use Rattle.tdm_problem.specs.Trees.{HasRisingRows};
ghost use Rattle.tdm_problem.specs.Value.{group_sum, value_of};
ghost use Rattle.board_graph.specs.Graph.{graph_of};
ghost use Rattle.bound_cert.specs.Bound.{IsBound};
ghost use Rattle.bound_cert.specs.Certificate.{IsCert, IsCertFor};
ghost use Rattle.bound_cert.specs.Limits.{most_potential_values};
ghost use Rattle.bound_cert.specs.Valid.{IsValid};
ghost use Rattle.bound_cert.specs.Weighted.{IsShareBound, ListsLengths};
ghost use Rattle.even_legalise.specs.Shared.{shared_routing};
ghost use Rattle.net_groups.specs.Incidence.{IsIncidenceOf};
ghost use Rattle.ripup_reroute.specs.Rerouting.{AreMinimalTrees};
ghost use Rattle.tdm_cli.specs.Baseline.{most_uses};
ghost use Rattle.tdm_cli.specs.Best.{IsBest, IsCertified};
ghost use Rattle.tdm_cli.specs.Candidates.{IsCandidate};
ghost use Rattle.tdm_cli.specs.Rounds.{AreRoots};

use crate::candidates::Candidate;
use crate::certify::{Certified, checked_bound};
use board_graph::BoardGraph;
use bound_cert::{Certificate, weighted_share_cert};
use cert_checker::bound_by_shares;
use even_legalise::legalise;
use group_multipliers::largest_sum;
use net_groups::Incidence;
use solution_eval::value;
use std::alloc::{AllocError, Global};
use tdm_problem::{Problem, Solution, Trees};
use worst_refine::{tighten, trade_from};

/// The solution of the least value so far, and the certificate of the greatest bound so far.
#[derive(Drop)]
pub struct Best {
    pub solution: Solution,
    pub value: u128,
    pub certified: Certified,
}

/// Keeps the solution that shares give where its value is less than the best. The sums are those that it
/// gives the groups: it is made only where it is kept.
pub(crate) fn keep_solution(
    alloc: Global,
    problem: &Problem,
    trees: &Trees,
    numbers: &[u64],
    sums: &[u128],
    best: &mut Best,
) -> Result<(), AllocError>
    requires minimal { AreMinimalTrees problem.now trees.now }
    requires rising { HasRisingRows trees.now }
    requires few { sum_by length trees.now ≤ most_uses }
    requires count { length numbers.now ≡ length problem.now.nets }
    requires small { All (λ number. number ≤ 2 ^ 30) numbers.now }
    requires sums { sums.now ≡ map (group_sum (shared_routing problem.now trees.now numbers.now))
        problem.now.groups }
    requires best { IsBest problem.now best.old.solution best.old.value best.old.certified }
    ensures best { OnOk result (IsBest problem.now best.new.solution best.new.value best.new.certified) }
    ensures lower { OnOk result (best.new.value ≤ best.old.value) }
    ensures value { OnOk result (best.new.value
        ≤ value_of problem.now (shared_routing problem.now trees.now numbers.now)) }
    ensures certified { best.new.certified ≡ best.old.certified }
{
    let worth = largest_sum(sums);
    if worth < best.value {
        best.solution = legalise(alloc, problem, trees, numbers)?;
        best.value = worth;
    }
    Ok(())
}

/// Whether ratios are traded in a round, where so many were done before: in the first eight, and then in
/// every fourth.
fn is_for_trade(done: u32) -> bool {
    done < 8 || done % 4 == 3
}

/// Trades ratios on the trees of a round, where so many were done before, beginning with ratios by the
/// numbers of the nets. Keeps the solution that is found where its value is less than the best.
pub(crate) fn keep_traded(
    alloc: Global,
    problem: &Problem,
    incidence: &Incidence,
    trees: &Trees,
    numbers: &[u64],
    done: u32,
    best: &mut Best,
) -> Result<(), AllocError>
    requires incidence { IsIncidenceOf problem.now incidence.now }
    requires minimal { AreMinimalTrees problem.now trees.now }
    requires rising { HasRisingRows trees.now }
    requires few { sum_by length trees.now ≤ most_uses }
    requires count { length numbers.now ≡ length problem.now.nets }
    requires best { IsBest problem.now best.old.solution best.old.value best.old.certified }
    ensures best { OnOk result (IsBest problem.now best.new.solution best.new.value best.new.certified) }
    ensures lower { OnOk result (best.new.value ≤ best.old.value) }
    ensures certified { best.new.certified ≡ best.old.certified }
{
    if !is_for_trade(done) {
        return Ok(());
    }
    let found = trade_from(
        alloc,
        problem,
        incidence,
        trees,
        numbers,
        best.value,
        done == 0,
    )?;
    if let Some(traded) = found {
        best.solution = traded.solution;
        best.value = traded.value;
    }
    Ok(())
}

/// Lowers ratios of the best solution until none can be lowered by 2.
pub(crate) fn tighten_best(
    alloc: Global,
    problem: &Problem,
    incidence: &Incidence,
    best: &mut Best,
) -> Result<(), AllocError>
    requires incidence { IsIncidenceOf problem.now incidence.now }
    requires best { IsBest problem.now best.old.solution best.old.value best.old.certified }
    ensures best { OnOk result (IsBest problem.now best.new.solution best.new.value best.new.certified) }
    ensures tight { OnOk result (IsTight problem.now best.new.solution) }
    ensures lower { OnOk result (best.new.value ≤ best.old.value) }
    ensures certified { best.new.certified ≡ best.old.certified }
{
    tighten(alloc, problem, incidence, &mut best.solution)?;
    best.value = value(alloc, problem, &best.solution)?;
    Ok(())
}

/// Keeps a certificate where its bound is greater than the best.
fn keep_greater(certified: Certified, best: &mut Best)
    ensures best { (board : Board) → IsCertified board certified
        → IsBest board best.old.solution best.old.value best.old.certified
        → IsBest board best.new.solution best.new.value best.new.certified }
    ensures higher { best.old.certified.bound ≤ best.new.certified.bound }
    ensures bound { certified.bound ≤ best.new.certified.bound }
    ensures value { best.new.value ≡ best.old.value }
{
    if certified.bound <= best.certified.bound {
        return;
    }
    best.certified = certified;
}

/// Keeps a valid certificate where its bound is greater than the best.
pub(crate) fn keep_checked(
    alloc: Global,
    problem: &Problem,
    cert: Certificate,
    best: &mut Best,
) -> Result<(), AllocError>
    requires for_problem { IsCertFor problem.now cert }
    requires within { IsCert cert }
    requires valid { IsValid problem.now cert }
    requires few { sum_by length cert.potentials ≤ most_potential_values }
    requires best { IsBest problem.now best.old.solution best.old.value best.old.certified }
    ensures best { OnOk result (IsBest problem.now best.new.solution best.new.value best.new.certified) }
    ensures higher { OnOk result (best.old.certified.bound ≤ best.new.certified.bound) }
    ensures bound { OnOk result ((other : ℕ) → IsBound problem.now cert other
        → other ≤ best.new.certified.bound) }
    ensures value { best.new.value ≡ best.old.value }
{
    let bound = checked_bound(alloc, problem, &cert)?;
    keep_greater(Certified { cert, bound }, best);
    Ok(())
}

/// Keeps the certificate by shares at the weights of the groups and at the loads of a round's trees as
/// lengths, where its bound is greater than the best. The numbers are the roots of the nets' weights.
pub(crate) fn keep_certificate(
    alloc: Global,
    problem: &Problem,
    graph: &BoardGraph,
    candidate: &Candidate,
    numbers: &[u64],
    best: &mut Best,
) -> Result<(), AllocError>
    requires graph { graph.now ≡ graph_of problem.now }
    requires connectable { AllConnectable problem.now }
    requires candidate { IsCandidate problem.now candidate.now }
    requires roots { AreRoots problem.now candidate.now.weights.items numbers.now }
    requires best { IsBest problem.now best.old.solution best.old.value best.old.certified }
    ensures best { OnOk result (IsBest problem.now best.new.solution best.new.value best.new.certified) }
    ensures higher { OnOk result (best.old.certified.bound ≤ best.new.certified.bound) }
    ensures bound { OnOk result ((wire_length : ℕ → ℕ)
        → ListsLengths problem.now candidate.now.lengths.items wire_length
        → (other : ℕ) → IsShareBound problem.now candidate.now.weights.items wire_length other
        → other ≤ best.new.certified.bound) }
    ensures value { best.new.value ≡ best.old.value }
{
    let cert = weighted_share_cert(
        alloc,
        problem,
        graph,
        &candidate.weights,
        &candidate.lengths,
    )?;
    let bound = bound_by_shares(problem, &cert, numbers);
    keep_greater(Certified { cert, bound }, best);
    Ok(())
}
