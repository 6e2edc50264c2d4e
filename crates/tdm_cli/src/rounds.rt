//! Rounds: the groups are weighed by how bad they are, the nets rerouted for these weights, and the wires
//! shared by the roots of the weights.
ghost use Rattle.std.specs.Prelude.{◌≡◌, ◌<◌, ◌≤◌, ◌^◌, ℕ, length, replicate, true, false, None, All, IfOk, OnOk};
ghost use Rattle.std.specs.List.{range_with_len};
ghost use Rattle.tdm_problem.specs.Legal.{AllConnectable};
ghost use Rattle.tdm_problem.specs.Tight.{IsTight};
ghost use Rattle.board_graph.specs.Graph.{graph_of};
ghost use Rattle.net_groups.specs.Incidence.{IsIncidenceOf};
ghost use Rattle.ripup_reroute.specs.Rerouting.{AreMinimalTrees};
ghost use Rattle.tdm_cli.specs.Best.{IsBest};
ghost use Rattle.tdm_cli.specs.Candidates.{AreCandidates, IsCandidate, IsOfRound};
ghost use Rattle.tdm_cli.specs.Rounds.{AreRoots, MeetsRounds};
ghost use Rattle.tdm_cli.specs.Running.{AreWeights, IsWent, IsEnded, MeetsFrom};

use crate::best::{Best, keep_certificate, keep_solution, keep_traded, tighten_best};
use crate::candidates::{Candidate, Candidates};
use crate::growing::{keep_grown_group, keep_grown_rounds};
use crate::numbers::{all_nets, are_few, numbers_of};
use board_graph::BoardGraph;
use bound_cert::UNIFORM_WEIGHT;
use even_legalise::shared_sums;
use group_multipliers::next_weights;
use net_groups::Incidence;
use ripup_reroute::{Effort, loads_of, reroute_with};
use std::alloc::{AllocError, Global};
use tdm_problem::{Problem, Trees};

/// How many passes over all nets a round makes.
const PASSES: u32 = 4;

/// What a round begins with: the weights of the groups, the trees, the best so far, and what is remembered of
/// the rounds before.
#[derive(Drop)]
struct Running {
    weights: Vec<u64>,
    trees: Trees,
    best: Best,
    candidates: Candidates,
}

/// Improves a solution and a certificate by so many rounds, from the baseline's trees, makes certificates by
/// growth, and then lowers ratios of the best solution until none can be lowered by 2. The value does not
/// rise, and the bound does not fall; unless the value becomes 0, one list of rounds meets both, and the
/// bound is at least that by growth of the last of them that fits. Rounds end early where the value is 0, and
/// after the first whose trees have more wires than may be written. Method: Lagrangian weights on the groups,
/// renewed by how large their sums are; shares by the roots of the weights, which are the best where ratios
/// are any real numbers (Cauchy and Schwarz). The only error is want of memory.
pub fn improve(
    alloc: Global,
    problem: &Problem,
    graph: &BoardGraph,
    trees: Trees,
    best: Best,
    rounds: u32,
) -> Result<Best, AllocError>
    requires graph { graph.now ≡ graph_of problem.now }
    requires connectable { AllConnectable problem.now }
    requires minimal { AreMinimalTrees problem.now trees }
    requires best { IsBest problem.now best.solution best.value best.certified }
    ensures best { IfOk result (λ found. IsBest problem.now found.solution found.value found.certified) }
    ensures tight { IfOk result (λ found. IsTight problem.now found.solution) }
    ensures rounds { IfOk result (λ found. 0 < found.value
        → MeetsRounds problem.now trees rounds found.value found.certified.bound) }
{
    let incidence = Incidence::of(alloc, problem)?;
    let nets = all_nets(alloc, problem)?;
    let weights = vec![in alloc; UNIFORM_WEIGHT; problem.groups() as usize]?;
    let mut running = Running {
        weights,
        trees,
        best,
        candidates: Candidates::new(),
    };
    all_rounds(
        alloc,
        problem,
        graph,
        &incidence,
        &nets,
        &mut running,
        rounds,
    )?;
    keep_grown_rounds(alloc, problem, &running.candidates, &mut running.best)?;
    keep_grown_group(alloc, problem, &mut running.best)?;
    tighten_best(alloc, problem, &incidence, &mut running.best)?;
    Ok(running.best)
}

/// Does so many rounds, unless they end before.
fn all_rounds(
    alloc: Global,
    problem: &Problem,
    graph: &BoardGraph,
    incidence: &Incidence,
    nets: &[u32],
    running: &mut Running,
    rounds: u32,
) -> Result<(), AllocError>
    requires graph { graph.now ≡ graph_of problem.now }
    requires connectable { AllConnectable problem.now }
    requires incidence { IsIncidenceOf problem.now incidence.now }
    requires nets { nets.now ≡ range_with_len 0 (length problem.now.nets) }
    requires weights { AreWeights problem.now running.old.weights.items }
    requires minimal { AreMinimalTrees problem.now running.old.trees }
    requires best { IsBest problem.now running.old.best.solution running.old.best.value
        running.old.best.certified }
    requires candidates { AreCandidates problem.now running.old.candidates }
    ensures best { OnOk result (IsBest problem.now
        running.new.best.solution running.new.best.value running.new.best.certified) }
    ensures candidates { OnOk result (AreCandidates problem.now running.new.candidates) }
    ensures rounds { OnOk result (0 < running.new.best.value
        → MeetsFrom problem.now rounds running.old.weights.items running.old.trees running.new.best.value
        running.new.best.certified.bound running.new.candidates.last) }
{
    for done in 0..rounds {
        if running.best.value == 0 {
            return Ok(());
        }
        if !round(alloc, problem, graph, incidence, nets, done, running)? {
            return Ok(());
        }
    }
    Ok(())
}

/// Does a round, where so many were done before. Answers whether another may follow: not where its trees have
/// more wires than may be written, and not where its shares bring the best value to 0. The trade comes last,
/// when the round has nothing more in memory than what the next one begins with.
fn round(
    alloc: Global,
    problem: &Problem,
    graph: &BoardGraph,
    incidence: &Incidence,
    nets: &[u32],
    done: u32,
    running: &mut Running,
) -> Result<bool, AllocError>
    requires graph { graph.now ≡ graph_of problem.now }
    requires connectable { AllConnectable problem.now }
    requires incidence { IsIncidenceOf problem.now incidence.now }
    requires nets { nets.now ≡ range_with_len 0 (length problem.now.nets) }
    requires weights { AreWeights problem.now running.old.weights.items }
    requires minimal { AreMinimalTrees problem.now running.old.trees }
    requires best { IsBest problem.now running.old.best.solution running.old.best.value
        running.old.best.certified }
    requires candidates { AreCandidates problem.now running.old.candidates }
    ensures weights { OnOk result (AreWeights problem.now running.new.weights.items) }
    ensures minimal { OnOk result (AreMinimalTrees problem.now running.new.trees) }
    ensures best { OnOk result (IsBest problem.now
        running.new.best.solution running.new.best.value running.new.best.certified) }
    ensures candidates { OnOk result (AreCandidates problem.now running.new.candidates) }
    ensures lower { OnOk result (running.new.best.value ≤ running.old.best.value) }
    ensures higher { OnOk result (running.old.best.certified.bound ≤ running.new.best.certified.bound) }
    ensures went { IfOk result (λ goes_on. goes_on ≡ true → IsWent problem.now
        running.old.weights.items running.old.trees running.new.weights.items running.new.trees
        running.new.best.value running.new.best.certified.bound running.new.candidates.last) }
    ensures ended { IfOk result (λ goes_on. goes_on ≡ false → 0 < running.new.best.value
        → IsEnded problem.now running.old.weights.items running.old.trees) }
    ensures kept { IfOk result (λ goes_on. goes_on ≡ false → 0 < running.new.best.value
        → running.new.candidates.last ≡ running.old.candidates.last) }
{
    let numbers = numbers_of(alloc, incidence, &running.weights)?;
    let _rerouted = reroute_with(
        alloc,
        problem,
        graph,
        &mut running.trees,
        &numbers,
        nets,
        PASSES,
        Effort::of_round(done),
    )?;
    if !are_few(&running.trees) {
        return Ok(false);
    }
    let sums = shared_sums(alloc, problem, &running.trees, &numbers)?;
    keep_solution(
        alloc,
        problem,
        &running.trees,
        &numbers,
        &sums,
        &mut running.best,
    )?;
    if running.best.value == 0 {
        return Ok(false);
    }
    let next = next_weights(alloc, &running.weights, &sums)?;
    drop(sums);
    let candidate = candidate_of(alloc, problem, &running.weights, &running.trees, &numbers)?;
    keep_certificate(
        alloc,
        problem,
        graph,
        &candidate,
        &numbers,
        &mut running.best,
    )?;
    running.candidates.add(candidate);
    running.weights = next;
    keep_traded(
        alloc,
        problem,
        incidence,
        &running.trees,
        &numbers,
        done,
        &mut running.best,
    )?;
    Ok(true)
}

/// What is remembered of a round with these weights of groups, that led to these trees.
fn candidate_of(
    alloc: Global,
    problem: &Problem,
    weights: &[u64],
    trees: &Trees,
    numbers: &[u64],
) -> Result<Candidate, AllocError>
    requires minimal { AreMinimalTrees problem.now trees.now }
    requires weights { AreWeights problem.now weights.now }
    requires roots { AreRoots problem.now weights.now numbers.now }
    requires small { All (λ number. number ≤ 2 ^ 30) numbers.now }
    ensures candidate { IfOk result (IsCandidate problem.now) }
    ensures of_round { IfOk result (IsOfRound problem.now
        (record { weights = weights.now; numbers = numbers.now; trees = trees.now })) }
{
    let lengths = loads_of(alloc, problem, trees, numbers)?;
    let weights = weights.to_vec(alloc)?;
    Ok(Candidate::new(weights, lengths))
}
