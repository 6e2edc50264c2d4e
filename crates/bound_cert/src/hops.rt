//! Potentials of hops from the sources of the nets, and how deep the nets reach.
ghost use Rattle.std.specs.Prelude.{◌≡◌, ◌<◌, ◌≤◌, ℕ, List, length, map, slice_index, All, IfOk};
ghost use Rattle.std.specs.Option.{unwrap_or};
ghost use Rattle.tdm_problem.specs.Board.{Board};
ghost use Rattle.tdm_problem.specs.Value.{largest};
ghost use Rattle.tdm_problem.specs.Limits.{most_fpgas};
ghost use Rattle.board_graph.specs.Graph.{IsGraph, graph_of};
ghost use Rattle.bound_cert.specs.Certificate.{value_at};
ghost use Rattle.tdm_problem.specs.Legal.{AllConnectable};
ghost use Rattle.bound_cert.specs.Depths.{AreDepths};
ghost use Rattle.bound_cert.specs.Makers.{IsSourcePotential, AreSourcePotentials, ArePotentialsFrom, ChooseSources};

use crate::potential::Potential;
use crate::sources::Sources;
use board_graph::BoardGraph;
use shortest_forest::{Forest, hops};
use std::alloc::{AllocError, Global};
use tdm_problem::Problem;

/// What the certificates of a problem begin with: for each source the potential of its hops, which of them
/// each net chooses, and the depth of each net.
#[derive(Drop)]
pub(crate) struct HopReach {
    pub(crate) potentials: Vec<Potential>,
    pub(crate) choices: Vec<u32>,
    pub(crate) depths: Vec<u64>,
}

impl HopReach {
    /// The hops from the sources of a problem's nets, all of which can be joined, on the graph of its board.
    pub(crate) fn of(
        alloc: Global,
        problem: &Problem,
        graph: &BoardGraph,
    ) -> Result<HopReach, AllocError>
        requires graph { graph.now ≡ graph_of problem.now }
        requires connectable { AllConnectable problem.now }
        ensures potentials { IfOk result (λ reach.
            AreSourcePotentials problem.now (λ _. 1) reach.potentials.items) }
        ensures choices { IfOk result (λ reach. ChooseSources problem.now reach.choices.items) }
        ensures depths { IfOk result (λ reach. AreDepths problem.now reach.depths.items) }
        ensures few { IfOk result (λ reach. length reach.potentials.items ≤ most_fpgas) }
        ensures small { IfOk result (λ reach. All (All (λ v. v ≤ most_fpgas)) reach.potentials.items) }
        ensures small_depths { IfOk result (λ reach. All (λ h. h ≤ most_fpgas) reach.depths.items) }
        ensures short_depths { IfOk result (λ reach.
            All (λ h. h ≤ length problem.now.wires) reach.depths.items) }
    {
        let sources = Sources::of(alloc, problem)?;
        let potentials = hop_potentials(alloc, graph, sources.fpgas.as_slice())?;
        let depths = depths_of(alloc, problem, &potentials, &sources.choices)?;
        Ok(HopReach {
            potentials,
            choices: sources.choices,
            depths,
        })
    }
}

/// The potential of the hops from each of these FPGAs.
fn hop_potentials(
    alloc: Global,
    graph: &BoardGraph,
    sources: &[u32],
) -> Result<Vec<Potential>, AllocError>
    requires there { All (λ source. source < graph.now.fpgas) sources.now }
    ensures hops { IfOk result (λ potentials. (board : Board) → graph.now ≡ graph_of board
        → ArePotentialsFrom board (λ _. 1) sources.now potentials.items) }
    ensures small { IfOk result (λ potentials. All (All (λ v. v ≤ most_fpgas)) potentials.items) }
    ensures short { IfOk result (λ potentials. All (All (λ v. v ≤ length graph.now.wires)) potentials.items) }
{
    let mut potentials = Vec::with_capacity(alloc, sources.len())?;
    for source in sources {
        potentials.push(hop_potential(alloc, graph, *source)?)?;
    }
    Ok(potentials)
}

/// The potential of the hops from FPGA `source`.
fn hop_potential(alloc: Global, graph: &BoardGraph, source: u32) -> Result<Potential, AllocError>
    requires { source < graph.now.fpgas }
    ensures hops { IfOk result (λ potential. (board : Board) → graph.now ≡ graph_of board
        → IsSourcePotential board (λ _. 1) source potential) }
    ensures small { IfOk result (All (λ v. v ≤ most_fpgas)) }
    ensures short { IfOk result (All (λ v. v ≤ length graph.now.wires)) }
{
    let forest = hops(alloc, graph, source)?;
    let values = distances_of(alloc, graph, &forest)?;
    Ok(Potential::new(values))
}

/// The distance of each FPGA from the root of a forest, 0 where no wires lead there.
pub(crate) fn distances_of(
    alloc: Global,
    graph: &BoardGraph,
    forest: &Forest,
) -> Result<Vec<u64>, AllocError>
    requires { length forest.now.distances ≡ graph.now.fpgas }
    ensures values { IfOk result (λ values. values.items
        ≡ map (λ distance. unwrap_or distance 0) forest.now.distances) }
    ensures graph { IsGraph graph.now }
{
    let fpgas = graph.fpgas();
    let mut values = Vec::with_capacity(alloc, fpgas as usize)?;
    for f in 0..fpgas {
        values.push(forest.dist(f).unwrap_or(0))?;
    }
    Ok(values)
}

/// The depth of each net: the largest value at its FPGAs of the potential that it chooses.
fn depths_of(
    alloc: Global,
    problem: &Problem,
    potentials: &[Potential],
    choices: &[u32],
) -> Result<Vec<u64>, AllocError>
    requires connectable { AllConnectable problem.now }
    requires potentials { AreSourcePotentials problem.now (λ _. 1) potentials.now }
    requires choices { ChooseSources problem.now choices.now }
    ensures depths { IfOk result (λ depths. AreDepths problem.now depths.items) }
    ensures within { IfOk result (λ depths. (most : ℕ) → All (All (λ v. v ≤ most)) potentials.now
        → All (λ h. h ≤ most) depths.items) }
{
    let mut depths = Vec::with_capacity(alloc, problem.nets() as usize)?;
    for n in 0..problem.nets() {
        let potential = &potentials[choices[n as usize] as usize - 1];
        depths.push(largest_value(potential.values(), problem.net(n)))?;
    }
    Ok(depths)
}

/// The largest of the values at these FPGAs.
fn largest_value(values: &[u64], fpgas: &[u32]) -> u64
    requires { All (λ f. f < length values.now) fpgas.now }
    ensures { result ≡ largest (map (value_at values.now) fpgas.now) }
{
    let mut most = 0;
    for f in fpgas {
        most = most.max(values[*f as usize]);
    }
    most
}
