//! The certificate by shares at any weights of the groups and lengths of the wires.
ghost use Rattle.std.specs.Prelude.{◌≡◌, ◌<◌, ◌≤◌, ◌^◌, ℕ, length, slice_index_or, sum_by, All, IfOk};
ghost use Rattle.tdm_problem.specs.Board.{Board};
ghost use Rattle.tdm_problem.specs.Legal.{AllConnectable};
ghost use Rattle.tdm_problem.specs.Limits.{most_weight};
ghost use Rattle.board_graph.specs.Graph.{graph_of};
ghost use Rattle.bound_cert.specs.Limits.{most_length, most_potential_value, most_potential_values};
ghost use Rattle.bound_cert.specs.Certificate.{IsCert, IsCertFor};
ghost use Rattle.bound_cert.specs.Valid.{IsValid};
ghost use Rattle.bound_cert.specs.Bound.{bound_of};
ghost use Rattle.bound_cert.specs.Makers.{IsSourcePotential, ArePotentialsFrom};
ghost use Rattle.bound_cert.specs.Weighted.{IsWeightedShareCert, IsShareBound, ListsLengths};

use crate::certificate::{CertKind, Certificate};
use crate::hops::distances_of;
use crate::potential::Potential;
use crate::sources::Sources;
use board_graph::BoardGraph;
use shortest_forest::{Lengths, forest};
use std::alloc::{AllocError, Global};
use tdm_problem::Problem;

/// A length for each wire, wires in order.
#[derive(Drop)]
struct WireLengths<'a> {
    lengths: &'a [u64],
    ghost small: { All (λ l. l ≤ 2 ^ 51) lengths.now },
}

impl Lengths for WireLengths<'_> {
    ghost covered = { λ s. length s.lengths.now };

    ghost length = { λ s e. slice_index_or s.lengths.now e 0 };

    ghost limit = { λ s e below. s.small e 0 below };

    fn len_of(&self, wire: u32) -> u64 {
        self.lengths[wire as usize]
    }
}

/// The certificate by shares with these weights of the groups, each at most
/// [`MAX_WEIGHT`](crate::MAX_WEIGHT), and these lengths of the wires, each at most
/// [`MAX_LENGTH`](crate::MAX_LENGTH). There is a potential for each distinct source of a net, in the order in
/// which the nets first have them: its value at an FPGA is the least length of a walk from there, and 0 where
/// no wires lead. Each net chooses the potential of its source. All nets can be joined, and the graph is that
/// of the problem's board. The bound is the least even number that, times the sum of the weights, is at least
/// twice the sum of the root of a net's weight times its depth over the lengths, less the square of the
/// length of each wire. The only error is want of memory.
pub fn weighted_share_cert(
    alloc: Global,
    problem: &Problem,
    graph: &BoardGraph,
    weights: &[u64],
    lengths: &[u64],
) -> Result<Certificate, AllocError>
    requires graph { graph.now ≡ graph_of problem.now }
    requires connectable { AllConnectable problem.now }
    requires weights_count { length weights.now ≡ length problem.now.groups }
    requires weights_small { All (λ w. w ≤ most_weight) weights.now }
    requires lengths_count { length lengths.now ≡ length problem.now.wires }
    requires lengths_small { All (λ l. l ≤ most_length) lengths.now }
    ensures made { IfOk result (IsWeightedShareCert problem.now weights.now lengths.now) }
    ensures for_problem { IfOk result (IsCertFor problem.now) }
    ensures within { IfOk result IsCert }
    ensures valid { IfOk result (IsValid problem.now) }
    ensures bound { IfOk result (λ cert. IsShareBound problem.now weights.now
        (λ e. slice_index_or lengths.now e 0) (bound_of problem.now cert)) }
    ensures only_bound { IfOk result (λ cert. (wire_length : ℕ → ℕ)
        → ListsLengths problem.now lengths.now wire_length
        → (bound : ℕ) → IsShareBound problem.now weights.now wire_length bound
        → bound ≡ bound_of problem.now cert) }
    ensures few { IfOk result (λ cert. sum_by length cert.potentials ≤ most_potential_values) }
{
    let sources = Sources::of(alloc, problem)?;
    let potentials = length_potentials(alloc, graph, sources.fpgas.as_slice(), lengths)?;
    Ok(Certificate::from_parts(
        CertKind::Share,
        false,
        weights.to_vec(alloc)?,
        lengths.to_vec(alloc)?,
        potentials,
        sources.choices,
    ))
}

/// The potential of the least lengths from each of these FPGAs.
fn length_potentials(
    alloc: Global,
    graph: &BoardGraph,
    sources: &[u32],
    lengths: &[u64],
) -> Result<Vec<Potential>, AllocError>
    requires there { All (λ source. source < graph.now.fpgas) sources.now }
    requires count { length lengths.now ≡ length graph.now.wires }
    requires small { All (λ l. l ≤ most_length) lengths.now }
    ensures least { IfOk result (λ potentials. (board : Board) → graph.now ≡ graph_of board
        → ArePotentialsFrom board (λ e. slice_index_or lengths.now e 0) sources.now potentials.items) }
    ensures within { IfOk result (λ potentials.
        All (All (λ v. v ≤ most_potential_value)) potentials.items) }
{
    let mut potentials = Vec::with_capacity(alloc, sources.len())?;
    for source in sources {
        potentials.push(length_potential(alloc, graph, *source, lengths)?)?;
    }
    Ok(potentials)
}

/// The potential of the least lengths from FPGA `source`.
fn length_potential(
    alloc: Global,
    graph: &BoardGraph,
    source: u32,
    lengths: &[u64],
) -> Result<Potential, AllocError>
    requires there { source < graph.now.fpgas }
    requires count { length lengths.now ≡ length graph.now.wires }
    requires small { All (λ l. l ≤ most_length) lengths.now }
    ensures least { IfOk result (λ potential. (board : Board) → graph.now ≡ graph_of board
        → IsSourcePotential board (λ e. slice_index_or lengths.now e 0) source potential) }
    ensures within { IfOk result (All (λ v. v ≤ most_potential_value)) }
{
    let forest = forest(alloc, graph, source, &WireLengths { lengths })?;
    let values = distances_of(alloc, graph, &forest)?;
    Ok(Potential::new(values))
}
