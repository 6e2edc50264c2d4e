//! How far the nets of a board grow.
ghost use Rattle.std.specs.Prelude.{◌≡◌, ◌≢◌, ℕ, ◌<◌, ◌≤◌, length, slice_index, All, AllPairs, IsPermutation, IfOk, OnOk};
ghost use Rattle.tdm_problem.specs.Board.{IsBoard};
ghost use Rattle.board_graph.specs.Graph.{board_of};
ghost use Rattle.bound_cert.specs.Growth.{AreRising, IsGrowth};
ghost use Rattle.bound_cert.specs.Limits.{most_length};
ghost use Rattle.cert_checker.specs.NetGrowths.{AreGrowths, AreWeighed, HasNet};

use crate::growth::Grower;
use board_graph::BoardGraph;
use std::alloc::{AllocError, Global};
use std::mem;
use tdm_problem::Problem;

/// How far each net of a board grows over wires of these lengths, at most 2^48 each: its FPGAs grow in rising
/// order. A net of weight 0 has the number 0, and is not searched. Nets with the same FPGAs are searched
/// once. The only error is want of memory.
pub fn growths(
    alloc: Global,
    problem: &Problem,
    lengths: &[u64],
    weights: &[u64],
) -> Result<Vec<u128>, AllocError>
    requires lengths { length lengths.now ≡ length problem.now.wires }
    requires small { All (λ l. l ≤ most_length) lengths.now }
    requires weights { length weights.now ≡ length problem.now.nets }
    ensures { IfOk result (λ growths. AreGrowths problem.now (slice_index lengths.now) weights.now
        growths.items) }
{
    let graph = BoardGraph::of(alloc, problem)?;
    let mut grower = Grower::new(alloc, &graph, lengths)?;
    let mut growths = vec![in alloc; 0u128; problem.nets() as usize]?;
    let mut rising = Vec::new(alloc);
    let mut last = GrownSet {
        fpgas: Vec::new(alloc),
        growth: 0,
    };
    let marks = marked_nets(alloc, problem, weights)?;
    for i in 0..marks.len() {
        let n = marks[i].net;
        grow_set(&mut grower, problem.net(n), &mut rising, &mut last)?;
        growths[n as usize] = last.growth;
    }
    Ok(growths)
}

/// A net with the second of its FPGAs in rising order, and with a number that is the same for nets with the
/// same FPGAs, and hardly ever for others.
#[derive(Clone, Copy, Drop)]
struct SetMark {
    second: u32,
    mark: u64,
    net: u32,
}

/// The nets that have a weight, those with the same second FPGA one after another, and among them those with
/// the same FPGAs.
fn marked_nets(
    alloc: Global,
    problem: &Problem,
    weights: &[u64],
) -> Result<Vec<SetMark>, AllocError>
    requires { length weights.now ≡ length problem.now.nets }
    ensures weighed { IfOk result (λ marks. AreWeighed weights.now marks.items) }
    ensures whole { IfOk result (λ marks. (n : ℕ) → n < length problem.now.nets
        → 0 < slice_index weights.now n → HasNet marks.items n) }
{
    let mut marks = Vec::with_capacity(alloc, problem.nets() as usize)?;
    for n in 0..problem.nets() {
        if weights[n as usize] == 0 {
            continue;
        }
        marks.push(SetMark {
            second: second_of(problem.net(n)),
            mark: mark_of(problem.net(n)),
            net: n,
        })?;
    }
    marks.sort_unstable_by_key(|m| (m.second, m.mark));
    Ok(marks)
}

/// The second of these FPGAs in rising order, or the largest number there is where they are fewer than two.
/// Nothing but speed rests on it.
fn second_of(fpgas: &[u32]) -> u32 {
    let (mut first, mut second) = (u32::MAX, u32::MAX);
    for f in fpgas {
        second = second.min(first.max(*f));
        first = first.min(*f);
    }
    second
}

/// A number that is the same for the same FPGAs in any order: a sum of mixed numbers. Nothing but speed rests
/// on it. The mixing is that of SplitMix64 (Steele, Lea and Flood, 2014).
fn mark_of(fpgas: &[u32]) -> u64 {
    let mut sum: u64 = 0;
    for f in fpgas {
        let mut mixed = u64::from(*f)
            .wrapping_add(1)
            .wrapping_mul(0x9e37_79b9_7f4a_7c15);
        mixed = (mixed ^ (mixed >> 30)).wrapping_mul(0xbf58_476d_1ce4_e5b9);
        mixed = (mixed ^ (mixed >> 27)).wrapping_mul(0x94d0_49bb_1331_11eb);
        sum = sum.wrapping_add(mixed ^ (mixed >> 31));
    }
    sum
}

/// FPGAs in rising order, and how far they grow.
#[derive(Drop)]
struct GrownSet {
    fpgas: Vec<u32>,
    growth: u128,
}

/// Puts different FPGAs into a list, in rising order.
fn put_rising(rising: &mut Vec<u32>, fpgas: &[u32]) -> Result<(), AllocError>
    requires distinct { AllPairs (λ x y. x ≢ y) fpgas.now }
    ensures rising { OnOk result (AreRising fpgas.now rising.new.items) }
    ensures same { OnOk result (IsPermutation fpgas.now rising.new.items) }
{
    rising.clear();
    rising.extend_from_slice(fpgas)?;
    rising.sort_unstable();
    Ok(())
}

/// Grows the FPGAs of a net in rising order, if they are not those that grew last.
fn grow_set(
    grower: &mut Grower<'_>,
    fpgas: &[u32],
    rising: &mut Vec<u32>,
    last: &mut GrownSet,
) -> Result<(), AllocError>
    requires there { All (λ f. f < grower.old.graph.fpgas) fpgas.now }
    requires distinct { AllPairs (λ x y. x ≢ y) fpgas.now }
    requires last { IsGrowth (board_of grower.old.graph) (slice_index grower.old.lengths)
        last.old.fpgas.items last.old.growth }
    ensures grower { grower.new ≡ grower.old }
    ensures grows { OnOk result (IsGrowth (board_of grower.old.graph) (slice_index grower.old.lengths)
        last.new.fpgas.items last.new.growth) }
    ensures rising { OnOk result (AreRising fpgas.now last.new.fpgas.items) }
{
    put_rising(rising, fpgas)?;
    if rising.as_slice() == last.fpgas.as_slice() {
        return Ok(());
    }
    last.growth = grower.growth(rising.as_slice())?;
    mem::swap(rising, &mut last.fpgas);
    Ok(())
}
