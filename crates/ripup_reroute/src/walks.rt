//! How long walks from the first terminal of a net to the others are at least, together.
ghost use Rattle.std.specs.Prelude.{◌≡◌, ◌+◌, ◌-◌, ◌*◌, ◌^◌, ◌<◌, ◌≤◌, ℕ, List, true, length, slice_index, sum_by, All, IfOk};
ghost use Rattle.tdm_problem.specs.Distance.{length_of};
ghost use Rattle.tdm_problem.specs.Walk.{IsWalk, AnyWire};
ghost use Rattle.board_graph.specs.Graph.{board_of};
ghost use Rattle.steiner_build.specs.Building.{IsWithinWalks};
ghost use Rattle.ripup_reroute.specs.Bounds.{IsTable, IsScaled, bound_at};

use crate::growing::grow_from;
use crate::marginals::Marginals;
use crate::table::Table;
use board_graph::BoardGraph;
use shortest_forest::{Lengths, MOST_CAP};
use std::alloc::AllocError;
use steiner_build::TreeBuilder;

/// Whether walks from the first terminal to the others are known to be together at least as long as `cap`, by
/// their lower bounds, of two terminals by the first wires of walks too, and of more in a lazy turn, where
/// the bounds come near, by distances. A tree that is no longer than such walks may stay.
pub(crate) fn walks_reach(
    graph: &BoardGraph,
    lengths: &Marginals,
    table: &Table,
    scale: u64,
    terminals: &[u32],
    lazy: bool,
    cap: u64,
    builder: &mut TreeBuilder,
) -> Result<bool, AllocError>
    requires covered { length graph.now.wires ≡ length lengths.now.loads.now }
    requires table { IsTable (board_of graph.now) table.now }
    requires part { scale ≤ 4096 }
    requires scaled { IsScaled table.now scale (λ e. 2 * slice_index lengths.now.loads.now e
        + lengths.now.own) }
    requires some { 0 < length terminals.now }
    requires there { All (λ t. t < graph.now.fpgas) terminals.now }
    requires cap { cap ≤ 2 ^ 64 - 2 ^ 51 }
    requires builder { builder.old.fpgas ≡ graph.now.fpgas }
    ensures builder { builder.new.fpgas ≡ builder.old.fpgas }
    ensures reach { IfOk result (λ reach. reach ≡ true → IsWithinWalks (board_of graph.now)
        (λ e. 2 * slice_index lengths.now.loads.now e + lengths.now.own) (slice_index terminals.now 0)
        terminals.now
        cap) }
    ensures below { IfOk result (λ reach. reach ≡ true → cap < 2 ^ 64 - 2 ^ 51) }
{
    if !table.is_used() || cap == MOST_CAP {
        return Ok(false);
    }
    let pair = terminals.len() == 2;
    if !lazy && !pair {
        return Ok(false);
    }
    let sum = bound_sum(table, scale, terminals, cap);
    if sum >= cap {
        return Ok(true);
    }
    if pair {
        let first = terminals[0];
        let second = terminals[1];
        let reach = first_wires_reach(graph, lengths, table, scale, first, second, cap);
        return Ok(reach);
    }
    if cap - sum > sum / 8 {
        return Ok(false);
    }
    let least = least_sum(graph, lengths, table, scale, terminals, sum, cap, builder)?;
    Ok(least >= cap)
}

/// The sum of the lower bounds of walks from the first terminal to each, or the cap if that is less.
fn bound_sum(table: &Table, scale: u64, terminals: &[u32], cap: u64) -> u64
    requires full { length table.now.distances.items ≡ table.now.fpgas * table.now.fpgas }
    requires small { All (λ d. d ≤ 2 ^ 51) table.now.distances.items }
    requires part { scale ≤ 4096 }
    requires some { 0 < length terminals.now }
    requires there { All (λ t. t < table.now.fpgas) terminals.now }
    ensures capped { result ≤ cap }
    ensures within { result ≤ sum_by (λ t. bound_at table.now scale t (slice_index terminals.now 0))
        terminals.now }
    ensures exact { result < cap
        → result ≡ sum_by (λ t. bound_at table.now scale t (slice_index terminals.now 0)) terminals.now }
{
    let first = terminals[0];
    let mut sum = 0;
    for t in terminals {
        let bound = table.bound(scale, *t, first);
        if cap - sum <= bound {
            return cap;
        }
        sum += bound;
    }
    sum
}

/// Raises the lower bounds of walks from the first terminal, which sum to `sum`, to distances one by one,
/// until the sum is the cap. Answers the last sum.
fn least_sum(
    graph: &BoardGraph,
    lengths: &Marginals,
    table: &Table,
    scale: u64,
    terminals: &[u32],
    sum: u64,
    cap: u64,
    builder: &mut TreeBuilder,
) -> Result<u64, AllocError>
    requires covered { length graph.now.wires ≡ length lengths.now.loads.now }
    requires table { IsTable (board_of graph.now) table.now }
    requires used { 0 < length table.now.distances.items }
    requires part { scale ≤ 4096 }
    requires scaled { IsScaled table.now scale (λ e. 2 * slice_index lengths.now.loads.now e
        + lengths.now.own) }
    requires some { 0 < length terminals.now }
    requires there { All (λ t. t < graph.now.fpgas) terminals.now }
    requires sum { sum ≡ sum_by (λ t. bound_at table.now scale t (slice_index terminals.now 0))
        terminals.now }
    requires below { sum < cap }
    requires cap { cap ≤ 2 ^ 64 - 2 ^ 51 }
    requires builder { builder.old.fpgas ≡ graph.now.fpgas }
    ensures builder { builder.new.fpgas ≡ builder.old.fpgas }
    ensures least { IfOk result (IsWithinWalks (board_of graph.now)
        (λ e. 2 * slice_index lengths.now.loads.now e + lengths.now.own) (slice_index terminals.now 0)
        terminals.now) }
{
    let first = terminals[0];
    let mut known = 0;
    let mut left = sum;
    for t in terminals {
        if known + left >= cap {
            return Ok(known + left);
        }
        left -= table.bound(scale, *t, first);
        let enough = cap - (known + left);
        known += distance_within(graph, lengths, table, scale, first, *t, enough, builder)?;
    }
    Ok(known + left)
}

/// Whether walks from FPGA `a` to another, `b`, are known to be at least as long as `cap` by the wires at
/// `a`: each wire and the lower bound from its other end on reach the cap together. It mostly spares a search
/// that finds nothing.
fn first_wires_reach(
    graph: &BoardGraph,
    lengths: &Marginals,
    table: &Table,
    scale: u64,
    a: u32,
    b: u32,
    cap: u64,
) -> bool
    requires covered { length graph.now.wires ≡ length lengths.now.loads.now }
    requires table { IsTable (board_of graph.now) table.now }
    requires used { 0 < length table.now.distances.items }
    requires part { scale ≤ 4096 }
    requires scaled { IsScaled table.now scale
        (λ e. 2 * slice_index lengths.now.loads.now e + lengths.now.own) }
    requires a { a < graph.now.fpgas }
    requires b { b < graph.now.fpgas }
    ensures { result ≡ true → (es : List ℕ)
        → IsWalk (board_of graph.now) (AnyWire (board_of graph.now)) a es b
        → cap ≤ length_of (λ e. 2 * slice_index lengths.now.loads.now e + lengths.now.own) es }
{
    if a == b {
        return false;
    }
    for neighbour in graph.neighbours(a) {
        let length = lengths.len_of(neighbour.wire);
        let bound = table.bound(scale, b, neighbour.fpga);
        if length + bound < cap {
            return false;
        }
    }
    true
}

/// The distance between two FPGAs, or the cap if that is less.
fn distance_within(
    graph: &BoardGraph,
    lengths: &Marginals,
    table: &Table,
    scale: u64,
    a: u32,
    b: u32,
    cap: u64,
    builder: &mut TreeBuilder,
) -> Result<u64, AllocError>
    requires covered { length graph.now.wires ≡ length lengths.now.loads.now }
    requires table { IsTable (board_of graph.now) table.now }
    requires used { 0 < length table.now.distances.items }
    requires part { scale ≤ 4096 }
    requires scaled { IsScaled table.now scale (λ e. 2 * slice_index lengths.now.loads.now e
        + lengths.now.own) }
    requires a { a < graph.now.fpgas }
    requires b { b < graph.now.fpgas }
    requires cap { cap ≤ 2 ^ 64 - 2 ^ 51 }
    requires builder { builder.old.fpgas ≡ graph.now.fpgas }
    ensures builder { builder.new.fpgas ≡ builder.old.fpgas }
    ensures capped { IfOk result (λ least. least ≤ cap) }
    ensures least { IfOk result (λ least. (es : List ℕ)
        → IsWalk (board_of graph.now) (AnyWire (board_of graph.now)) a es b
        → least ≤ length_of (λ e. 2 * slice_index lengths.now.loads.now e + lengths.now.own) es) }
{
    if first_wires_reach(graph, lengths, table, scale, a, b, cap) {
        return Ok(cap);
    }
    match grow_from(graph, lengths, table, scale, &[a, b], a, cap, builder)? {
        Some(distance) => Ok(distance),
        None => Ok(cap),
    }
}
