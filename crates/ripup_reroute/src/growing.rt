//! Trees that are shorter than a cap, grown from one terminal or several.
ghost use Rattle.std.specs.Prelude.{◌≡◌, ◌+◌, ◌-◌, ◌*◌, ◌^◌, ◌<◌, ◌≤◌, ℕ, length, slice_index, All, Contains, IfOk, IfNone, OnOk};
ghost use Rattle.board_graph.specs.Graph.{board_of};
ghost use Rattle.ripup_reroute.specs.Bounds.{IsTable, IsScaled};
ghost use Rattle.ripup_reroute.specs.Working.{IsGrowth};

use crate::marginals::Marginals;
use crate::table::Table;
use crate::tools::Tools;
use crate::ways::{MOST_BOUNDED, WayBounds};
use board_graph::BoardGraph;
use shortest_forest::NoBound;
use std::alloc::AllocError;
use steiner_build::TreeBuilder;

/// Grows trees of the terminals from so many of them in turn, the first one first, each shorter than the best
/// so far and than `cap`. Answers the length of the best, whose wires are `found` then. None where walks from
/// the first terminal to the others are together at least as long as the cap.
pub(crate) fn grow_best(
    graph: &BoardGraph,
    lengths: &Marginals,
    scale: u64,
    terminals: &[u32],
    starts: usize,
    cap: u64,
    tools: &mut Tools,
) -> Result<Option<u64>, AllocError>
    requires covered { length graph.now.wires ≡ length lengths.now.loads.now }
    requires table { IsTable (board_of graph.now) tools.old.table }
    requires part { scale ≤ 4096 }
    requires scaled { IsScaled tools.old.table scale (λ e. 2 * slice_index lengths.now.loads.now e
        + lengths.now.own) }
    requires there { All (λ t. t < graph.now.fpgas) terminals.now }
    requires some { 0 < starts }
    requires starts { starts ≤ length terminals.now }
    requires cap { cap ≤ 2 ^ 64 - 2 ^ 51 }
    requires builder { tools.old.builder.fpgas ≡ graph.now.fpgas }
    ensures builder { tools.new.builder.fpgas ≡ tools.old.builder.fpgas }
    ensures table { tools.new.table ≡ tools.old.table }
    ensures grown { IfOk result (IsGrowth graph.now
        (λ e. 2 * slice_index lengths.now.loads.now e + lengths.now.own) (slice_index terminals.now 0)
        terminals.now cap
        tools.new.found.items) }
{
    let mut least = cap;
    for i in 0..starts {
        let start = terminals[i];
        let grown = grow_and_keep(graph, lengths, scale, terminals, start, least, tools)?;
        least = grown.unwrap_or(least);
    }
    if least < cap {
        Ok(Some(least))
    } else {
        Ok(None)
    }
}

/// Grows a tree from one terminal, whose wires are `found` then. If there is none, `found` is as it was.
fn grow_and_keep(
    graph: &BoardGraph,
    lengths: &Marginals,
    scale: u64,
    terminals: &[u32],
    start: u32,
    cap: u64,
    tools: &mut Tools,
) -> Result<Option<u64>, AllocError>
    requires covered { length graph.now.wires ≡ length lengths.now.loads.now }
    requires table { IsTable (board_of graph.now) tools.old.table }
    requires part { scale ≤ 4096 }
    requires scaled { IsScaled tools.old.table scale (λ e. 2 * slice_index lengths.now.loads.now e
        + lengths.now.own) }
    requires there { All (λ t. t < graph.now.fpgas) terminals.now }
    requires start { Contains terminals.now start }
    requires cap { cap ≤ 2 ^ 64 - 2 ^ 51 }
    requires builder { tools.old.builder.fpgas ≡ graph.now.fpgas }
    ensures builder { tools.new.builder.fpgas ≡ tools.old.builder.fpgas }
    ensures table { tools.new.table ≡ tools.old.table }
    ensures grown { IfOk result (IsGrowth graph.now
        (λ e. 2 * slice_index lengths.now.loads.now e + lengths.now.own) start terminals.now cap
        tools.new.found.items) }
    ensures kept { IfOk result (λ grown. IfNone grown (tools.new.found.items ≡ tools.old.found.items)) }
{
    let grown = grow_from(
        graph,
        lengths,
        &tools.table,
        scale,
        terminals,
        start,
        cap,
        &mut tools.builder,
    )?;
    if grown.is_none() {
        return Ok(None);
    }
    write_over(&mut tools.found, tools.builder.wires())?;
    Ok(grown)
}

/// Copies wires over those that a list has.
fn write_over(found: &mut Vec<u32>, wires: &[u32]) -> Result<(), AllocError>
    ensures { OnOk result (found.new.items ≡ wires.now) }
{
    found.clear();
    found.extend_from_slice(wires)?;
    Ok(())
}

/// Grows a tree from one terminal, with lower bounds where these help.
pub(crate) fn grow_from(
    graph: &BoardGraph,
    lengths: &Marginals,
    table: &Table,
    scale: u64,
    terminals: &[u32],
    start: u32,
    cap: u64,
    builder: &mut TreeBuilder,
) -> Result<Option<u64>, AllocError>
    requires covered { length graph.now.wires ≡ length lengths.now.loads.now }
    requires table { IsTable (board_of graph.now) table.now }
    requires part { scale ≤ 4096 }
    requires scaled { IsScaled table.now scale (λ e. 2 * slice_index lengths.now.loads.now e
        + lengths.now.own) }
    requires there { All (λ t. t < graph.now.fpgas) terminals.now }
    requires start { Contains terminals.now start }
    requires cap { cap ≤ 2 ^ 64 - 2 ^ 51 }
    requires builder { builder.old.fpgas ≡ graph.now.fpgas }
    ensures builder { builder.new.fpgas ≡ builder.old.fpgas }
    ensures grown { IfOk result (IsGrowth graph.now
        (λ e. 2 * slice_index lengths.now.loads.now e + lengths.now.own) start terminals.now cap
        builder.new.wires) }
{
    // A copy of its own: the search may keep its fields at hand while it writes labels.
    let near = Marginals {
        loads: lengths.loads,
        own: lengths.own,
    };
    if terminals.len() > MOST_BOUNDED || !table.is_used() {
        return builder.grow(graph, &near, &mut NoBound, terminals, start, cap);
    }
    let mut bounds = WayBounds::new(table, scale, terminals, start);
    builder.grow(graph, &near, &mut bounds, terminals, start, cap)
}
