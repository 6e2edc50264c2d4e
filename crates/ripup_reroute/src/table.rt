//! A table of distances between FPGAs, and the lower bounds of walks that it gives while loads change.
ghost use Rattle.std.specs.Prelude.{◌≡◌, ◌+◌, ◌*◌, ◌/◌, ◌^◌, ◌<◌, ◌≤◌, ℕ, List, true, false, length, slice_index, replicate, All, Contains, IfOk, OnOk};
ghost use Rattle.tdm_problem.specs.Board.{Board};
ghost use Rattle.tdm_problem.specs.Distance.{length_of};
ghost use Rattle.board_graph.specs.Graph.{board_of};
ghost use Rattle.shortest_forest.specs.Labels.{Labels, label_at, distance_in};
ghost use Rattle.ripup_reroute.specs.Bounds.{IsTable, IsTableAt, IsScaled, AreBelowWalks, bound_at, entry_of, tabled_length, row_entry};

use crate::marginals::Marginals;
use board_graph::BoardGraph;
use shortest_forest::{Lengths, Search, settle_all};
use std::alloc::{AllocError, Global};

/// The scale of a table that has just been made.
const WHOLE: u64 = 4096;

/// Below this scale a table is made anew where a pass begins.
const WORN_AT_PASS: u64 = WHOLE - 64;

/// Below this scale a table is made anew within a pass, if it has served long enough.
const WORN_IN_PASS: u64 = WHOLE - 256;

/// A table serves at least so many turns for each FPGA, unless a pass begins.
const TURNS_PER_FPGA: u32 = 16;

/// A board has a table if it has more than so many nets for each FPGA.
const NETS_PER_FPGA: u32 = 20;

/// No entry is greater.
pub(crate) const MOST_ENTRY: u64 = 1 << 51;

/// The distances between all FPGAs at the lengths of a moment, twice the loads, and a scale in 4096ths: each
/// wire is at least so many 4096ths as long as it was then. So an entry times the scale, over 4096, is a
/// lower bound of walks, however the loads have changed. There are 8 bytes for each two FPGAs, and none where
/// a board has few nets.
#[derive(Drop)]
pub(crate) struct Table {
    fpgas: u32,
    loads: Vec<u64>,
    distances: Vec<u64>,
    search: Search,
    scale: u64,
    turns_left: u32,
}

impl Table {
    /// A table whose bounds are all 0, for a board with so many nets.
    pub(crate) fn new(alloc: Global, graph: &BoardGraph, nets: u32) -> Result<Table, AllocError>
        ensures { IfOk result (λ table. (loads : List ℕ) → IsTableAt (board_of graph.now) loads table) }
    {
        let fpgas = graph.fpgas();
        // A quotient cannot overflow, as a product could; it asks for 19 nets more.
        let entries = if nets / NETS_PER_FPGA > fpgas {
            fpgas as usize * fpgas as usize
        } else {
            0
        };
        Ok(Table {
            fpgas,
            loads: vec![in alloc; 0u64; graph.wires() as usize]?,
            distances: vec![in alloc; 0u64; entries]?,
            search: Search::new(alloc, graph)?,
            scale: 0,
            turns_left: 0,
        })
    }

    /// Whether there are entries.
    pub(crate) fn is_used(&self) -> bool
        ensures { result ≡ true → 0 < length self.now.distances.items }
    {
        !self.distances.is_empty()
    }

    /// Makes the table anew where a pass begins, if it is worn.
    pub(crate) fn begin_pass(&mut self, graph: &BoardGraph, loads: &[u64]) -> Result<(), AllocError>
        requires table { IsTableAt (board_of graph.now) loads.now self.old }
        requires count { length loads.now ≡ length graph.now.wires }
        requires light { All (λ x. x ≤ 2 ^ 50) loads.now }
        ensures { OnOk result (IsTableAt (board_of graph.now) loads.now self.new) }
    {
        self.renew_below(WORN_AT_PASS, graph, loads)?;
        Ok(())
    }

    /// Counts a turn, and makes the table anew, if it is worn out and has served long enough.
    pub(crate) fn begin_turn(&mut self, graph: &BoardGraph, loads: &[u64]) -> Result<(), AllocError>
        requires table { IsTableAt (board_of graph.now) loads.now self.old }
        requires count { length loads.now ≡ length graph.now.wires }
        requires light { All (λ x. x ≤ 2 ^ 50) loads.now }
        ensures { OnOk result (IsTableAt (board_of graph.now) loads.now self.new) }
    {
        if self.turns_left > 0 {
            self.turns_left -= 1;
            return Ok(());
        }
        if self.scale >= WORN_IN_PASS {
            return Ok(());
        }
        self.renew_below(WORN_IN_PASS, graph, loads)?;
        Ok(())
    }

    /// Makes the table anew at these loads, if its scale is below a mark.
    fn renew_below(
        &mut self,
        mark: u64,
        graph: &BoardGraph,
        loads: &[u64],
    ) -> Result<(), AllocError>
        requires table { IsTableAt (board_of graph.now) loads.now self.old }
        requires count { length loads.now ≡ length graph.now.wires }
        requires light { All (λ x. x ≤ 2 ^ 50) loads.now }
        ensures { OnOk result (IsTableAt (board_of graph.now) loads.now self.new) }
    {
        if self.scale < mark && !self.distances.is_empty() {
            self.renew(graph, loads)?;
        }
        Ok(())
    }

    /// Makes the table at these loads.
    fn renew(&mut self, graph: &BoardGraph, loads: &[u64]) -> Result<(), AllocError>
        requires table { IsTable (board_of graph.now) self.old }
        requires count { length loads.now ≡ length graph.now.wires }
        requires light { All (λ x. x ≤ 2 ^ 50) loads.now }
        requires used { 0 < length self.old.distances.items }
        ensures { OnOk result (IsTableAt (board_of graph.now) loads.now self.new) }
    {
        self.loads.clear();
        self.loads.extend_from_slice(loads)?;
        let lengths = Marginals { loads, own: 0 };
        fill(&mut self.distances, &mut self.search, graph, &lengths)?;
        self.scale = WHOLE;
        self.turns_left = TURNS_PER_FPGA * self.fpgas;
        Ok(())
    }

    /// Lowers the scale as far as these wires ask at the present lengths.
    pub(crate) fn lower(&mut self, lengths: &Marginals, wires: &[u32])
        requires there { All (λ e. e < length lengths.now.loads.now) wires.now }
        requires count { length self.old.loads.items ≡ length lengths.now.loads.now }
        requires light { All (λ x. x ≤ 2 ^ 50) self.old.loads.items }
        requires small { self.old.scale ≤ 4096 }
        ensures table { (board : Board) → IsTable board self.old → IsTable board self.new }
        ensures loads { self.new.loads.items ≡ self.old.loads.items }
        ensures least { self.new.scale ≤ self.old.scale }
        ensures scaled { (e : ℕ) → Contains wires.now e → tabled_length self.new e * self.new.scale
            ≤ 4096 * (2 * slice_index lengths.now.loads.now e + lengths.now.own) }
    {
        self.scale = self.scale_for(lengths, wires);
    }

    /// The scale, or less if these wires ask it at the present lengths.
    pub(crate) fn scale_for(&self, lengths: &Marginals, wires: &[u32]) -> u64
        requires there { All (λ e. e < length lengths.now.loads.now) wires.now }
        requires count { length self.now.loads.items ≡ length lengths.now.loads.now }
        requires light { All (λ x. x ≤ 2 ^ 50) self.now.loads.items }
        requires small { self.now.scale ≤ 4096 }
        ensures least { result ≤ self.now.scale }
        ensures scaled { (e : ℕ) → Contains wires.now e → tabled_length self.now e * result
            ≤ 4096 * (2 * slice_index lengths.now.loads.now e + lengths.now.own) }
    {
        let mut scale = self.scale;
        for e in wires {
            scale = scale_at(scale, 2 * self.loads[*e as usize], lengths.len_of(*e));
        }
        scale
    }

    /// A lower bound of walks between two FPGAs, at a scale that the lengths keep.
    pub(crate) fn bound(&self, scale: u64, a: u32, b: u32) -> u64
        requires full { length self.now.distances.items ≡ self.now.fpgas * self.now.fpgas }
        requires small { All (λ d. d ≤ 2 ^ 51) self.now.distances.items }
        requires scale { scale ≤ 4096 }
        requires a { a < self.now.fpgas }
        requires b { b < self.now.fpgas }
        ensures value { result ≡ bound_at self.now scale a b }
        ensures small { result ≤ 2 ^ 51 }
    {
        at_scale(self.entry_of(a, b), scale)
    }

    /// The entry of two FPGAs.
    pub(crate) fn entry_of(&self, a: u32, b: u32) -> u64
        requires full { length self.now.distances.items ≡ self.now.fpgas * self.now.fpgas }
        requires small { All (λ d. d ≤ 2 ^ 51) self.now.distances.items }
        requires a { a < self.now.fpgas }
        requires b { b < self.now.fpgas }
        ensures value { result ≡ entry_of self.now.distances.items self.now.fpgas a b }
        ensures small { result ≤ 2 ^ 51 }
    {
        self.distances[a as usize * self.fpgas as usize + b as usize]
    }
}

/// An entry times a scale, over 4096.
pub(crate) fn at_scale(entry: u64, scale: u64) -> u64
    requires entry { entry ≤ 2 ^ 51 }
    requires scale { scale ≤ 4096 }
    ensures value { result ≡ entry * scale / 4096 }
    ensures small { result ≤ 2 ^ 51 }
{
    entry * scale / WHOLE
}

/// The scale, or less if a wire of this length asks it that was `tabled` long when the table was made.
fn scale_at(scale: u64, tabled: u64, length: u64) -> u64
    requires scale { scale ≤ 4096 }
    requires tabled { tabled ≤ 2 ^ 51 }
    requires length { length ≤ 2 ^ 51 }
    ensures least { result ≤ scale }
    ensures scaled { tabled * result ≤ 4096 * length }
{
    if WHOLE * length < tabled * scale {
        return WHOLE * length / tabled;
    }
    scale
}

/// Writes the distances of all FPGAs, row by row.
fn fill(
    distances: &mut Vec<u64>,
    search: &mut Search,
    graph: &BoardGraph,
    lengths: &Marginals,
) -> Result<(), AllocError>
    requires full { length distances.old.items ≡ graph.now.fpgas * graph.now.fpgas }
    requires covered { length graph.now.wires ≤ length lengths.now.loads.now }
    requires labels { length search.old.labels ≡ graph.now.fpgas }
    requires goals { search.old.goals ≡ replicate graph.now.fpgas false }
    requires small { All (λ d. d ≤ 2 ^ 51) distances.old.items }
    ensures size { length distances.new.items ≡ length distances.old.items }
    ensures labels { length search.new.labels ≡ length search.old.labels }
    ensures goals { search.new.goals ≡ search.old.goals }
    ensures small { All (λ d. d ≤ 2 ^ 51) distances.new.items }
    ensures below { OnOk result (AreBelowWalks (board_of graph.now)
        (λ e. 2 * slice_index lengths.now.loads.now e + lengths.now.own) distances.new.items) }
{
    let fpgas = graph.fpgas();
    for root in 0..fpgas {
        settle_all(search, graph, root, lengths)?;
        write_row(distances, search, root as usize * fpgas as usize, fpgas);
    }
    Ok(())
}

/// Writes the distances that a search has found for so many FPGAs, from a place on.
fn write_row(distances: &mut Vec<u64>, search: &Search, place: usize, fpgas: u32)
    requires room { place + fpgas ≤ length distances.old.items }
    requires labels { fpgas ≤ length search.now.labels }
    requires small { All (λ d. d ≤ 2 ^ 51) distances.old.items }
    ensures size { length distances.new.items ≡ length distances.old.items }
    ensures small { All (λ d. d ≤ 2 ^ 51) distances.new.items }
    ensures before { (i : ℕ) → i < place → slice_index distances.new.items i
        ≡ slice_index distances.old.items i }
    ensures row { (f : ℕ) → f < fpgas → slice_index distances.new.items (place + f)
        ≡ row_entry (distance_in (label_at search.now f)) }
{
    for f in 0..fpgas {
        distances[place + f as usize] = entry(search.distance(f));
    }
}

/// The entry for a distance, the greatest where no walk leads.
fn entry(distance: Option<u64>) -> u64
    ensures value { result ≡ row_entry distance }
    ensures small { result ≤ 2 ^ 51 }
{
    match distance {
        Some(d) => {
            if d < MOST_ENTRY {
                return d;
            }
            MOST_ENTRY
        }
        None => MOST_ENTRY,
    }
}
