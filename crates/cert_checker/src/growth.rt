//! How far FPGAs grow towards one another over wires with lengths.
ghost use Rattle.std.specs.Prelude.{◌≡◌, ◌≢◌, ◌+◌, ◌*◌, ◌^◌, ◌<◌, ◌≤◌, ◌⊎◌, ℕ, List, [], ◌∷◌, ◌++◌, length, slice_index, nat_lt, Some, All, AllPairs, Contains, IfOk, IfSome, IfNone, OnOk};
ghost use Rattle.tdm_problem.specs.Walk.{IsConnectable};
ghost use Rattle.board_graph.specs.Graph.{board_of, IsGraph};
ghost use Rattle.shortest_forest.specs.Arcs.{IsGoal};
ghost use Rattle.steiner_build.specs.Joining.{HasNoGoals};
ghost use Rattle.bound_cert.specs.Growth.{GrowOver, IsGrowth, IsReach, IsHeight};
ghost use Rattle.bound_cert.specs.Limits.{most_length};
ghost use Rattle.cert_checker.specs.MarkedLists.{IsLonger};
ghost use Rattle.cert_checker.specs.Growing.{arcs_of, height_in, nearer, AreGoals, HasDistances, HasNear, HasReached, IsLeastOf, ReachesNone, IsWornAt, IsWorn, IsTakenOff, AreListed, StaysListed};

use crate::marked_list::MarkedList;
use board_graph::BoardGraph;
use shortest_forest::{ArcLengths, MOST_CAP, Search, last_goal};
use std::alloc::{AllocError, Global};
use std::marker::Model;

/// Grows sets of FPGAs towards one another over the same lengths of wires, one set after another. It is made
/// once, and its memory, which grows with the FPGAs and the wires, serves every set. A call takes time for
/// what it searches alone, and allocates only where the queue of a search is longer than ever before. The
/// first FPGA that grows does so over whole lengths: how far all others are from it is kept for the next set,
/// so sets in which the same FPGA is the second are best grown one after another.
#[derive(Drop)]
pub struct Grower<'a> {
    graph: &'a BoardGraph,
    lengths: Vec<u64>,
    start: Search,
    started: Option<u32>,
    search: Search,
    up: Vec<u64>,
    down: Vec<u64>,
    worn: MarkedList,
    near: MarkedList,
}

impl<'a> Model for Grower<'a> {
    ghost use Rattle.std.specs.Prelude.{◌≡◌, ◌≤◌, length, slice_index, [], ℕ, IfSome};
    ghost use Rattle.board_graph.specs.Graph.{board_of, IsGraph};
    ghost use Rattle.steiner_build.specs.Joining.{HasNoGoals};
    ghost use Rattle.bound_cert.specs.Limits.{most_length};
    ghost use Rattle.cert_checker.specs.Growing.{Lengths, arcs_of, HasDistances};

    ghost Value = { Lengths };

    ghost view = { λ g. record { graph = g.graph.now; lengths = g.lengths.items } };

    ghost invariant = { λ g. IsGraph g.graph.now × (length g.lengths.items ≡ length g.graph.now.wires)
        × ((e : ℕ) → slice_index g.lengths.items e ≤ most_length)
        × HasNoGoals g.start.goals × (length g.start.goals ≡ g.graph.now.fpgas)
        × (length g.start.labels ≡ g.graph.now.fpgas)
        × IfSome g.started (λ x. HasDistances (board_of g.graph.now) (arcs_of g.lengths.items g.lengths.items)
        x g.start)
        × HasNoGoals g.search.goals × (length g.search.goals ≡ g.graph.now.fpgas)
        × (length g.search.labels ≡ g.graph.now.fpgas)
        × (g.up.items ≡ g.lengths.items) × (g.down.items ≡ g.lengths.items)
        × (g.worn.listed ≡ []) × (g.worn.limit ≡ length g.graph.now.wires)
        × (g.near.limit ≡ g.graph.now.fpgas) };
}

impl<'a> Grower<'a> {
    /// Made for a graph and the length of each of its wires, at most 2^48.
    pub fn new(
        alloc: Global,
        graph: &'a BoardGraph,
        lengths: &[u64],
    ) -> Result<Grower<'a>, AllocError>
        requires count { length lengths.now ≡ length graph.now.wires }
        requires small { All (λ l. l ≤ most_length) lengths.now }
        ensures graph { IfOk result (λ grower. grower.graph ≡ graph.now) }
        ensures lengths { IfOk result (λ grower. grower.lengths ≡ lengths.now) }
    {
        let start = Search::new(alloc, graph)?;
        let search = Search::new(alloc, graph)?;
        let up = lengths.to_vec(alloc)?;
        let down = lengths.to_vec(alloc)?;
        let lengths = lengths.to_vec(alloc)?;
        let wires = graph.wires();
        let fpgas = graph.fpgas();
        let worn = MarkedList::new(alloc, wires)?;
        let near = MarkedList::new(alloc, fpgas)?;
        Ok(Grower {
            graph,
            lengths,
            start,
            started: None,
            search,
            up,
            down,
            worn,
            near,
        })
    }

    /// How far these FPGAs of the graph, all different, grow: the first is the root, and the others grow in
    /// order, each until it reaches the root or one that is still to grow, over what those before it left of
    /// each wire in each direction. 0 where wires do not join them all. The only error is want of memory; the
    /// grower may be used again then too.
    pub fn growth(&mut self, fpgas: &[u32]) -> Result<u128, AllocError>
        requires there { All (λ f. f < self.old.graph.fpgas) fpgas.now }
        requires distinct { AllPairs (λ x y. x ≢ y) fpgas.now }
        ensures same { self.new ≡ self.old }
        ensures growth { IfOk result (IsGrowth (board_of self.old.graph) (slice_index self.old.lengths)
            fpgas.now) }
    {
        let Some((root, growing)) = fpgas.split_first() else {
            return Ok(0);
        };
        let Some((first, later)) = growing.split_first() else {
            return Ok(0);
        };
        let reached = first_reach(
            &mut self.start,
            &mut self.started,
            self.graph,
            &self.lengths,
            *root,
            *first,
            later,
        )?;
        let Some(reach) = reached else {
            return Ok(0);
        };
        if later.is_empty() {
            return Ok(u128::from(reach));
        }
        mark(&mut self.search, fpgas);
        self.search.remove_goal(*first);
        let grown = grow_all(
            &self.start,
            reach,
            &mut self.search,
            self.graph,
            &mut self.up,
            &mut self.down,
            &mut self.worn,
            &mut self.near,
            *root,
            *first,
            later,
        );
        unmark(&mut self.search, fpgas);
        restore(
            &self.lengths,
            &mut self.up,
            &mut self.down,
            self.worn.items(),
        );
        self.worn.clear();
        Ok(grown?.unwrap_or(0))
    }
}

/// Finds how far all FPGAs are from FPGA `x` over whole lengths, unless that was found last.
fn start_from(
    start: &mut Search,
    started: &mut Option<u32>,
    graph: &BoardGraph,
    lengths: &[u64],
    x: u32,
) -> Result<(), AllocError>
    requires graph { IsGraph graph.now }
    requires there { x < graph.now.fpgas }
    requires labels { length start.old.labels ≡ graph.now.fpgas }
    requires goals { length start.old.goals ≡ graph.now.fpgas }
    requires none { HasNoGoals start.old.goals }
    requires count { length lengths.now ≡ length graph.now.wires }
    requires small { (e : ℕ) → slice_index lengths.now e ≤ 2 ^ 51 }
    requires known { IfSome started.old (λ from. HasDistances (board_of graph.now)
        (arcs_of lengths.now lengths.now) from start.old) }
    ensures labels { length start.new.labels ≡ length start.old.labels }
    ensures goals { start.new.goals ≡ start.old.goals }
    ensures known { IfSome started.new (λ from. HasDistances (board_of graph.now)
        (arcs_of lengths.now lengths.now) from start.new) }
    ensures started { OnOk result (started.new ≡ Some x) }
{
    if *started == Some(x) {
        return Ok(());
    }
    *started = None;
    let _none = reach_from(start, graph, lengths, lengths, x)?;
    *started = Some(x);
    Ok(())
}

/// How far the first FPGA is over whole lengths from the nearest of the root and the later ones, None where
/// no wires lead to any of them.
fn first_reach(
    start: &mut Search,
    started: &mut Option<u32>,
    graph: &BoardGraph,
    lengths: &[u64],
    root: u32,
    first: u32,
    later: &[u32],
) -> Result<Option<u64>, AllocError>
    requires graph { IsGraph graph.now }
    requires there { All (λ f. f < graph.now.fpgas) (root ∷ first ∷ later.now) }
    requires labels { length start.old.labels ≡ graph.now.fpgas }
    requires goals { length start.old.goals ≡ graph.now.fpgas }
    requires none { HasNoGoals start.old.goals }
    requires count { length lengths.now ≡ length graph.now.wires }
    requires small { (e : ℕ) → slice_index lengths.now e ≤ 2 ^ 51 }
    requires known { IfSome started.old (λ from. HasDistances (board_of graph.now)
        (arcs_of lengths.now lengths.now) from start.old) }
    ensures labels { length start.new.labels ≡ length start.old.labels }
    ensures goals { start.new.goals ≡ start.old.goals }
    ensures known { IfSome started.new (λ from. HasDistances (board_of graph.now)
        (arcs_of lengths.now lengths.now) from start.new) }
    ensures reached { IfOk result (λ reached. IfSome reached (IsReach (board_of graph.now)
        (arcs_of lengths.now lengths.now) first (root ∷ later.now))) }
    ensures heights { IfOk result (λ reached. IfSome reached (λ reach. (f : ℕ)
        → IsHeight (board_of graph.now) (arcs_of lengths.now lengths.now) first reach f
        (height_in start.new reach f))) }
    ensures apart { IfOk result (λ reached. IfNone reached
        (¬ IsConnectable (board_of graph.now) (root ∷ first ∷ later.now))) }
{
    start_from(start, started, graph, lengths, first)?;
    Ok(least_distance(start, root, later))
}

/// The least distance of the root and of these FPGAs, None where none of them has a label.
fn least_distance(search: &Search, root: u32, fpgas: &[u32]) -> Option<u64>
    requires root { root < length search.now.labels }
    requires there { All (λ f. f < length search.now.labels) fpgas.now }
    ensures { IsLeastOf search.now (Contains (root ∷ fpgas.now)) result }
{
    let mut least = search.distance(root);
    for f in fpgas {
        least = nearer(least, search.distance(*f));
    }
    least
}

/// The lesser of two distances, where None is more than any.
fn nearer(a: Option<u64>, b: Option<u64>) -> Option<u64>
    ensures { result ≡ nearer a b }
{
    match (a, b) {
        (None, b) => b,
        (Some(a), None) => Some(a),
        (Some(a), Some(b)) => Some(a.min(b)),
    }
}

/// Begins a search whose goals are these FPGAs.
fn mark(search: &mut Search, fpgas: &[u32])
    requires there { All (λ f. f < length search.old.goals) fpgas.now }
    requires count { length search.old.labels ≡ length search.old.goals }
    requires distinct { AllPairs (λ x y. x ≢ y) fpgas.now }
    requires none { HasNoGoals search.old.goals }
    ensures goals { AreGoals fpgas.now search.new.goals }
    ensures count { length search.new.goals ≡ length search.old.goals }
    ensures labels { length search.new.labels ≡ length search.old.labels }
{
    search.begin();
    for f in fpgas {
        search.add_goal(*f);
    }
}

/// Takes the goals away, which are some of these FPGAs.
fn unmark(search: &mut Search, fpgas: &[u32])
    requires there { All (λ f. f < length search.old.goals) fpgas.now }
    requires goals { (f : ℕ) → IsGoal search.old.goals f → Contains fpgas.now f }
    ensures none { HasNoGoals search.new.goals }
    ensures count { length search.new.goals ≡ length search.old.goals }
    ensures labels { length search.new.labels ≡ length search.old.labels }
{
    for f in fpgas {
        search.remove_goal(*f);
    }
}

/// Gives the listed wires their whole lengths again.
fn restore(lengths: &[u64], up: &mut Vec<u64>, down: &mut Vec<u64>, worn: &[u32])
    requires listed { AreListed lengths.now up.old.items down.old.items worn.now }
    ensures up { up.new.items ≡ lengths.now }
    ensures down { down.new.items ≡ lengths.now }
{
    for e in worn {
        let e = *e as usize;
        up[e] = lengths[e];
        down[e] = lengths[e];
    }
}

/// What is left of the lengths of wires, on the way to the end of the greater number and on the way back.
#[derive(Drop)]
struct Rests<'a> {
    up: &'a [u64],
    down: &'a [u64],
    ghost even: { length down.now ≡ length up.now },
    ghost small: { (e a b : ℕ) → arcs_of up.now down.now e a b ≤ 2 ^ 51 },
}

impl ArcLengths for Rests<'_> {
    ghost arcs_covered = { λ r. length r.up.now };

    ghost arc_length = { λ r. arcs_of r.up.now r.down.now };

    ghost arc_limit = { λ r e a b below. r.small e a b };

    fn arc_len(&self, wire: u32, from: u32, to: u32) -> u64 {
        if from < to {
            self.up[wire as usize]
        } else {
            self.down[wire as usize]
        }
    }
}

/// How much nearer an FPGA is than the reach of a search; 0 where it is no nearer.
fn height(search: &Search, reach: u64, f: u32) -> u64
    requires { f < length search.now.labels }
    ensures { result ≡ height_in search.now reach f }
{
    match search.label(f) {
        Some(label) => reach.saturating_sub(label.distance),
        None => 0,
    }
}

/// Takes a fall from what is left of a wire on the way from one of its ends to the other.
fn take_off(up: &mut Vec<u64>, down: &mut Vec<u64>, wire: u32, from: u32, to: u32, fall: u64)
    requires up { wire < length up.old.items }
    requires down { wire < length down.old.items }
    requires differ { from ≢ to }
    ensures taken { IsTakenOff wire from to fall (arcs_of up.old.items down.old.items)
        (arcs_of up.new.items down.new.items) }
    ensures up { length up.new.items ≡ length up.old.items }
    ensures down { length down.new.items ≡ length down.old.items }
    ensures listed { (worn : List ℕ) → Contains worn wire
        → StaysListed up.old.items down.old.items worn up.new.items down.new.items worn }
{
    let e = wire as usize;
    if from < to {
        up[e] = up[e].saturating_sub(fall);
    } else {
        down[e] = down[e].saturating_sub(fall);
    }
}

/// Takes a fall, where there is one, from what is left of a wire on the way from one of its ends to the
/// other, and lists the wire.
fn wear_wire(
    up: &mut Vec<u64>,
    down: &mut Vec<u64>,
    worn: &mut MarkedList,
    wire: u32,
    from: u32,
    to: u32,
    fall: u64,
) -> Result<(), AllocError>
    requires up { wire < length up.old.items }
    requires down { wire < length down.old.items }
    requires limit { worn.old.limit ≡ length up.old.items }
    requires differ { from ≢ to }
    ensures taken { OnOk result (IsTakenOff wire from to fall (arcs_of up.old.items down.old.items)
        (arcs_of up.new.items down.new.items)) }
    ensures up { length up.new.items ≡ length up.old.items }
    ensures down { length down.new.items ≡ length down.old.items }
    ensures limit { worn.new.limit ≡ worn.old.limit }
    ensures listed { StaysListed up.old.items down.old.items worn.old.listed up.new.items down.new.items
        worn.new.listed }
{
    if fall == 0 {
        return Ok(());
    }
    worn.add(wire)?;
    take_off(up, down, wire, from, to, fall);
    Ok(())
}

/// Lists FPGA `f` where it has a height.
fn list_near(near: &mut MarkedList, f: u32, height: u64) -> Result<(), AllocError>
    requires { f < near.old.limit }
    ensures limit { near.new.limit ≡ near.old.limit }
    ensures there { OnOk result (0 < height → Contains near.new.listed f) }
    ensures longer { IsLonger near.old.listed near.new.listed }
{
    if height == 0 {
        return Ok(());
    }
    near.add(f)?;
    Ok(())
}

/// Takes the falls of the heights from what is left of the wires on the ways from FPGA `f`, and lists these
/// wires and the FPGAs at their ends that have a height.
fn wear_at(
    search: &Search,
    graph: &BoardGraph,
    reach: u64,
    f: u32,
    up: &mut Vec<u64>,
    down: &mut Vec<u64>,
    worn: &mut MarkedList,
    near: &mut MarkedList,
) -> Result<(), AllocError>
    requires graph { IsGraph graph.now }
    requires there { f < graph.now.fpgas }
    requires labels { length search.now.labels ≡ graph.now.fpgas }
    requires up { length up.old.items ≡ length graph.now.wires }
    requires down { length down.old.items ≡ length graph.now.wires }
    requires worn_limit { worn.old.limit ≡ length graph.now.wires }
    requires near_limit { near.old.limit ≡ graph.now.fpgas }
    ensures worn { OnOk result (IsWornAt (board_of graph.now) (height_in search.now reach) f
        (arcs_of up.old.items down.old.items) (arcs_of up.new.items down.new.items)) }
    ensures near { OnOk result (HasNear (board_of graph.now) (height_in search.now reach) f near.new.listed) }
    ensures longer { IsLonger near.old.listed near.new.listed }
    ensures near_limit { near.new.limit ≡ near.old.limit }
    ensures worn_limit { worn.new.limit ≡ worn.old.limit }
    ensures up { length up.new.items ≡ length up.old.items }
    ensures down { length down.new.items ≡ length down.old.items }
    ensures listed { StaysListed up.old.items down.old.items worn.old.listed up.new.items down.new.items
        worn.new.listed }
{
    let here = height(search, reach, f);
    for x in graph.neighbours(f) {
        let there = height(search, reach, x.fpga);
        list_near(near, x.fpga, there)?;
        let fall = here.saturating_sub(there);
        wear_wire(up, down, worn, x.wire, f, x.fpga, fall)?;
    }
    Ok(())
}

/// Takes the falls of the heights from what is left of all wires, after a search from FPGA `x`: wires lead
/// from there over FPGAs that have a height to each of them, so no others are looked at.
fn wear(
    search: &Search,
    graph: &BoardGraph,
    reach: u64,
    x: u32,
    up: &mut Vec<u64>,
    down: &mut Vec<u64>,
    worn: &mut MarkedList,
    near: &mut MarkedList,
) -> Result<(), AllocError>
    requires graph { IsGraph graph.now }
    requires there { x < graph.now.fpgas }
    requires labels { length search.now.labels ≡ graph.now.fpgas }
    requires heights { (f : ℕ) → IsHeight (board_of graph.now) (arcs_of up.old.items down.old.items) x reach f
        (height_in search.now reach f) }
    requires up { length up.old.items ≡ length graph.now.wires }
    requires down { length down.old.items ≡ length graph.now.wires }
    requires worn_limit { worn.old.limit ≡ length graph.now.wires }
    requires near_limit { near.old.limit ≡ graph.now.fpgas }
    ensures worn { OnOk result (IsWorn (board_of graph.now) (height_in search.now reach)
        (arcs_of up.old.items down.old.items) (arcs_of up.new.items down.new.items)) }
    ensures near_limit { near.new.limit ≡ near.old.limit }
    ensures worn_limit { worn.new.limit ≡ worn.old.limit }
    ensures up { length up.new.items ≡ length up.old.items }
    ensures down { length down.new.items ≡ length down.old.items }
    ensures listed { StaysListed up.old.items down.old.items worn.old.listed up.new.items down.new.items
        worn.new.listed }
{
    near.clear();
    near.add(x)?;
    let mut i = 0;
    while let Some(f) = near.get(i) {
        wear_at(search, graph, reach, f, up, down, worn, near)?;
        i += 1;
    }
    Ok(())
}

/// Searches from FPGA `x` for the nearest goal over what is left of the wires, and answers how far that is;
/// None where no wires lead to a goal.
fn reach_from(
    search: &mut Search,
    graph: &BoardGraph,
    up: &[u64],
    down: &[u64],
    x: u32,
) -> Result<Option<u64>, AllocError>
    requires graph { IsGraph graph.now }
    requires there { x < graph.now.fpgas }
    requires labels { length search.old.labels ≡ graph.now.fpgas }
    requires goals { length search.old.goals ≡ graph.now.fpgas }
    requires up { length up.now ≡ length graph.now.wires }
    requires down { length down.now ≡ length graph.now.wires }
    requires up_small { (e : ℕ) → slice_index up.now e ≤ 2 ^ 51 }
    requires down_small { (e : ℕ) → slice_index down.now e ≤ 2 ^ 51 }
    ensures labels { length search.new.labels ≡ length search.old.labels }
    ensures goals { search.new.goals ≡ search.old.goals }
    ensures reached { IfOk result (λ found. IfSome found
        (HasReached (board_of graph.now) (arcs_of up.now down.now) x search.new)) }
    ensures small { IfOk result (λ found. IfSome found (λ reach. reach < 2 ^ 64)) }
    ensures none { IfOk result (λ found. IfNone found (ReachesNone (board_of graph.now) x search.new)) }
    ensures all { IfOk result (λ found. IfNone found
        (HasDistances (board_of graph.now) (arcs_of up.now down.now) x search.new)) }
{
    search.begin();
    search.add_source(x)?;
    let rests = Rests { up, down };
    let Some(goal) = last_goal(search, graph, &rests, MOST_CAP)? else {
        return Ok(None);
    };
    Ok(search.distance(goal))
}

/// Grows FPGAs in order towards the root and those that are still to grow, which are the goals, and answers
/// how far they grow together; None where wires do not join them all. The first has reached the nearest of
/// the others before. What is left of the wires is then less on those listed.
fn grow_all(
    start: &Search,
    reach: u64,
    search: &mut Search,
    graph: &BoardGraph,
    up: &mut Vec<u64>,
    down: &mut Vec<u64>,
    worn: &mut MarkedList,
    near: &mut MarkedList,
    root: u32,
    first: u32,
    later: &[u32],
) -> Result<Option<u128>, AllocError>
    requires graph { IsGraph graph.now }
    requires start_labels { length start.now.labels ≡ graph.now.fpgas }
    requires reach { IsReach (board_of graph.now) (arcs_of up.old.items down.old.items) first
        (root ∷ later.now) reach }
    requires heights { (f : ℕ) → IsHeight (board_of graph.now) (arcs_of up.old.items down.old.items) first
        reach f (height_in start.now reach f) }
    requires labels { length search.old.labels ≡ graph.now.fpgas }
    requires goals { length search.old.goals ≡ graph.now.fpgas }
    requires up { length up.old.items ≡ length graph.now.wires }
    requires down { length down.old.items ≡ length graph.now.wires }
    requires worn_limit { worn.old.limit ≡ length graph.now.wires }
    requires near_limit { near.old.limit ≡ graph.now.fpgas }
    requires listed { (lengths : List ℕ) × AreListed lengths up.old.items down.old.items worn.old.listed
        × ((e : ℕ) → slice_index lengths e ≤ 2 ^ 51) }
    requires there { All (λ f. f < graph.now.fpgas) (first ∷ later.now) }
    requires distinct { AllPairs (λ x y. x ≢ y) (root ∷ first ∷ later.now) }
    requires marked { AreGoals (root ∷ later.now) search.old.goals }
    ensures labels { length search.new.labels ≡ length search.old.labels }
    ensures goals { length search.new.goals ≡ length search.old.goals }
    ensures among { (f : ℕ) → IsGoal search.new.goals f → Contains (root ∷ first ∷ later.now) f }
    ensures grown { IfOk result (λ grown. IfSome grown (GrowOver (board_of graph.now) root
        (first ∷ later.now) (arcs_of up.old.items down.old.items))) }
    ensures apart { IfOk result (λ grown. IfNone grown
        (¬ IsConnectable (board_of graph.now) (root ∷ first ∷ later.now))) }
    ensures up { length up.new.items ≡ length up.old.items }
    ensures down { length down.new.items ≡ length down.old.items }
    ensures worn_limit { worn.new.limit ≡ worn.old.limit }
    ensures near_limit { near.new.limit ≡ near.old.limit }
    ensures listed { StaysListed up.old.items down.old.items worn.old.listed up.new.items down.new.items
        worn.new.listed }
{
    let mut growth = u128::from(reach);
    wear(start, graph, reach, first, up, down, worn, near)?;
    for i in 0..later.len() {
        let x = later[i];
        search.remove_goal(x);
        let Some(reach) = reach_from(search, graph, up, down, x)? else {
            return Ok(None);
        };
        growth += u128::from(reach);
        if i + 1 == later.len() {
            return Ok(Some(growth));
        }
        wear(search, graph, reach, x, up, down, worn, near)?;
    }
    Ok(Some(growth))
}
