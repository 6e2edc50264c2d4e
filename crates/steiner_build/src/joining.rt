//! How a tree grows: the nearest terminal that is left is joined by a least path, again and again.
ghost use Rattle.std.specs.Prelude.{◌≡◌, ◌≢◌, ◌+◌, ◌-◌, ◌^◌, ◌<◌, ◌≤◌, ℕ, List, [], false, replicate, length, slice_index_or, slice_set, Contains, All, IfOk, OnOk, IfSome, IfNone, None};
ghost use Rattle.tdm_problem.specs.Walk.{IsWalk, AnyWire};
ghost use Rattle.board_graph.specs.Graph.{IsGraph, board_of};
ghost use Rattle.shortest_forest.specs.Arcs.{IsGoal, both_ways};
ghost use Rattle.shortest_forest.specs.Labels.{IsUnderWay, IsBegun, StaysUnderWay, IsSource};
ghost use Rattle.steiner_build.specs.Building.{IsWithinWalks};
ghost use Rattle.steiner_build.specs.Joining.{IsTakenIn, IsJoinedBy, IsJoining, IsWithinGoals, HasNoGoals, AreOthers, IsSomeBeyond, goal_count};

use crate::bounds::TreeBounds;
use board_graph::BoardGraph;
use shortest_forest::{BothWays, Lengths, Search, nearest_goal, other_end, way_back};
use std::alloc::AllocError;

/// Makes the terminals but `start` goals, and answers how many they are.
pub(crate) fn mark(search: &mut Search, terminals: &[u32], start: u32) -> usize
    requires there { All (λ t. t < length search.old.goals) terminals.now }
    requires none { HasNoGoals search.old.goals }
    requires fresh { (f : ℕ) → slice_index_or search.old.labels f None ≡ None }
    ensures labels { search.new.labels ≡ search.old.labels }
    ensures queue { search.new.queue ≡ search.old.queue }
    ensures size { length search.new.goals ≡ length search.old.goals }
    ensures goals { AreOthers terminals.now start search.new.goals }
    ensures under_way { StaysUnderWay search.old search.new }
    ensures count { result ≡ goal_count search.new.goals }
{
    let mut others = 0;
    for t in terminals {
        if *t == start {
            continue;
        }
        if search.is_goal(*t) {
            continue;
        }
        search.add_goal(*t);
        others += 1;
    }
    others
}

/// Takes the marks of the terminals away.
pub(crate) fn unmark(search: &mut Search, terminals: &[u32])
    requires there { All (λ t. t < length search.old.goals) terminals.now }
    requires goals { (f : ℕ) → IsGoal search.old.goals f → Contains terminals.now f }
    ensures none { HasNoGoals search.new.goals }
    ensures size { length search.new.goals ≡ length search.old.goals }
    ensures labels { length search.new.labels ≡ length search.old.labels }
{
    for t in terminals {
        search.remove_goal(*t);
    }
}

/// Joins the goals, which are so many, with `start` and with one another, if that takes less than `cap`.
pub(crate) fn join_all<Q: Lengths, B: TreeBounds>(
    search: &mut Search,
    wires: &mut Vec<u32>,
    graph: &BoardGraph,
    lengths: &Q,
    bounds: &mut B,
    start: u32,
    others: usize,
    cap: u64,
) -> Result<Option<u64>, AllocError>
    requires graph { IsGraph graph.now }
    requires lengths { length graph.now.wires ≤ Q.covered lengths.now }
    requires bounds { graph.now.fpgas ≤ B.bounds_covered bounds.old }
    requires cap { cap ≤ 2 ^ 64 - 2 ^ 51 }
    requires some { 0 < cap }
    requires start { start < graph.now.fpgas }
    requires none { wires.old.items ≡ [] }
    requires begun { search.old.labels ≡ replicate graph.now.fpgas None }
    requires under_way { IsUnderWay
        (board_of graph.now) (both_ways (Q.length lengths.now)) (B.lower_bound bounds.old) cap search.old }
    requires lawful { B.are_true bounds.old (board_of graph.now) (Q.length lengths.now) search.old.goals }
    requires count { others ≡ goal_count search.old.goals }
    ensures size { length search.new.goals ≡ length search.old.goals }
    ensures labels { length search.new.labels ≡ length search.old.labels }
    ensures goals { (f : ℕ) → IsGoal search.new.goals f → IsGoal search.old.goals f }
    ensures joined { IfOk result (λ grown. IfSome grown (λ total. HasNoGoals search.new.goals
        × ((terminals : List ℕ) → Contains terminals start → AreOthers terminals start search.old.goals
        → IsJoining (board_of graph.now) (Q.length lengths.now) start terminals search.new wires.new.items
        total))) }
    ensures below { IfOk result (λ grown. IfSome grown (λ total. total < cap)) }
    ensures far { IfOk result (λ grown. IfNone grown ((terminals : List ℕ) → Contains terminals start
        → AreOthers terminals start search.old.goals
        → IsWithinWalks (board_of graph.now) (Q.length lengths.now) start terminals cap
        × IsSomeBeyond (board_of graph.now) (Q.length lengths.now) start terminals cap)) }
{
    search.add_source(start)?;
    let mut total = 0;
    let mut left = others;
    while left > 0 {
        match join_nearest(search, wires, graph, lengths, bounds, cap - total)? {
            Some(distance) => total += distance,
            None => return Ok(None),
        }
        left -= 1;
    }
    Ok(Some(total))
}

/// Joins the nearest goal with the tree and answers the length of the path to it. None where no goal is
/// nearer than `cap`.
fn join_nearest<Q: Lengths, B: TreeBounds>(
    search: &mut Search,
    wires: &mut Vec<u32>,
    graph: &BoardGraph,
    lengths: &Q,
    bounds: &mut B,
    cap: u64,
) -> Result<Option<u64>, AllocError>
    requires graph { IsGraph graph.now }
    requires lengths { length graph.now.wires ≤ Q.covered lengths.now }
    requires bounds { graph.now.fpgas ≤ B.bounds_covered bounds.old }
    requires cap { cap ≤ 2 ^ 64 - 2 ^ 51 }
    requires under_way { IsUnderWay
        (board_of graph.now) (both_ways (Q.length lengths.now)) (B.lower_bound bounds.old) cap search.old }
    requires lawful { B.are_true bounds.old (board_of graph.now) (Q.length lengths.now) search.old.goals }
    ensures covered { B.bounds_covered bounds.new ≡ B.bounds_covered bounds.old }
    ensures under_way { OnOk result (IsUnderWay
        (board_of graph.now) (both_ways (Q.length lengths.now)) (B.lower_bound bounds.new) cap search.new) }
    ensures lawful { IfOk result (λ found. IfSome found (λ _.
        B.are_true bounds.new (board_of graph.now) (Q.length lengths.now) search.new.goals)) }
    ensures joined { IfOk result (λ found. IfSome found (IsJoinedBy
        (board_of graph.now) (Q.length lengths.now) search.old search.new wires.old.items wires.new.items)) }
    ensures below { IfOk result (λ found. IfSome found (λ distance. distance < cap)) }
    ensures far { IfOk result (λ found. IfNone found
        (IsWithinGoals (board_of graph.now) (Q.length lengths.now) search.old cap)) }
    ensures count { length search.new.goals ≡ length search.old.goals }
    ensures size { length search.new.labels ≡ length search.old.labels }
    ensures goals { (f : ℕ) → IsGoal search.new.goals f → IsGoal search.old.goals f }
{
    let Some(goal) = nearest_goal(search, graph, &BothWays(lengths), bounds, cap)? else {
        return Ok(None);
    };
    let distance = search.distance(goal).unwrap_or(0);
    let joined = wires.len();
    way_back(search, graph, goal, wires)?;
    search.remove_goal(goal);
    bounds.join(goal);
    take_in(search, graph, goal, &wires[joined..])?;
    Ok(Some(distance))
}

/// Makes the FPGAs on the path of these wires from `goal` sources, all but the last.
fn take_in(
    search: &mut Search,
    graph: &BoardGraph,
    goal: u32,
    path: &[u32],
) -> Result<(), AllocError>
    requires graph { IsGraph graph.now }
    requires path { (end : ℕ) × IsWalk (board_of graph.now) (AnyWire (board_of graph.now)) goal path.now end }
    requires size { length search.old.labels ≡ graph.now.fpgas }
    ensures sources { OnOk result (IsTakenIn (board_of graph.now) goal path.now search.old search.new) }
    ensures under_way { OnOk result (StaysUnderWay search.old search.new) }
    ensures goals { search.new.goals ≡ search.old.goals }
    ensures size { length search.new.labels ≡ length search.old.labels }
{
    let mut f = goal;
    for e in path {
        search.add_source(f)?;
        f = other_end(graph.wire(*e), f);
    }
    Ok(())
}
