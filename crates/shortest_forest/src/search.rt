//! The labels of a search over lengths, its goals and its queue: a workspace that is made once for a graph.
ghost use Rattle.std.specs.Prelude.{◌≡◌, ◌<◌, ◌≤◌, ℕ, true, false, ◌∷◌, [], length, Some, None, replicate, slice_get, slice_index_or, slice_set, IfOk, IfSome, IfNone, OnOk, OnErr, IsTrue, ◌↔◌, IsPermutation};
ghost use Rattle.shortest_forest.specs.Labels.{label_at, distance_in, wire_in, IsAtLabel, IsWaiting, IsLowered, IsQueued, IsTaken, IsFront, KeepsMarks, StaysUnderWay, IsBegun};

use crate::label::Label;
use crate::stamped::{Stamped, label_in, next_stamp, unknown_labels};
use board_graph::BoardGraph;
use std::alloc::{AllocError, Global};
use std::cmp::Reverse;
use std::collections::BinaryHeap;
use std::marker::Model;

/// The workspace of searches over lengths on one graph: a label for each FPGA, marks of the goals, and the
/// queue of those that are not settled. It is made once, and each search uses it again: to begin takes no
/// time in proportion to the graph, but once in 2^32 searches, and no call allocates but where the queue
/// grows.
#[derive(Drop)]
pub struct Search {
    labels: Vec<Stamped>,
    goals: Vec<bool>,
    queue: BinaryHeap<Reverse<(u64, u32)>>,
    stamp: u32,
}

impl Model for Search {
    ghost use Rattle.std.specs.Prelude.{◌≡◌, length, map};
    ghost use Rattle.std.specs.BinaryHeap.{heap_items, IsHeap};
    ghost use Rattle.shortest_forest.specs.Labels.{Labels};
    ghost use Rattle.shortest_forest.specs.Stamps.{label_of, AreNotLater, queue_cmp};

    ghost Value = { Labels };

    ghost view = { λ s. record {
      labels = map (label_of s.stamp) s.labels.items;
      goals = s.goals.items;
      queue = heap_items s.queue;
    } };

    ghost invariant = { λ s. AreNotLater s.stamp s.labels.items × IsHeap queue_cmp (heap_items s.queue) };
}

impl Search {
    /// A workspace for a graph, without labels and goals. The first search starts with [`Search::begin`] too.
    pub fn new(alloc: Global, graph: &BoardGraph) -> Result<Search, AllocError>
        ensures labels { IfOk result (λ search. search.labels ≡ replicate graph.now.fpgas None) }
        ensures goals { IfOk result (λ search. search.goals ≡ replicate graph.now.fpgas false) }
        ensures queue { IfOk result (λ search. search.queue ≡ []) }
    {
        let fpgas = graph.fpgas() as usize;
        let search = Search {
            labels: unknown_labels(alloc, fpgas)?,
            goals: vec![in alloc; false; fpgas]?,
            queue: BinaryHeap::new(alloc),
            stamp: 1,
        };
        Ok(search)
    }

    /// Begins a search: no FPGA has a label any more. The goals stay.
    pub fn begin(&mut self)
        ensures labels { self.new.labels ≡ replicate (length self.old.labels) None }
        ensures goals { self.new.goals ≡ self.old.goals }
        ensures queue { self.new.queue ≡ [] }
        ensures begun { IsBegun self.new }
    {
        self.restart();
    }

    /// Takes away all labels and what waits.
    fn restart(&mut self)
        ensures labels { self.new.labels ≡ replicate (length self.old.labels) None }
        ensures goals { self.new.goals ≡ self.old.goals }
        ensures queue { self.new.queue ≡ [] }
    {
        self.queue.clear();
        let stamp = next_stamp(&mut self.labels, self.stamp);
        self.stamp = stamp;
    }

    /// Makes FPGA `f` a source: it has the distance 0 and no wire, and waits in the queue. After want of
    /// memory the search is as it was.
    pub fn add_source(&mut self, f: u32) -> Result<(), AllocError>
        requires { f < length self.old.labels }
        ensures labels { OnOk result (self.new.labels
            ≡ slice_set self.old.labels f (Some (record { distance = 0; wire = None }))) }
        ensures goals { self.new.goals ≡ self.old.goals }
        ensures count { length self.new.labels ≡ length self.old.labels }
        ensures queue { OnOk result (IsPermutation (record { 0 = (0, f) } ∷ self.old.queue) self.new.queue) }
        ensures under_way { OnOk result (StaysUnderWay self.old self.new) }
        ensures err { OnErr result (self.new ≡ self.old) }
    {
        self.lower(f, 0, None, 0)?;
        Ok(())
    }

    /// Makes FPGA `f`, which has no label, a goal.
    pub fn add_goal(&mut self, f: u32)
        requires there { f < length self.old.goals }
        requires unlabelled { slice_index_or self.old.labels f None ≡ None }
        ensures labels { self.new.labels ≡ self.old.labels }
        ensures goals { self.new.goals ≡ slice_set self.old.goals f true }
        ensures queue { self.new.queue ≡ self.old.queue }
        ensures under_way { StaysUnderWay self.old self.new }
    {
        self.mark(f, true);
    }

    /// FPGA `f` is no goal any more.
    pub fn remove_goal(&mut self, f: u32)
        requires { f < length self.old.goals }
        ensures labels { self.new.labels ≡ self.old.labels }
        ensures goals { self.new.goals ≡ slice_set self.old.goals f false }
        ensures queue { self.new.queue ≡ self.old.queue }
        ensures under_way { StaysUnderWay self.old self.new }
    {
        self.mark(f, false);
    }

    /// Marks FPGA `f` as a goal, or as none.
    fn mark(&mut self, f: u32, goal: bool)
        requires { f < length self.old.goals }
        ensures labels { self.new.labels ≡ self.old.labels }
        ensures goals { self.new.goals ≡ slice_set self.old.goals f goal }
        ensures queue { self.new.queue ≡ self.old.queue }
    {
        self.goals[f as usize] = goal;
    }

    /// Whether FPGA `f` is a goal.
    pub fn is_goal(&self, f: u32) -> bool
        requires { f < length self.now.goals }
        ensures { result ≡ slice_index_or self.now.goals f false }
    {
        self.goals[f as usize]
    }

    /// The label of FPGA `f`, None where the search has not reached it.
    pub fn label(&self, f: u32) -> Option<Label>
        requires { f < length self.now.labels }
        ensures { result ≡ label_at self.now f }
    {
        label_in(self.labels[f as usize], self.stamp)
    }

    /// The distance of FPGA `f`, None where it has no label.
    pub fn distance(&self, f: u32) -> Option<u64>
        requires { f < length self.now.labels }
        ensures { result ≡ distance_in (label_at self.now f) }
    {
        match self.label(f) {
            Some(label) => Some(label.distance),
            None => None,
        }
    }

    /// The wire by which the way to FPGA `f` enters, None at a source and where it has no label.
    pub fn wire(&self, f: u32) -> Option<u32>
        requires { f < length self.now.labels }
        ensures { result ≡ wire_in (label_at self.now f) }
    {
        match self.label(f) {
            Some(label) => label.wire,
            None => None,
        }
    }

    /// Gives FPGA `f` a label and puts it in the queue with a key. After want of memory nothing has changed.
    pub(crate) fn lower(
        &mut self,
        f: u32,
        distance: u64,
        wire: Option<u32>,
        key: u64,
    ) -> Result<(), AllocError>
        requires { f < length self.old.labels }
        ensures lowered { OnOk result (IsLowered f distance wire key self.old self.new) }
        ensures marks { KeepsMarks self.old self.new }
        ensures err { OnErr result (self.new ≡ self.old) }
    {
        self.queue.push(Reverse((key, f)))?;
        self.labels[f as usize] = Stamped {
            distance,
            wire,
            stamp: self.stamp,
        };
        Ok(())
    }

    /// Puts FPGA `f` in the queue once more, with a key. After want of memory nothing has changed.
    pub(crate) fn queue_again(&mut self, f: u32, key: u64) -> Result<(), AllocError>
        ensures queued { OnOk result (IsQueued f key self.old self.new) }
        ensures marks { KeepsMarks self.old self.new }
        ensures err { OnErr result (self.new ≡ self.old) }
    {
        self.queue.push(Reverse((key, f)))?;
        Ok(())
    }

    /// What stands at the front of the queue, with its key: nothing waits with a smaller one.
    pub(crate) fn first(&self) -> Option<(u64, u32)>
        ensures none { IfNone result (self.now.queue ≡ []) }
        ensures front { IfSome result (λ x. IsFront self.now x.0 x.1) }
        ensures least { IfSome result (λ x. (f key : ℕ) → IsWaiting self.now f key → x.0 ≤ key) }
    {
        match self.queue.peek() {
            Some(Reverse(x)) => Some(*x),
            None => None,
        }
    }

    /// Takes what stands at the front out of the queue.
    pub(crate) fn take(&mut self)
        ensures { (key f : ℕ) → IsFront self.old key f → IsTaken key f self.old self.new }
    {
        let _ = self.queue.pop();
    }
}
