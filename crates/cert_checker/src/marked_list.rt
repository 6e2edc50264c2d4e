//! Lists of numbers without repeats.
ghost use Rattle.std.specs.Prelude.{◌≡◌, ◌≢◌, ◌<◌, ◌≤◌, ℕ, [], length, slice_get, All, AllPairs, Contains, IfOk, OnOk, OnErr};
ghost use Rattle.steiner_build.specs.Joining.{HasNoGoals};
ghost use Rattle.shortest_forest.specs.Arcs.{IsGoal};
ghost use Rattle.cert_checker.specs.MarkedLists.{IsAdded};

use std::alloc::{AllocError, Global};
use std::marker::Model;

/// A list of numbers below a limit, none of them twice. A mark for each number tells in one step whether it
/// is listed.
#[derive(Drop)]
pub(crate) struct MarkedList {
    marks: Vec<bool>,
    listed: Vec<u32>,
}

impl Model for MarkedList {
    ghost use Rattle.std.specs.Prelude.{length};
    ghost use Rattle.cert_checker.specs.MarkedLists.{Marked, AreMarked};

    ghost Value = { Marked };

    ghost view = { λ l. record { limit = length l.marks.items; listed = l.listed.items } };

    ghost invariant = { λ l. AreMarked l.listed.items l.marks.items };
}

impl MarkedList {
    /// The empty list, with room for all numbers below the limit.
    pub(crate) fn new(alloc: Global, limit: u32) -> Result<MarkedList, AllocError>
        ensures limit { IfOk result (λ list. list.limit ≡ limit) }
        ensures listed { IfOk result (λ list. list.listed ≡ []) }
    {
        let marks = vec![in alloc; false; limit as usize]?;
        let listed = Vec::with_capacity(alloc, limit as usize)?;
        Ok(MarkedList { marks, listed })
    }

    /// Puts a number behind the others where it is not listed. After want of memory the list is as it was.
    pub(crate) fn add(&mut self, x: u32) -> Result<(), AllocError>
        requires { x < self.old.limit }
        ensures limit { self.new.limit ≡ self.old.limit }
        ensures added { OnOk result (IsAdded x self.old.listed self.new.listed) }
        ensures err { OnErr result (self.new ≡ self.old) }
    {
        if self.marks[x as usize] {
            return Ok(());
        }
        self.listed.push(x)?;
        self.marks[x as usize] = true;
        Ok(())
    }

    /// Number `i` of the list, counted from 0; None behind the last.
    pub(crate) fn get(&self, i: usize) -> Option<u32>
        ensures value { result ≡ slice_get self.now.listed i }
        ensures there { All (λ x. x < self.now.limit) self.now.listed }
        ensures distinct { AllPairs (λ x y. x ≢ y) self.now.listed }
        ensures few { length self.now.listed ≤ self.now.limit }
    {
        self.listed.get(i).copied()
    }

    /// All numbers of the list.
    pub(crate) fn items(&self) -> &[u32]
        ensures { result.now ≡ self.now.listed }
    {
        &self.listed
    }

    /// Empties the list.
    pub(crate) fn clear(&mut self)
        ensures limit { self.new.limit ≡ self.old.limit }
        ensures listed { self.new.listed ≡ [] }
    {
        unmark(&mut self.marks, &self.listed);
        self.listed.clear();
    }
}

/// Takes the marks away, which are those of some of these numbers.
fn unmark(marks: &mut Vec<bool>, listed: &[u32])
    requires there { All (λ x. x < length marks.old.items) listed.now }
    requires marked { (x : ℕ) → IsGoal marks.old.items x → Contains listed.now x }
    ensures none { HasNoGoals marks.new.items }
    ensures count { length marks.new.items ≡ length marks.old.items }
{
    for x in listed {
        marks[*x as usize] = false;
    }
}
