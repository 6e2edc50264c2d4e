//! Lower bounds of walks to the terminals that a tree has not joined yet.
ghost use Rattle.std.specs.Prelude.{◌≡◌, ◌≢◌, ◌≤◌, ℕ, Bool, List};
ghost use Rattle.tdm_problem.specs.Board.{Board};
ghost use Rattle.shortest_forest.specs.Arcs.{IsGoal, IsLowerBound, both_ways};

use shortest_forest::{LowerBounds, NoBound};

/// Lower bounds of walks to the terminals that a tree has not joined yet, its goals. They may rise with each
/// that it joins.
pub trait TreeBounds: LowerBounds {
    /// What makes the bounds true at such lengths of wires, while these are the goals.
    ghost are_true: { Self → Board → (ℕ → ℕ) → List Bool → Type 0 };

    /// The tree has joined this terminal.
    fn join(&mut self, terminal: u32)
        ensures covered { Self.bounds_covered self.new ≡ Self.bounds_covered self.old }
        ensures rising { (f : ℕ) → Self.lower_bound self.old f ≤ Self.lower_bound self.new f }
        ensures still_true { (board : Board) (wire_length : ℕ → ℕ) (old new : List Bool)
            → are_true self.old board wire_length old
            → ((g : ℕ) → IsGoal new g → IsGoal old g × (g ≢ terminal))
            → are_true self.new board wire_length new };

    /// Where they are true, no walk to a goal is shorter than the bound of the FPGA where it begins.
    ghost below: { (bounds : Self) (board : Board) (wire_length : ℕ → ℕ) (goals : List Bool)
        → are_true bounds board wire_length goals
        → IsLowerBound board (both_ways wire_length) goals (Self.LowerBounds.lower_bound bounds) };
}

impl TreeBounds for NoBound {
    ghost use Rattle.std.proofs.Common.{arith};

    ghost are_true = { λ _ _ _ _. Unit {0} };

    ghost below = { λ _ _ _ _ _ f es g total marked walk. Prim.omega arith };

    fn join(&mut self, _terminal: u32) {}
}
