//! Parent wires, baseline trees and walks over arcs, computed on small boards.
ghost use Rattle.std.specs.Prelude.{ℕ, List, [], ◌∷◌, Some, nat_lt, if◌then◌else◌};
ghost use Rattle.tdm_problem.specs.Samples.{doubled, ring, split, star};
ghost use Rattle.shortest_forest.specs.Arcs.{IsArcWalk};
ghost use Rattle.shortest_forest.specs.Baseline.{IsBaseTree, IsParent};
ghost use Rattle.shortest_forest.specs.Reach.{AreHops, HasNoWalk};

/// The hops from the end of one arm of the star, and two FPGAs without a walk between them.
fn hops_are_least_walks()
    ensures star { AreHops star 1 (Some 1 ∷ Some 0 ∷ Some 2 ∷ Some 2 ∷ []) }
    ensures other { ¬ AreHops star 1 (Some 1 ∷ Some 0 ∷ Some 3 ∷ Some 2 ∷ []) }
    ensures apart { HasNoWalk split 0 2 }
{}

/// Seen from the end of one arm of the star, the middle is one hop away, and the other ends are two.
fn parents_are_one_hop_nearer()
    ensures middle { IsParent star 1 0 0 1 }
    ensures second { IsParent star 1 2 1 0 }
    ensures third { IsParent star 1 3 2 0 }
    ensures source { (e u : ℕ) → ¬ IsParent star 1 1 e u }
{}

/// Of parallel wires the one of the least number is the parent wire.
fn the_least_wire_is_the_parent()
    ensures least { IsParent doubled 0 1 0 0 }
    ensures other { ¬ IsParent doubled 0 1 1 0 }
{}

/// The three arms are the baseline tree of the star's ends, and no wires are that of FPGAs in two parts of a
/// board.
fn a_baseline_tree_is_the_union_of_parent_chains()
    ensures star { IsBaseTree star 1 (1 ∷ 2 ∷ 3 ∷ []) (0 ∷ 1 ∷ 2 ∷ []) }
    ensures spare { ¬ IsBaseTree star 1 (1 ∷ 2 ∷ []) (0 ∷ 1 ∷ 2 ∷ []) }
    ensures split { (wires : List ℕ) → ¬ IsBaseTree split 0 (0 ∷ 2 ∷ []) wires }
{}

/// Where arcs to FPGAs of greater numbers are 1 long and those back 5, the way round the ring by its short
/// wires is 2 long in one direction and 10 in the other.
fn arcs_are_as_long_as_their_direction_says()
    ensures up { IsArcWalk ring (λ _ from to. if nat_lt from to then 1 else 5) 0 (0 ∷ 1 ∷ []) 2 2 }
    ensures down { IsArcWalk ring (λ _ from to. if nat_lt from to then 1 else 5) 2 (1 ∷ 0 ∷ []) 0 10 }
{}
