//! Walks to terminals, branches and goals, computed on the star.
ghost use Rattle.std.specs.Prelude.{◌≡◌, [], ◌∷◌, true, false};
ghost use Rattle.tdm_problem.specs.Samples.{star};
ghost use Rattle.steiner_build.specs.Growth.{IsBranch};
ghost use Rattle.steiner_build.specs.Building.{IsWithinDistances, IsWithinJoining, IsWithinWalks};
ghost use Rattle.steiner_build.specs.Joining.{AreOthers, goal_count};

/// From one end of the star the two others are two wires away each, and four together.
fn walks_to_the_other_ends_have_four_wires()
    ensures walks { IsWithinWalks star (λ _. 1) 1 (1 ∷ 2 ∷ 3 ∷ []) 4 }
    ensures more { ¬ IsWithinWalks star (λ _. 1) 1 (1 ∷ 2 ∷ 3 ∷ []) 5 }
    ensures distances { IsWithinDistances star (λ _. 1) 1 (1 ∷ 2 ∷ 3 ∷ []) 4 }
    ensures farther { ¬ IsWithinDistances star (λ _. 1) 1 (1 ∷ 2 ∷ 3 ∷ []) 5 }
    ensures joining { IsWithinJoining star (λ _. 1) (1 ∷ 2 ∷ []) 2 }
    ensures longer { ¬ IsWithinJoining star (λ _. 1) (1 ∷ 2 ∷ []) 3 }
{}

/// A branch leads over FPGAs that the tree does not reach, to one that it does.
fn branches_end_where_the_tree_begins()
    ensures there { IsBranch star (λ f. f ≡ 1) 1 [] }
    ensures arms { IsBranch star (λ f. f ≡ 1) 2 (1 ∷ 0 ∷ []) }
    ensures short { ¬ IsBranch star (λ f. f ≡ 1) 2 (1 ∷ []) }
{}

/// The goals are the terminals other than the start.
fn goals_are_the_other_terminals()
    ensures others { AreOthers (1 ∷ 2 ∷ 3 ∷ []) 1 (false ∷ false ∷ true ∷ true ∷ []) }
    ensures start { ¬ AreOthers (1 ∷ 2 ∷ 3 ∷ []) 1 (false ∷ true ∷ true ∷ true ∷ []) }
    ensures count { goal_count (false ∷ false ∷ true ∷ true ∷ []) ≡ 2 }
{}
