//! Which verdict is right, computed on small boards.
ghost use Rattle.std.specs.Prelude.{[], ◌∷◌};
ghost use Rattle.tdm_problem.specs.Samples.{doubled, on_wire_0, pair, shared, use_at};
ghost use Rattle.solution_eval.specs.declared.judgement.Verdict.TheVariants.{BadRatio, NotJoined, Overfull};
ghost use Rattle.solution_eval.specs.Verdict.{IsVerdict};

/// The first violation is told: nets that are not joined, then bad ratios by net and by wire, then overfull
/// wires.
fn the_first_violation_decides()
    ensures not_joined { IsVerdict pair ([] ∷ []) (NotJoined 0) }
    ensures odd { IsVerdict pair (on_wire_0 (3 ∷ [])) (BadRatio 0 0 3) }
    ensures zero { IsVerdict pair (on_wire_0 (0 ∷ [])) (BadRatio 0 0 0) }
    ensures lowest_wire { IsVerdict doubled ((use_at 1 3 ∷ use_at 0 1 ∷ []) ∷ []) (BadRatio 0 0 1) }
    ensures overfull { IsVerdict shared (on_wire_0 (2 ∷ 2 ∷ 4294967294 ∷ [])) (Overfull 0) }
    ensures joined { ¬ IsVerdict pair (on_wire_0 (3 ∷ [])) (NotJoined 0) }
    ensures fitting { ¬ IsVerdict shared (on_wire_0 (4 ∷ 4 ∷ 4 ∷ [])) (Overfull 0) }
{}
