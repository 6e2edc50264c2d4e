//! Which solutions are tight, and which ratios are lowered, computed on small boards.
ghost use Rattle.std.specs.Prelude.{[], ◌∷◌};
ghost use Rattle.tdm_problem.specs.Samples.{doubled, on_wire_0, pair, shared, use_at};
ghost use Rattle.tdm_problem.specs.Tight.{IsTight};
ghost use Rattle.worst_refine.specs.Lowered.{IsLowered};

/// A solution is tight where no ratio above 2 can be lowered by 2; a sum of exactly 1 leaves no room.
fn a_tight_solution_has_no_ratio_to_lower()
    ensures least { IsTight pair (on_wire_0 (2 ∷ [])) }
    ensures three { IsTight shared (on_wire_0 (2 ∷ 4 ∷ 4 ∷ [])) }
    ensures exactly_one { IsTight shared (on_wire_0 (2 ∷ 6 ∷ 6 ∷ 6 ∷ [])) }
    ensures room { ¬ IsTight shared (on_wire_0 (4 ∷ 4 ∷ 4 ∷ [])) }
    ensures largest { ¬ IsTight pair (on_wire_0 (4294967294 ∷ [])) }
    ensures second_use { ¬ IsTight doubled ((use_at 0 2 ∷ use_at 1 4 ∷ []) ∷ []) }
{}

/// No ratio is raised, and each use stays on its wire.
fn lowered_ratios_stay_on_their_wires()
    ensures lowered { IsLowered (on_wire_0 (4 ∷ 4 ∷ [])) (on_wire_0 (2 ∷ 4 ∷ [])) }
    ensures raised { ¬ IsLowered (on_wire_0 (4 ∷ 2 ∷ [])) (on_wire_0 (2 ∷ 4 ∷ [])) }
    ensures other_wire { ¬ IsLowered ((use_at 0 4 ∷ []) ∷ []) ((use_at 1 4 ∷ []) ∷ []) }
    ensures net_missing { ¬ IsLowered (on_wire_0 (4 ∷ 4 ∷ [])) (on_wire_0 (4 ∷ [])) }
{}
