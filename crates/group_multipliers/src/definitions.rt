//! The weights for the next round, computed for a few groups.
ghost use Rattle.std.specs.Prelude.{◌≡◌, [], ◌∷◌};
ghost use Rattle.group_multipliers.specs.Renewal.{pulls, weight_for, renewed};

/// A pull is the weight, less the part by which the group's sum falls short of the largest.
fn pulls_are_in_units_of_the_largest_sum()
    ensures half { pulls (1024 ∷ 1024 ∷ []) (4 ∷ 2 ∷ []) ≡ 1024 ∷ 512 ∷ [] }
    ensures rounded_down { pulls (1 ∷ 1 ∷ []) (4 ∷ 2 ∷ []) ≡ 1 ∷ 0 ∷ [] }
    ensures third { pulls (10 ∷ 10 ∷ 10 ∷ []) (2 ∷ 0 ∷ 3 ∷ []) ≡ 6 ∷ 0 ∷ 10 ∷ [] }
{}

/// The strongest pull becomes 2^40, and none becomes 0.
fn weights_span_the_range()
    ensures strongest { weight_for 3 3 ≡ 1099511627776 }
    ensures third { weight_for 3 1 ≡ 366503875926 }
    ensures none { weight_for 3 0 ≡ 1 }
    ensures ones { renewed (1 ∷ 1 ∷ []) (4 ∷ 2 ∷ []) ≡ 1099511627776 ∷ 1 ∷ [] }
    ensures halves { renewed (1024 ∷ 1024 ∷ []) (4 ∷ 2 ∷ [])
        ≡ 1099511627776 ∷ 549755813888 ∷ [] }
{}
