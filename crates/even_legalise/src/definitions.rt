//! Ratios, computed on a few wires.
ghost use Rattle.std.specs.Prelude.{◌≡◌, [], ◌∷◌, replicate};
ghost use Rattle.tdm_problem.specs.Fit.{FitsLanes};
ghost use Rattle.tdm_problem.specs.Samples.{doubled, on_wire_0, shared, star, use_at};
ghost use Rattle.even_legalise.specs.Uniform.{nets_on, uniform_ratio, uniform_routing};
ghost use Rattle.even_legalise.specs.Shared.{even_ratio, numbers_on, shared_routing};

/// Nets divide the lanes evenly, rounded up, and the ratio is raised to an even one.
fn ratios_round_up_twice()
    ensures one { uniform_ratio 1 1 ≡ 2 }
    ensures three { uniform_ratio 3 1 ≡ 4 }
    ensures five { uniform_ratio 5 1 ≡ 6 }
    ensures four_lanes { uniform_ratio 9 4 ≡ 4 }
{}

/// The nets of a wire fit with the uniform ratio, and with no smaller even one.
fn no_smaller_even_ratio_fits()
    ensures five_fit { FitsLanes (replicate 5 6) 1 }
    ensures five_with_less { ¬ FitsLanes (replicate 5 4) 1 }
    ensures nine_fit { FitsLanes (replicate 9 4) 4 }
    ensures nine_with_less { ¬ FitsLanes (replicate 9 2) 4 }
{}

/// Each net uses its tree with the ratios of how many nets are on its wires.
fn trees_are_used_with_uniform_ratios()
    ensures count { nets_on ((0 ∷ []) ∷ (0 ∷ 2 ∷ []) ∷ (2 ∷ []) ∷ []) 0 ≡ 2 }
    ensures shared { uniform_routing shared ((0 ∷ []) ∷ (0 ∷ []) ∷ (0 ∷ []) ∷ [])
        ≡ on_wire_0 (4 ∷ 4 ∷ 4 ∷ []) }
    ensures star { uniform_routing star ((0 ∷ 1 ∷ 2 ∷ []) ∷ [])
        ≡ (use_at 0 2 ∷ use_at 1 2 ∷ use_at 2 2 ∷ []) ∷ [] }
    ensures apart { uniform_routing doubled ((0 ∷ []) ∷ (1 ∷ []) ∷ (0 ∷ []) ∷ (0 ∷ []) ∷ [])
        ≡ (use_at 0 4 ∷ []) ∷ (use_at 1 2 ∷ []) ∷ (use_at 0 4 ∷ []) ∷ (use_at 0 4 ∷ []) ∷ [] }
{}

/// The ratio is even, and no larger than the share asks for.
fn shares_ask_for_even_ratios()
    ensures lane { even_ratio 18446744073709551616 ≡ 2 }
    ensures half { even_ratio 9223372036854775808 ≡ 2 }
    ensures quarter { even_ratio 4611686018427387904 ≡ 4 }
    ensures third { even_ratio 6148914691236517205 ≡ 4 }
    ensures small { even_ratio 17996823486545904 ≡ 1026 }
{}

/// The nets of a wire share it by their numbers.
fn nets_share_their_wires()
    ensures numbers { numbers_on ((0 ∷ []) ∷ (0 ∷ 2 ∷ []) ∷ (2 ∷ []) ∷ []) (5 ∷ 6 ∷ 7 ∷ []) 0
        ≡ 5 ∷ 6 ∷ [] }
    ensures equal { shared_routing shared ((0 ∷ []) ∷ (0 ∷ []) ∷ (0 ∷ []) ∷ []) (1024 ∷ 1024 ∷ 1024 ∷ [])
        ≡ on_wire_0 (4 ∷ 4 ∷ 4 ∷ []) }
    ensures unequal { shared_routing shared ((0 ∷ []) ∷ (0 ∷ []) ∷ (0 ∷ []) ∷ []) (2 ∷ 1 ∷ 1 ∷ [])
        ≡ on_wire_0 (2 ∷ 4 ∷ 4 ∷ []) }
    ensures nothing { shared_routing shared ((0 ∷ []) ∷ (0 ∷ []) ∷ (0 ∷ []) ∷ []) (0 ∷ 1024 ∷ 1024 ∷ [])
        ≡ on_wire_0 (2050 ∷ 4 ∷ 4 ∷ []) }
    ensures apart { shared_routing doubled ((0 ∷ []) ∷ (1 ∷ []) ∷ (0 ∷ []) ∷ []) (2 ∷ 1 ∷ 1 ∷ [])
        ≡ (use_at 0 2 ∷ []) ∷ (use_at 1 2 ∷ []) ∷ (use_at 0 4 ∷ []) ∷ [] }
{}
