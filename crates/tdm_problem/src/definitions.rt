//! The definitions, computed on small boards.
ghost use Rattle.std.specs.Prelude.{◌≡◌, ◌*◌, ◌^◌, ◌-◌, [], ◌∷◌, Contains};
ghost use Rattle.tdm_problem.specs.declared.limits.TheConstants.{LANES, MAX_FPGAS, MAX_GROUPS, MAX_LISTED_FPGAS, MAX_LISTED_NETS, MAX_NETS, MAX_WIRES};
ghost use Rattle.tdm_problem.specs.Board.{IsBoard, without_repeats};
ghost use Rattle.tdm_problem.specs.Distance.{IsDistance, IsHopCount};
ghost use Rattle.tdm_problem.specs.Fit.{FitsLanes};
ghost use Rattle.tdm_problem.specs.Legal.{AllConnectable, IsLegal, source_of};
ghost use Rattle.tdm_problem.specs.Loads.{load_cost, load_of, marginal_length, without_net};
ghost use Rattle.tdm_problem.specs.Routing.{ratios_on, with_ratio};
ghost use Rattle.tdm_problem.specs.Sums.{sum_below};
ghost use Rattle.tdm_problem.specs.Roots.{IsRoot, root_of};
ghost use Rattle.tdm_problem.specs.Users.{users_on};
ghost use Rattle.tdm_problem.specs.Weights.{net_weight, weighted_sums};
ghost use Rattle.tdm_problem.specs.Value.{group_sum, net_sum, value_of};
ghost use Rattle.tdm_problem.specs.Walk.{IsConnectable, IsMinimalTree, Joins};
ghost use Rattle.tdm_problem.specs.Samples.{doubled, on_wire_0, pair, ring, ring_length, shared, split, star, use_at, wire};

/// Reciprocals of 2, 6, 6 and 6 sum to exactly 1, and of 2, 2 and 4294967294 to a little more.
fn a_sum_of_one_fits_a_lane_and_no_more()
    ensures nothing { FitsLanes [] 1 }
    ensures exactly_one { FitsLanes (2 ∷ 6 ∷ 6 ∷ 6 ∷ []) 1 }
    ensures just_above { ¬ FitsLanes (2 ∷ 2 ∷ 4294967294 ∷ []) 1 }
    ensures more_lanes { FitsLanes (2 ∷ 2 ∷ 4294967294 ∷ []) 2 }
{}

/// Of repeated numbers the first is kept.
fn a_number_counts_once_in_its_first_place()
    ensures { without_repeats (3 ∷ 2 ∷ 2 ∷ 3 ∷ 1 ∷ []) ≡ 3 ∷ 2 ∷ 1 ∷ [] }
{}

/// The ratios on a wire are those of all nets; a new ratio stands in its place alone.
fn ratios_stand_by_net_and_by_wire()
    ensures on_wire { ratios_on ((use_at 0 2 ∷ use_at 1 4 ∷ []) ∷ (use_at 1 6 ∷ []) ∷ []) 1 ≡ 4 ∷ 6 ∷ [] }
    ensures users { users_on ((use_at 0 2 ∷ use_at 1 4 ∷ []) ∷ (use_at 1 6 ∷ []) ∷ []) 1
        ≡ record { net = 0; ratio = 4 } ∷ record { net = 1; ratio = 6 } ∷ [] }
    ensures replaced { with_ratio (on_wire_0 (2 ∷ 4 ∷ [])) 1 0 6 ≡ on_wire_0 (2 ∷ 6 ∷ []) }
{}

/// The largest sum of a group is the value.
fn a_value_is_the_largest_sum_of_a_group()
    ensures net { net_sum ((use_at 0 2 ∷ use_at 1 4 ∷ []) ∷ []) 0 ≡ 6 }
    ensures group { group_sum (on_wire_0 (4 ∷ 2 ∷ 6 ∷ [])) (2 ∷ 0 ∷ []) ≡ 10 }
    ensures one_group { value_of shared (on_wire_0 (4 ∷ 4 ∷ 4 ∷ [])) ≡ 12 }
    ensures two_groups { value_of (record shared { groups = (0 ∷ []) ∷ (2 ∷ 1 ∷ []) ∷ [] })
        (on_wire_0 (6 ∷ 4 ∷ 4 ∷ [])) ≡ 8 }
    ensures cycle { value_of doubled ((use_at 0 2 ∷ use_at 1 2 ∷ []) ∷ []) ≡ 4 }
    ensures no_group { value_of split ([] ∷ [] ∷ [] ∷ []) ≡ 0 }
{}

/// All numbers of a board name something, once.
fn a_board_has_no_loop_and_no_repeats()
    ensures shared { IsBoard shared }
    ensures empty { IsBoard (record { fpgas = 0; wires = []; nets = []; groups = [] }) }
    ensures looped { ¬ IsBoard (record pair { wires = wire 1 1 ∷ [] }) }
    ensures unknown_fpga { ¬ IsBoard (record pair { nets = (0 ∷ 2 ∷ []) ∷ [] }) }
    ensures repeated { ¬ IsBoard (record pair { groups = (0 ∷ 0 ∷ []) ∷ [] }) }
    ensures no_source { ¬ IsBoard (record pair { nets = [] ∷ [] }) }
{}

/// Wires join what walks over them reach.
fn wires_join_what_walks_reach()
    ensures arms { Joins star (Contains (2 ∷ 0 ∷ 1 ∷ [])) (1 ∷ 2 ∷ 3 ∷ []) }
    ensures missing_arm { ¬ Joins star (Contains (0 ∷ 1 ∷ [])) (1 ∷ 2 ∷ 3 ∷ []) }
    ensures same_part { IsConnectable split (0 ∷ 1 ∷ []) }
    ensures source { source_of star 0 ≡ 1 }
    ensures all_nets { AllConnectable shared }
    ensures not_all { ¬ AllConnectable split }
    ensures two_parts { ¬ IsConnectable split (0 ∷ 2 ∷ []) }
{}

/// A tree with a spare wire is not minimal.
fn a_tree_without_a_spare_wire_is_minimal()
    ensures arms { IsMinimalTree star (0 ∷ 1 ∷ 2 ∷ []) (1 ∷ 2 ∷ 3 ∷ []) }
    ensures dangling { ¬ IsMinimalTree star (0 ∷ 1 ∷ 2 ∷ []) (1 ∷ 2 ∷ []) }
    ensures cycle { ¬ IsMinimalTree doubled (0 ∷ 1 ∷ []) (0 ∷ 1 ∷ []) }
    ensures nothing { IsMinimalTree star [] (1 ∷ []) }
{}

/// A distance is the least length of a walk.
fn a_distance_is_that_of_the_shortest_walk()
    ensures hops { IsHopCount star 1 2 2 }
    ensures less { ¬ IsHopCount star 1 2 1 }
    ensures more { ¬ IsHopCount ring 0 2 2 }
    ensures lengths { IsDistance ring ring_length 0 2 2 }
{}

/// A solution is legal where each net is joined, each ratio is even and positive, and each wire's ratios fit.
fn a_solution_is_legal_or_breaks_a_rule()
    ensures exactly_one { IsLegal shared (on_wire_0 (2 ∷ 4 ∷ 4 ∷ [])) }
    ensures cycle { IsLegal doubled ((use_at 1 2 ∷ use_at 0 2 ∷ []) ∷ []) }
    ensures overfull { ¬ IsLegal shared (on_wire_0 (2 ∷ 2 ∷ 4294967294 ∷ [])) }
    ensures odd { ¬ IsLegal pair (on_wire_0 (3 ∷ [])) }
    ensures zero { ¬ IsLegal pair (on_wire_0 (0 ∷ [])) }
    ensures not_joined { ¬ IsLegal pair ([] ∷ []) }
    ensures wire_twice { ¬ IsLegal pair ((use_at 0 2 ∷ use_at 0 2 ∷ []) ∷ []) }
    ensures net_missing { ¬ IsLegal pair [] }
{}

/// A net has the weights of all groups that hold it, and the group sums are weighted by their groups.
fn weights_add_up()
    ensures held_once { net_weight ((0 ∷ 1 ∷ 2 ∷ []) ∷ (1 ∷ []) ∷ []) (5 ∷ 7 ∷ []) 0 ≡ 5 }
    ensures held_twice { net_weight ((0 ∷ 1 ∷ 2 ∷ []) ∷ (1 ∷ []) ∷ []) (5 ∷ 7 ∷ []) 1 ≡ 12 }
    ensures not_held { net_weight ((0 ∷ 1 ∷ 2 ∷ []) ∷ (1 ∷ []) ∷ []) (5 ∷ 7 ∷ []) 3 ≡ 0 }
    ensures sums { weighted_sums (on_wire_0 (2 ∷ 4 ∷ 6 ∷ [])) ((0 ∷ 1 ∷ 2 ∷ []) ∷ (1 ∷ []) ∷ [])
        (5 ∷ 7 ∷ []) ≡ 88 }
    ensures below { sum_below 4 (λ n. n * n) ≡ 14 }
{}

/// A wire is loaded with the numbers of the nets whose tree has it, and costs the square of its load.
fn loads_are_sums_over_nets()
    ensures both { load_of ((0 ∷ []) ∷ (0 ∷ 1 ∷ []) ∷ []) (5 ∷ 7 ∷ []) 0 ≡ 12 }
    ensures second { load_of ((0 ∷ []) ∷ (0 ∷ 1 ∷ []) ∷ []) (5 ∷ 7 ∷ []) 1 ≡ 7 }
    ensures without { load_of (without_net ((0 ∷ []) ∷ (0 ∷ 1 ∷ []) ∷ []) 0) (5 ∷ 7 ∷ []) 0 ≡ 7 }
    ensures marginal { marginal_length ((0 ∷ []) ∷ (0 ∷ 1 ∷ []) ∷ []) (5 ∷ 7 ∷ []) 0 0 ≡ 19 }
    ensures cost { load_cost doubled ((0 ∷ []) ∷ (0 ∷ 1 ∷ []) ∷ []) (5 ∷ 7 ∷ []) ≡ 193 }
    ensures lighter { load_cost doubled ((0 ∷ []) ∷ (1 ∷ []) ∷ []) (5 ∷ 7 ∷ []) ≡ 74 }
{}

/// A root is rounded down.
fn roots_round_down()
    ensures nothing { root_of 0 ≡ 0 }
    ensures below_square { root_of 15 ≡ 3 }
    ensures square { root_of 16 ≡ 4 }
    ensures largest { IsRoot (2 ^ 64 - 1) 4294967295 }
{}

/// The code's limits are those of the definitions.
fn the_limits_of_the_code()
    ensures fpgas { MAX_FPGAS ≡ 4096 }
    ensures wires { MAX_WIRES ≡ 65536 }
    ensures nets { MAX_NETS ≡ 2 ^ 20 }
    ensures groups { MAX_GROUPS ≡ 2 ^ 20 }
    ensures listed_fpgas { MAX_LISTED_FPGAS ≡ 2 ^ 24 }
    ensures listed_nets { MAX_LISTED_NETS ≡ 2 ^ 24 }
    ensures lanes { LANES ≡ 1 }
{}
