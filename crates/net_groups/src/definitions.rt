//! Which groups hold a net, and what follows from that, computed for a few groups.
ghost use Rattle.std.specs.Prelude.{◌≡◌, [], ◌∷◌, map};
ghost use Rattle.tdm_problem.specs.Routing.{with_ratio};
ghost use Rattle.tdm_problem.specs.Samples.{on_wire_0, shared};
ghost use Rattle.tdm_problem.specs.Value.{group_sum, value_of};
ghost use Rattle.net_groups.specs.Gathering.{holder_count, IsFilled};
ghost use Rattle.net_groups.specs.Incidence.{groups_of, holders_before, sum_before, weight_of, IsGroupRow, IsIncidenceOf, IsNetGroups};
ghost use Rattle.net_groups.specs.Running.{AreSums, IsWorst};
ghost use Rattle.net_groups.specs.Samples.{held, ratios_2_6_6, two_groups};

/// The groups that hold a net stand once each, the first group first.
fn groups_of_a_net_rise()
    ensures both { holders_before ((0 ∷ 1 ∷ 2 ∷ []) ∷ (1 ∷ []) ∷ []) 2 1 ≡ 0 ∷ 1 ∷ [] }
    ensures first { holders_before ((0 ∷ 1 ∷ 2 ∷ []) ∷ (1 ∷ []) ∷ []) 2 2 ≡ 0 ∷ [] }
    ensures before { holders_before ((0 ∷ 1 ∷ 2 ∷ []) ∷ (1 ∷ []) ∷ []) 1 1 ≡ 0 ∷ [] }
    ensures none { holders_before ((0 ∷ 1 ∷ 2 ∷ []) ∷ (1 ∷ []) ∷ []) 2 3 ≡ [] }
    ensures of_net { groups_of (record { groups = 2; of_nets = (0 ∷ []) ∷ (0 ∷ 1 ∷ []) ∷ [] }) 1
        ≡ 0 ∷ 1 ∷ [] }
    ensures all_nets { IsNetGroups held }
    ensures falling { ¬ IsNetGroups (record { groups = 2; of_nets = (1 ∷ 0 ∷ []) ∷ [] }) }
    ensures unknown { ¬ IsNetGroups (record { groups = 1; of_nets = (1 ∷ []) ∷ [] }) }
{}

/// The groups in a row rise strictly, and each of them is there.
fn a_row_of_groups_rises()
    ensures none { IsGroupRow 0 [] }
    ensures both { IsGroupRow 2 (0 ∷ 1 ∷ []) }
    ensures falling { ¬ IsGroupRow 2 (1 ∷ 0 ∷ []) }
    ensures twice { ¬ IsGroupRow 2 (0 ∷ 0 ∷ []) }
    ensures unknown { ¬ IsGroupRow 1 (1 ∷ []) }
{}

/// The groups stand in the rows of their nets, one row behind the other, and a cursor behind them.
fn rows_are_filled_group_by_group()
    ensures once { holder_count two_groups.groups 0 ≡ 1 }
    ensures twice { holder_count two_groups.groups 1 ≡ 2 }
    ensures nothing { IsFilled two_groups.groups 0 (0 ∷ 1 ∷ 3 ∷ []) (9 ∷ 9 ∷ 9 ∷ 9 ∷ []) }
    ensures first_group { IsFilled two_groups.groups 1 (1 ∷ 2 ∷ 4 ∷ []) (0 ∷ 0 ∷ 9 ∷ 0 ∷ []) }
    ensures both { IsFilled two_groups.groups 2 (1 ∷ 3 ∷ 4 ∷ []) (0 ∷ 0 ∷ 1 ∷ 0 ∷ []) }
    ensures cursor_kept { ¬ IsFilled two_groups.groups 2 (1 ∷ 2 ∷ 4 ∷ []) (0 ∷ 0 ∷ 1 ∷ 0 ∷ []) }
    ensures other_row { ¬ IsFilled two_groups.groups 2 (1 ∷ 3 ∷ 4 ∷ []) (1 ∷ 0 ∷ 1 ∷ 0 ∷ []) }
    ensures too_long { ¬ IsFilled two_groups.groups 2 (1 ∷ 3 ∷ 4 ∷ []) (0 ∷ 0 ∷ 1 ∷ 0 ∷ 0 ∷ []) }
{}

/// Each net of the board has its row, with all groups that hold the net.
fn an_incidence_is_of_its_board()
    ensures one_group { IsIncidenceOf shared (record {
      groups = 1;
      of_nets = (0 ∷ []) ∷ (0 ∷ []) ∷ (0 ∷ []) ∷ [];
    }) }
    ensures two_groups { IsIncidenceOf two_groups held }
    ensures other_group { ¬ IsIncidenceOf two_groups (record held {
      of_nets = (0 ∷ []) ∷ (0 ∷ []) ∷ (0 ∷ 1 ∷ []) ∷ [];
    }) }
    ensures net_left_out { ¬ IsIncidenceOf shared (record {
      groups = 1;
      of_nets = (0 ∷ []) ∷ (0 ∷ []) ∷ [];
    }) }
    ensures group_left_out { ¬ IsIncidenceOf shared (record {
      groups = 1;
      of_nets = (0 ∷ []) ∷ [] ∷ (0 ∷ []) ∷ [];
    }) }
{}

/// A net weighs what its groups weigh, and a group sums the ratios of the nets that it holds.
fn weights_and_sums_are_over_groups_of_nets()
    ensures one { weight_of (record { groups = 2; of_nets = (0 ∷ []) ∷ (0 ∷ 1 ∷ []) ∷ [] }) (5 ∷ 7 ∷ []) 0
        ≡ 5 }
    ensures both { weight_of (record { groups = 2; of_nets = (0 ∷ []) ∷ (0 ∷ 1 ∷ []) ∷ [] }) (5 ∷ 7 ∷ []) 1
        ≡ 12 }
    ensures all_nets { sum_before (record { groups = 2; of_nets = (0 ∷ []) ∷ (0 ∷ 1 ∷ []) ∷ [] })
        (on_wire_0 (2 ∷ 6 ∷ [])) 2 0 ≡ 8 }
    ensures second_net { sum_before (record { groups = 2; of_nets = (0 ∷ []) ∷ (0 ∷ 1 ∷ []) ∷ [] })
        (on_wire_0 (2 ∷ 6 ∷ [])) 2 1 ≡ 6 }
    ensures before { sum_before (record { groups = 2; of_nets = (0 ∷ []) ∷ (0 ∷ 1 ∷ []) ∷ [] })
        (on_wire_0 (2 ∷ 6 ∷ [])) 1 1 ≡ 0 }
{}

/// The sums are those of all groups of the board over all nets, and other ones once a ratio has changed.
fn sums_are_of_all_groups_over_all_nets()
    ensures all { AreSums held ratios_2_6_6 (14 ∷ 6 ∷ []) }
    ensures board { map (group_sum ratios_2_6_6) two_groups.groups ≡ 14 ∷ 6 ∷ [] }
    ensures value { value_of two_groups ratios_2_6_6 ≡ 14 }
    ensures one_off { ¬ AreSums held ratios_2_6_6 (14 ∷ 7 ∷ []) }
    ensures one_left_out { ¬ AreSums held ratios_2_6_6 (14 ∷ []) }
    ensures changed { AreSums held (with_ratio ratios_2_6_6 1 0 8) (16 ∷ 8 ∷ []) }
    ensures second_kept { ¬ AreSums held (with_ratio ratios_2_6_6 1 0 8) (16 ∷ 6 ∷ []) }
{}

/// The worst group is the first of those with the largest sum.
fn the_worst_group_is_the_first_of_the_largest()
    ensures largest { IsWorst (14 ∷ 6 ∷ []) 0 }
    ensures smaller { ¬ IsWorst (14 ∷ 6 ∷ []) 1 }
    ensures first { IsWorst (6 ∷ 14 ∷ 14 ∷ []) 1 }
    ensures later { ¬ IsWorst (6 ∷ 14 ∷ 14 ∷ []) 2 }
    ensures nothing { ¬ IsWorst [] 0 }
{}
