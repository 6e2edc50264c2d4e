//! Turns and passes, computed on a board with two wires and two nets.
ghost use Rattle.std.specs.Prelude.{[], ◌∷◌};
ghost use Rattle.ripup_reroute.specs.Samples.{crossing, crowded, spread};
ghost use Rattle.ripup_reroute.specs.Rerouting.{IsSettledFor};
ghost use Rattle.ripup_reroute.specs.Turns.{IsTurn, IsPass, ArePasses, ComesToRest};

/// In its turn a net leaves a wire that it shares for one that is free, and can neither stay nor go back to
/// the shared one.
fn a_turn_leads_to_a_free_wire()
    ensures moves { IsTurn crossing (1 ∷ 1 ∷ []) 1 crowded spread }
    ensures stays { ¬ IsTurn crossing (1 ∷ 1 ∷ []) 1 crowded crowded }
    ensures back { ¬ IsTurn crossing (1 ∷ 1 ∷ []) 1 spread crowded }
{}

/// A pass of the second net spreads the nets, and the next changes nothing.
fn passes_spread_the_nets()
    ensures pass { IsPass crossing (1 ∷ 1 ∷ []) (1 ∷ []) crowded spread }
    ensures none { ¬ IsPass crossing (1 ∷ 1 ∷ []) (1 ∷ []) crowded crowded }
    ensures two { ArePasses crossing (1 ∷ 1 ∷ []) (1 ∷ []) 2 crowded spread }
    ensures rest { ComesToRest crossing (1 ∷ 1 ∷ []) (1 ∷ []) 2 crowded spread }
    ensures early { ¬ ComesToRest crossing (1 ∷ 1 ∷ []) (1 ∷ []) 0 spread spread }
    ensures restless { ¬ ComesToRest crossing (1 ∷ 1 ∷ []) (1 ∷ []) 2 crowded crowded }
{}

/// A net is settled on a wire of its own, and not on one that it shares beside a free one.
fn a_net_settles_on_a_wire_of_its_own()
    ensures alone { IsSettledFor crossing (1 ∷ 1 ∷ []) 1 spread }
    ensures shared { ¬ IsSettledFor crossing (1 ∷ 1 ∷ []) 1 crowded }
{}
