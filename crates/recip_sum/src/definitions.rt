//! Items and their counts, computed on a few ratios.
ghost use Rattle.std.specs.Prelude.{◌≡◌, [], ◌∷◌};
ghost use Rattle.recip_sum.specs.Items.{SameReciprocals, items_of};
ghost use Rattle.recip_sum.specs.LeastEven.{IsLeastEven};
ghost use Rattle.recip_sum.specs.Rounded.{ceiling_of, ceiling_sum, floor_of, floor_sum};

/// The items of counts are each ratio as often as it is counted.
fn counts_stand_for_items()
    ensures none { items_of [] ≡ [] }
    ensures some { items_of ((2, 1) ∷ (6, 3) ∷ []) ≡ 2 ∷ 6 ∷ 6 ∷ 6 ∷ [] }
{}

/// Lists fit the same lanes whatever the order of their items.
fn the_order_of_items_does_not_matter()
    ensures same { SameReciprocals (2 ∷ 6 ∷ 6 ∷ []) (6 ∷ 2 ∷ 6 ∷ []) }
    ensures different { ¬ SameReciprocals (2 ∷ 6 ∷ 6 ∷ []) (2 ∷ 2 ∷ 6 ∷ []) }
    ensures longer { ¬ SameReciprocals (2 ∷ 6 ∷ []) (2 ∷ 6 ∷ 6 ∷ []) }
{}

/// Reciprocals in units of 2^-64 are rounded down and up; those of powers of two are whole.
fn reciprocals_are_rounded()
    ensures down { floor_of 6 ≡ 3074457345618258602 }
    ensures up { ceiling_of 6 ≡ 3074457345618258603 }
    ensures whole { floor_of 4 ≡ ceiling_of 4 }
    ensures one { floor_of 1 ≡ 18446744073709551616 }
    ensures floors { floor_sum (2 ∷ 4 ∷ []) ≡ 13835058055282163712 }
    ensures just_below_one { floor_sum (2 ∷ 6 ∷ 6 ∷ 6 ∷ []) ≡ 18446744073709551614 }
    ensures just_above_one { ceiling_sum (2 ∷ 6 ∷ 6 ∷ 6 ∷ []) ≡ 18446744073709551617 }
{}
