//! What holds of counts by their definition alone.
ghost use Rattle.std.specs.Prelude.{ℕ, ◌<◌, ◌==◌, count_by};
ghost use Rattle.std.specs.Ordering.{nat_cmp};
ghost use Rattle.std.specs.FinMap as map;
ghost use Rattle.recip_sum.specs.Counts.{count_of, items};

/// A ratio that stands among the items is counted.
pub fn items_are_counted()
    ensures { (counts : map.FinMap nat_cmp ℕ) (ratio : ℕ) → 0 < count_by (λ x. x == ratio) (items counts)
        → 0 < count_of counts ratio }
{}
