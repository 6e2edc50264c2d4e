//! What holds of shares by their definition alone.
ghost use Rattle.std.specs.Prelude.{ℕ, ◌≤◌, ◌*◌, ◌^◌, List, length, sum, All};
ghost use Rattle.tdm_problem.specs.Limits.{most_nets};
ghost use Rattle.ratio_shares.specs.Shares.{shares_of};

/// The shares of all numbers together are no more than the lanes have.
pub fn shares_fit_the_lanes()
    ensures { (numbers : List ℕ) (lanes : ℕ) → sum (shares_of numbers lanes) ≤ lanes * 2 ^ 64 }
{}

/// Each share of up to 2^20 numbers is at least 2^34, a lane's 2^30th part, and at most all of the lanes.
pub fn shares_are_in_range()
    ensures least { (numbers : List ℕ) (lanes : ℕ) → length numbers ≤ most_nets → 1 ≤ lanes →
        All (λ share. 2 ^ 34 ≤ share) (shares_of numbers lanes) }
    ensures most { (numbers : List ℕ) (lanes : ℕ) →
        All (λ share. share ≤ lanes * 2 ^ 64) (shares_of numbers lanes) }
{}
