//! What holds of ratios by their definitions alone.
ghost use Rattle.std.specs.Prelude.{ℕ, ◌<◌, ◌≤◌, ◌↔◌, replicate};
ghost use Rattle.tdm_problem.specs.Fit.{FitsLanes};
ghost use Rattle.tdm_problem.specs.Legal.{IsEvenRatio};
ghost use Rattle.even_legalise.specs.Uniform.{uniform_ratio};
ghost use Rattle.even_legalise.specs.Laws.{ShareLaw};
ghost use Rattle.even_legalise.specs.Shared.{even_ratio, IsLeastEven};

/// The uniform ratio is the least even ratio with which that many nets fit these lanes if all have it: it is
/// positive and even where there are a net and a lane, and where there is a lane the nets fit with a positive
/// even ratio exactly where that is no less than the uniform ratio.
pub fn uniform_is_least()
    ensures even { (nets lanes : ℕ) → 0 < nets → 0 < lanes →
        IsEvenRatio (uniform_ratio nets lanes) }
    ensures least { (nets lanes ratio : ℕ) → 0 < lanes → IsEvenRatio ratio →
        FitsLanes (replicate nets ratio) lanes ↔ (uniform_ratio nets lanes ≤ ratio) }
{}

/// Ratios fit the lanes where each, times its share, is at least a lane, and the shares together are within
/// the lanes.
pub fn shares_fit()
    ensures { ShareLaw }
{}

/// The even ratio for a share is the least positive even number that, times the share, is at least a lane.
pub fn even_ratio_is_least()
    ensures { (share : ℕ) → 0 < share → IsLeastEven share (even_ratio share) }
{}
