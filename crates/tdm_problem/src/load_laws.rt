//! The law of the cost of loads, which holds by its definitions alone.
ghost use Rattle.tdm_problem.specs.Loads.{CostLaw, MovedLaw};

/// A net with the number `s` that gets wires beside what the other nets load raises the cost by `s` times the
/// marginal length of these wires. So of two trees for a net the one of less marginal length costs less, by
/// `s` times the difference, whatever its tree was before.
pub fn marginal()
    ensures cost { CostLaw }
    ensures moved { MovedLaw }
{}
