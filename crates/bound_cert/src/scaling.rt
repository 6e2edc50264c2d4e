//! Potentials at a length other than 1.
ghost use Rattle.std.specs.Prelude.{◌≤◌, ◌^◌, All};
ghost use Rattle.tdm_problem.specs.Limits.{most_fpgas};
ghost use Rattle.bound_cert.specs.Scaling.{IsScaled, AreScaled};

use crate::potential::Potential;

/// Multiplies each value of each potential by a length.
pub(crate) fn scale_all(potentials: &mut [Potential], length: u64)
    requires small { All (All (λ v. v ≤ most_fpgas)) potentials.old }
    requires short { length ≤ 2 ^ 40 }
    ensures { AreScaled length potentials.old potentials.new }
{
    for potential in potentials.iter_mut() {
        potential.scale(length);
    }
}
