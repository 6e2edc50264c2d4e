//! A potential's values.
ghost use Rattle.std.specs.Prelude.{◌≡◌, ◌≤◌, ◌^◌, All};
ghost use Rattle.tdm_problem.specs.Limits.{most_fpgas};
ghost use Rattle.bound_cert.specs.Scaling.{IsScaled};

use std::marker::Model;

/// A number for each FPGA of a board, in order.
#[derive(Drop)]
pub(crate) struct Potential {
    values: Vec<u64>,
}

impl Model for Potential {
    ghost use Rattle.std.specs.Prelude.{List, ℕ};

    ghost Value = { List ℕ };

    ghost view = { λ p. p.values.items };
}

impl Potential {
    /// The potential with these values.
    pub(crate) fn new(values: Vec<u64>) -> Potential
        ensures { result ≡ values.items }
    {
        Potential { values }
    }

    /// The values, FPGAs in order.
    pub(crate) fn values(&self) -> &[u64]
        ensures { result.now ≡ self.now }
    {
        self.values.as_slice()
    }

    /// Multiplies each value by a length.
    pub(crate) fn scale(&mut self, length: u64)
        requires small { All (λ v. v ≤ most_fpgas) self.old }
        requires short { length ≤ 2 ^ 40 }
        ensures { IsScaled length self.old self.new }
    {
        for value in self.values.iter_mut() {
            *value *= length;
        }
    }
}
