//! The ends of a wire, seen from one of them.
ghost use Rattle.std.specs.Prelude.{◌≡◌, ◌≢◌};

use tdm_problem::Wire;

/// The end of a wire that is not FPGA `f`.
pub fn other_end(wire: Wire, f: u32) -> u32
    ensures first { wire.a ≡ f → result ≡ wire.b }
    ensures second { wire.a ≢ f → result ≡ wire.a }
{
    if wire.a == f { wire.b } else { wire.a }
}
