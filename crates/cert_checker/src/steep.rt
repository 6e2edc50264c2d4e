//! Where a certificate's potential first is steep.
ghost use Rattle.std.specs.Prelude.{◌+◌, ◌<◌, ◌⊎◌, ◌↔◌, length, slice_index, IsTrue, MatchOption, OnSome};
ghost use Rattle.bound_cert.specs.Certificate.{IsCertFor};
ghost use Rattle.bound_cert.specs.Valid.{IsValid};
ghost use Rattle.cert_checker.specs.Steep.{IsLevel, IsFirstSteepWire, IsFirstSteep};

use bound_cert::Certificate;
use tdm_problem::{Problem, Wire};

/// A potential and a wire along which it rises, one way or the other, by more than the wire's length. Both
/// are named by their numbers from 0.
#[derive(Clone, Copy, Debug, PartialEq, Eq)]
pub struct Steep {
    pub potential: u32,
    pub wire: u32,
}

/// The first potential that is steep along a wire, and the first such wire of it; `None` exactly where the
/// certificate is valid. Takes no memory. Each potential looks at each wire once.
pub fn first_steep(problem: &Problem, cert: &Certificate) -> Option<Steep>
    requires { IsCertFor problem.now cert.now }
    ensures first { MatchOption result (IsValid problem.now cert.now) (IsFirstSteep problem.now cert.now) }
    ensures not_valid { OnSome result (¬ IsValid problem.now cert.now) }
{
    for potential in 0..cert.potentials() {
        if let Some(wire) = first_steep_wire(problem, cert, potential) {
            return Some(Steep { potential, wire });
        }
    }
    None
}

/// The first wire along which potential `p` is steep.
fn first_steep_wire(problem: &Problem, cert: &Certificate, p: u32) -> Option<u32>
    requires is_for { IsCertFor problem.now cert.now }
    requires there { p < length cert.now.potentials }
    ensures { MatchOption result (IsLevel problem.now cert.now p) (IsFirstSteepWire problem.now cert.now p) }
{
    let potential = cert.potential(p);
    for e in 0..problem.wires() {
        if is_steep(potential, problem.wire(e), cert.length(e)) {
            return Some(e);
        }
    }
    None
}

/// Whether the potential rises along the wire, one way or the other, by more than the limit.
fn is_steep(potential: &[u64], wire: Wire, limit: u64) -> bool
    requires a_there { wire.a < length potential.now }
    requires b_there { wire.b < length potential.now }
    ensures { IsTrue result
        ↔ ((slice_index potential.now wire.a + limit < slice_index potential.now wire.b)
        ⊎ (slice_index potential.now wire.b + limit < slice_index potential.now wire.a)) }
{
    let at_a = potential[wire.a as usize];
    let at_b = potential[wire.b as usize];
    at_a.abs_diff(at_b) > limit
}
