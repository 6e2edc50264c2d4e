//! Lengths of wires and arcs, and lower bounds of ways, that searches read.
ghost use Rattle.std.specs.Prelude.{◌≡◌, ◌+◌, ◌^◌, ◌<◌, ◌≤◌, ℕ};

/// Lengths of the wires of a graph, the same in both directions. 0 is a length.
pub trait Lengths {
    /// How many wires have a length, counted from wire 0.
    ghost covered: { Self → ℕ };

    /// The length of each wire.
    ghost length: { Self → ℕ → ℕ };

    /// The length of a wire, at most 2^51.
    fn len_of(&self, wire: u32) -> u64
        requires { wire < covered self.now }
        ensures { result ≡ length self.now wire };

    /// No wire is too long for the sums of searches.
    ghost limit: { (lengths : Self) (e : ℕ) → e < covered lengths → length lengths e ≤ 2 ^ 51 };
}

/// Lengths of arcs: a wire has one in each direction. 0 is a length.
pub trait ArcLengths {
    /// How many wires have lengths, counted from wire 0.
    ghost arcs_covered: { Self → ℕ };

    /// The length of each wire on the way from one of its ends to the other.
    ghost arc_length: { Self → ℕ → ℕ → ℕ → ℕ };

    /// The length of a wire on the way from one of its ends to the other, at most 2^51.
    fn arc_len(&self, wire: u32, from: u32, to: u32) -> u64
        requires { wire < arcs_covered self.now }
        ensures { result ≡ arc_length self.now wire from to };

    /// No arc is too long for the sums of searches.
    ghost arc_limit: { (arcs : Self) (e a b : ℕ) → e < arcs_covered arcs → arc_length arcs e a b ≤ 2 ^ 51 };
}

/// The lengths of wires as lengths of arcs.
#[derive(Drop)]
pub struct BothWays<'a, Q: Lengths>(pub &'a Q);

impl<Q: Lengths> ArcLengths for BothWays<'_, Q> {
    ghost arcs_covered = { λ s. Q.covered s.0.now };

    ghost arc_length = { λ s e a b. Q.length s.0.now e };

    ghost arc_limit = { λ s e a b below. Q.limit s.0.now e below };

    fn arc_len(&self, wire: u32, _from: u32, _to: u32) -> u64 {
        self.0.len_of(wire)
    }
}

/// A bound for each FPGA. Bounds are true where no walk from an FPGA to a goal is shorter than its bound. No
/// law asks that of them: what a search says of the way that it found holds with any bounds, and what it
/// says of all walks holds where the bounds are true.
pub trait LowerBounds {
    /// How many FPGAs have a bound, counted from FPGA 0.
    ghost bounds_covered: { Self → ℕ };

    /// The bound of each FPGA.
    ghost lower_bound: { Self → ℕ → ℕ };

    /// The bound of an FPGA.
    fn bound_of(&self, fpga: u32) -> u64
        requires { fpga < bounds_covered self.now }
        ensures { result ≡ lower_bound self.now fpga };
}

/// No bound: walks may be of any length.
#[derive(Clone, Copy)]
pub struct NoBound;

impl LowerBounds for NoBound {
    ghost bounds_covered = { λ _. 4096 };

    ghost lower_bound = { λ _ _. 0 };

    fn bound_of(&self, _fpga: u32) -> u64 {
        0
    }
}
