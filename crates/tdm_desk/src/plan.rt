//! Failures that are planned for later calls, and how much one call moves.
ghost use Rattle.std.specs.Prelude.{◌≡◌, ◌≤◌, ◌<◌, ◌-◌, [], ◌∷◌, ◌++◌, map, min, OnOk, OnErr};
ghost use Rattle.tdm_desk.specs.Plan.{fails_next, after_call};

use std::alloc::{AllocError, Global};
use std::marker::Model;

/// Failures of one kind of call, each by how many calls from now it comes: 1 for the next call, and 0 where
/// it has come.
#[derive(Drop)]
pub struct Countdowns {
    calls: Vec<u64>,
}

impl Model for Countdowns {
    ghost use Rattle.std.specs.Prelude.{ℕ, List};

    ghost Value = { List ℕ };

    ghost view = { λ countdowns. countdowns.calls.items };
}

impl Countdowns {
    /// No failure.
    pub fn new(alloc: Global) -> Countdowns
        ensures { result ≡ [] }
    {
        Countdowns {
            calls: Vec::new(alloc),
        }
    }

    /// Plans one more failure, so many calls from now. Where memory is wanting, nothing changes.
    pub fn add(&mut self, calls: u64) -> Result<(), AllocError>
        ensures ok { OnOk result (self.new ≡ self.old ++ calls ∷ []) }
        ensures err { OnErr result (self.new ≡ self.old) }
    {
        self.calls.push(calls)?;
        Ok(())
    }

    /// Whether the call that is made now is to fail. All others come nearer by one call.
    pub fn next_call(&mut self) -> bool
        ensures answer { result ≡ fails_next self.old }
        ensures after { self.new ≡ after_call self.old }
    {
        let fails = self.calls.contains(&1);
        lower(&mut self.calls);
        fails
    }
}

/// Makes each number less by one, where it is not 0.
fn lower(numbers: &mut [u64])
    ensures { numbers.new ≡ map (λ n. n - 1) numbers.old }
{
    for n in numbers.iter_mut() {
        *n = n.saturating_sub(1);
    }
}

/// The most bytes that one call moves, at least one.
#[derive(Drop)]
pub struct PieceLimit {
    most: usize,
}

impl Model for PieceLimit {
    ghost use Rattle.std.specs.Prelude.{ℕ, ◌<◌};

    ghost Value = { ℕ };

    ghost view = { λ limit. limit.most };

    ghost invariant = { λ limit. 0 < limit.most };
}

impl PieceLimit {
    /// This many bytes.
    pub fn new(most: usize) -> PieceLimit
        requires { 0 < most }
        ensures { result ≡ most }
    {
        PieceLimit { most }
    }

    /// How many bytes of so many one call moves.
    pub fn of(&self, bytes: usize) -> usize
        ensures least { result ≡ min self.now bytes }
        ensures some { 0 < bytes → 0 < result }
    {
        self.most.min(bytes)
    }
}

/// Which later calls are to fail, and the most bytes that one call moves.
#[derive(Drop)]
pub struct Plan {
    /// Failures of the calls that open or read an input.
    pub reading: Countdowns,
    /// Failures of the calls that create, write, finish or say.
    pub writing: Countdowns,
    /// The most bytes that one call reads, writes or says.
    pub most: PieceLimit,
}

impl Plan {
    /// No failures, and no bound on pieces.
    pub fn new(alloc: Global) -> Plan
        ensures reading { result.reading ≡ [] }
        ensures writing { result.writing ≡ [] }
        ensures most { result.most ≡ usize.MAX }
    {
        Plan {
            reading: Countdowns::new(alloc),
            writing: Countdowns::new(alloc),
            most: PieceLimit::new(usize::MAX),
        }
    }
}
