//! What is remembered of rounds for their certificates by growth.
ghost use Rattle.std.specs.Prelude.{◌≡◌, None, Some, IfSome};
ghost use Rattle.tdm_problem.specs.Board.{Board};
ghost use Rattle.tdm_cli.specs.Candidates.{IsCandidate, AreCandidates};

/// The weights of the groups in a round and the loads of the wires after it: what its certificate by growth
/// is made of, and about what bound it has.
#[derive(Drop)]
pub struct Candidate {
    pub weights: Vec<u64>,
    pub lengths: Vec<u64>,
    pub foretold: u128,
}

impl Candidate {
    /// Of these weights of groups and lengths of wires.
    pub(crate) fn new(weights: Vec<u64>, lengths: Vec<u64>) -> Candidate
        ensures weights { result.weights.items ≡ weights.items }
        ensures lengths { result.lengths.items ≡ lengths.items }
    {
        let foretold = foretold(&weights, &lengths);
        Candidate {
            weights,
            lengths,
            foretold,
        }
    }
}

/// The squares of the lengths over the sum of the weights: the bound by growth, if each net grew as far as
/// its tree is long.
fn foretold(weights: &[u64], lengths: &[u64]) -> u128 {
    let mut squares: u128 = 0;
    for length in lengths {
        let length = u128::from(*length);
        squares = squares.saturating_add(length * length);
    }
    let mut total: u128 = 0;
    for weight in weights {
        total = total.saturating_add(u128::from(*weight));
    }
    squares.checked_div(total).unwrap_or(0)
}

/// The candidates of two rounds: of the last, and of that before it of which the greatest bound is foretold.
#[derive(Drop)]
pub struct Candidates {
    pub last: Option<Candidate>,
    pub strongest: Option<Candidate>,
}

impl Candidates {
    /// Of no rounds.
    pub(crate) fn new() -> Candidates
        ensures last { result.last ≡ None }
        ensures none { (board : Board) → AreCandidates board result }
    {
        Candidates {
            last: None,
            strongest: None,
        }
    }

    /// Adds the candidate of one more round.
    pub(crate) fn add(&mut self, candidate: Candidate)
        ensures last { self.new.last ≡ Some candidate }
        ensures kept { (board : Board) → AreCandidates board self.old → IsCandidate board candidate
            → AreCandidates board self.new }
    {
        if let Some(before) = self.last.replace(candidate) {
            strengthen(&mut self.strongest, before);
        }
    }
}

/// Keeps a candidate in place of the strongest where a greater bound is foretold of it.
fn strengthen(strongest: &mut Option<Candidate>, candidate: Candidate)
    ensures { (board : Board) → IfSome strongest.old (IsCandidate board) → IsCandidate board candidate
        → IfSome strongest.new (IsCandidate board) }
{
    if let Some(other) = strongest {
        if other.foretold >= candidate.foretold {
            return;
        }
    }
    *strongest = Some(candidate);
}
