//! How much a call of rerouting looks for.
ghost use Rattle.std.specs.Prelude.{◌≡◌, ◌<◌, ◌≤◌, true, false};

/// In so many rounds, the first ones, the first pass looks for a shorter tree of every net.
const FULL_ROUNDS: u32 = 5;

/// How much is looked for. It decides how good the trees become and how long that takes, and nothing else.
#[derive(Clone, Copy, Debug, PartialEq, Eq)]
pub struct Effort {
    /// So many passes look for a shorter tree of every net. In later ones a net with three FPGAs or more
    /// keeps its tree, without a look for another, where the table of lower bounds shows that it is no longer
    /// than the least distances from its first FPGA to the others together. On a board without a table they
    /// are as the others.
    pub full_passes: u32,
    /// Whether the trees of heavy nets, those with at least the mean number, are grown from several of their
    /// FPGAs.
    pub several_starts: bool,
}

impl Effort {
    /// The effort of a round of rerouting, where so many were done before: in the first five a full pass and
    /// several starts, then neither.
    pub fn of_round(done: u32) -> Effort
        ensures first { done < 5 → result ≡ record { full_passes = 1; several_starts = true } }
        ensures later { 5 ≤ done → result ≡ record { full_passes = 0; several_starts = false } }
    {
        if done < FULL_ROUNDS {
            return Effort {
                full_passes: 1,
                several_starts: true,
            };
        }
        Effort {
            full_passes: 0,
            several_starts: false,
        }
    }
}
