//! What a text makes of its lines.
ghost use Rattle.std.specs.Prelude.{◌≡◌, ◌<◌, ◌≤◌, ◌++◌, ℕ, List, [], ◌∷◌, None, length, All, OnOk};
ghost use Rattle.tdm_lines.specs.Lines.{Line};
ghost use Rattle.tdm_lines.specs.SoFar.{ended_line};

use crate::line::TokenFault;
use std::alloc::AllocError;

/// A text's grammar: what its lines, as they come, make of a state. Nothing is said of a state after an
/// error.
pub trait Grammar {
    // the largest number of the text
    ghost largest: { ℕ };

    // what no line changes: how large the things are that the text is about
    ghost sizes: { Self → List ℕ };

    // what holds of every state
    ghost fine: { Self → Type 0 };

    // the lines that came so far made this state
    ghost reads: { Self → List Line → Type 0 };

    // the line in progress has these numbers so far
    ghost holds: { Self → List ℕ → Type 0 };

    /// The line in progress has one number more, with `place` numbers before it.
    fn number(&mut self, place: u32, number: u64) -> Result<(), AllocError>
        requires { fine self.old }
        ensures fine { OnOk result (fine self.new) }
        ensures sizes { OnOk result (sizes self.new ≡ sizes self.old) }
        ensures reads { OnOk result ((done : List Line) → reads self.old done → reads self.new done) }
        ensures holds { OnOk result ((numbers : List ℕ) → place ≡ length numbers → holds self.old numbers
            → holds self.new (numbers ++ number ∷ [])) };

    /// The line in progress ends, after so many tokens. Where it has a fault, nothing is known of its
    /// numbers.
    fn line(&mut self, line: u32, fault: Option<TokenFault>, count: u32) -> Result<(), AllocError>
        requires { fine self.old }
        ensures fine { OnOk result (fine self.new) }
        ensures sizes { OnOk result (sizes self.new ≡ sizes self.old) }
        ensures reads { OnOk result ((done : List Line) (numbers : List ℕ) → reads self.old done
            → 0 < count
            → (fault ≡ None → (count ≡ length numbers) × holds self.old numbers
            × All (λ n. n ≤ largest) numbers)
            → reads self.new (done ++ ended_line line fault numbers ∷ [])) }
        ensures holds { OnOk result (holds self.new []) };
}
