//! A text that comes in pieces, up to a want of memory.
ghost use Rattle.std.specs.Prelude.{◌≡◌, ◌+◌, ◌<◌, ◌^◌, ◌++◌, ℕ, List, length, OnOk, OnErr, IsTrue, IfOk, IfErr, Err, alloc_error, true, false};
ghost use Rattle.tdm_lines.specs.Reader.{IsFed, IsTooLong, IsWhole};
ghost use Rattle.tdm_lines.specs.declared.refusal.ReadingFault.TheVariants.{NoMemory};

use crate::grammar::Grammar;
use crate::reading::Reading;
use crate::refusal::{ReadingFault, refused};
use std::alloc::AllocError;

impl<G: Grammar + Drop> Reading<G> {
    /// Takes the next piece of the text. It does not matter how the text is cut into pieces.
    pub fn feed(&mut self, piece: &[u8]) -> Result<(), AllocError>
        requires fine { self.old.spent ≡ false → G.fine self.old.grammar }
        requires room { self.old.fed + length piece.now < 2 ^ 31 }
        ensures fine { self.new.spent ≡ false → G.fine self.new.grammar }
        ensures fed { OnOk result (self.new.fed ≡ self.old.fed + length piece.now) }
        ensures sizes { OnOk result (G.sizes self.new.grammar ≡ G.sizes self.old.grammar) }
        ensures at { OnOk result ((text : List ℕ) → IsFed G.reads G.holds G.largest self.old text
            → IsFed G.reads G.holds G.largest self.new (text ++ piece.now)) }
        ensures spent { OnErr result (IsTrue self.new.spent) }
        ensures stays { self.old.spent ≡ true → result ≡ Err alloc_error }
    {
        if self.spent {
            return Err(AllocError);
        }
        if let Err(fault) = self.take(piece) {
            self.spent = true;
            return Err(fault);
        }
        self.spent = false;
        Ok(())
    }

    /// Ends the text. Answers what its lines made of the grammar's state, and the number of its last line;
    /// refuses a text of more than so many bytes as this kind says. A reading that is spent answers NoMemory.
    pub fn finish<K: Copy>(self, most: u64, too_long: K) -> Result<(G, u32), ReadingFault<K>>
        requires fine { self.spent ≡ false → G.fine self.grammar }
        requires room { most + 1 < 2 ^ 31 }
        ensures stays { self.spent ≡ true → result ≡ Err NoMemory }
        ensures fine { IfOk result (λ r. G.fine r.0) }
        ensures sizes { IfOk result (λ r. G.sizes r.0 ≡ G.sizes self.grammar) }
        ensures read { IfOk result (λ r. (text : List ℕ) → IsFed G.reads G.holds G.largest self text
            → IsWhole G.reads G.largest most r.0 r.1 text) }
        ensures fault { IfErr result (λ fault. (text : List ℕ) → IsFed G.reads G.holds G.largest self text
            → IsTooLong most too_long text fault) }
    {
        if self.spent {
            return Err(ReadingFault::NoMemory);
        }
        if self.fed > most {
            return Err(refused(too_long, 0));
        }
        let read = self.close()?;
        Ok(read)
    }
}
