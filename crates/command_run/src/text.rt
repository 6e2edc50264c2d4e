//! Texts that are read, and texts that are written.
ghost use Rattle.std.specs.Prelude.{◌≡◌, ◌≤◌, ◌+◌, ◌++◌, [], List, ℕ, Result, length, take, IfOk, IfErr, OnOk, OnErr, IsTrue, IsErrOf};
ghost use Rattle.tdm_desk.specs.Seen.{output_is_open, written, PrefixWritten};
ghost use Rattle.tdm_desk.specs.Counts.{CountsFaults, CountsOnlyWriting, WritingFailed};
ghost use Rattle.command_run.specs.Inputs.{TextKind, most_text_bytes};
ghost use Rattle.command_run.specs.Faulty.{IsFaultOf};

use crate::status::RunStatus;
use std::alloc::{AllocError, Global};
use tdm_desk::{Desk, DeskFault, OutSlot};

/// Why a text gave nothing.
#[derive(Debug, Drop)]
pub enum TextFault<R> {
    /// The text is refused.
    Refused(R),
    /// Memory was wanting.
    NoMemory,
}

/// A reader of texts of one kind, which is fed a text piece by piece.
pub trait TextReader: Drop {
    /// The statuses of the commands that read such texts.
    type Status: RunStatus;

    /// What a text says.
    type Value;

    /// Why a text is refused.
    type Refusal: Drop;

    // the kind of text
    ghost kind: { Self → TextKind Self.Status Self.Value Self.Refusal };

    // the most bytes that a text may have
    ghost limit: { Self → ℕ };

    // the bytes that the reader may have been fed so far
    ghost is_at: { Self → List ℕ → Type 0 };

    // how many bytes it was fed
    ghost fed: { Self → ℕ };

    /// The most bytes that a text may have. One that is longer is refused, whatever is behind one byte more.
    fn limit(&self) -> u64
        ensures same { result ≡ limit self.now }
        ensures small { result ≤ most_text_bytes };

    /// A text that is longer than the limit is refused, and cut one byte past the limit it says what the
    /// whole says. Nothing is done.
    fn cut(&self)
        ensures same { (text : List ℕ) → (kind self.now).says (take (limit self.now + 1) text)
            ≡ (kind self.now).says text }
        ensures within { (text : List ℕ) (value : Self.Value) → (kind self.now).says text ≡ Ok value
            → length text ≤ limit self.now };

    /// Takes the next bytes of the text. After want of memory it may not be fed again.
    fn feed(&mut self, piece: &[u8]) -> Result<(), AllocError>
        requires { fed self.old + length piece.now ≤ limit self.old + 1 }
        ensures at { OnOk result ((text : List ℕ) → is_at self.old text
            → is_at self.new (text ++ piece.now)) }
        ensures fed { OnOk result (fed self.new ≡ fed self.old + length piece.now) }
        ensures kind { kind self.new ≡ kind self.old }
        ensures limit { limit self.new ≡ limit self.old };

    /// What the text that it was fed says.
    fn end(self) -> Result<Self::Value, TextFault<Self::Refusal>>
        ensures ok { IfOk result (λ value. (text : List ℕ) → is_at self text
            → (kind self).says text ≡ Ok value) }
        ensures fault { IfErr result (λ fault. (text : List ℕ) → is_at self text
            → IsFaultOf ((kind self).says text) fault) };

    /// The status of a run whose text is refused.
    fn status() -> Self::Status
        ensures { (reader : Self) → result ≡ (kind reader).status };

    /// What is said of a text that is refused.
    fn report(alloc: Global, refusal: Self::Refusal) -> Result<Vec<u8>, AllocError>
        ensures { IfOk result (λ text. (reader : Self) → text.items ≡ (kind reader).report refusal) };
}

/// A text that can be written to an output.
pub trait OutputText: Drop {
    // its bytes
    ghost text: { Self → List ℕ };

    /// Adds the text to the file of an open output. After a fault a first part of it was added, and the slot
    /// stays open. A fault of the desk is answered as it came, and no call is tried again.
    fn write<D: Desk>(&self, desk: &mut D, slot: OutSlot) -> Result<(), DeskFault>
        requires { IsTrue (output_is_open slot (D.seen desk.old)) }
        ensures ok { OnOk result (D.seen desk.new ≡ written slot (text self.now) (D.seen desk.old)) }
        ensures err { OnErr result (PrefixWritten slot (text self.now) (D.seen desk.old) (D.seen desk.new)) }
        ensures failed { IsErrOf result DeskFault.Failed →
            WritingFailed D.counts D.steady desk.old desk.new }
        ensures own { CountsOnlyWriting D.counts result desk.old desk.new }
        ensures counted { CountsFaults D.counts D.steady desk.old desk.new };
}
