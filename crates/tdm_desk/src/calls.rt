//! The calls that a program makes on the outside world.
ghost use Rattle.std.specs.Prelude.{◌≡◌, ◌≤◌, ◌<◌, ◌↔◌, ℕ, [], List, length, take, if◌then◌else◌, Option, option_map, IsTrue, IfOk, OnOk, OnErr, IsErrOf};
ghost use Rattle.std.specs.Option.{ForSome};
ghost use Rattle.std.specs.FinMap.{contains_key};
ghost use Rattle.tdm_desk.specs.Seen.{Seen, opened, input_closed, taken, created, output_closed, written, said, input_is_open, output_is_open, files_of, rest_of};
ghost use Rattle.tdm_desk.specs.Counts.{Counts, CountsFaults, CountsOnlyReading, CountsOnlyWriting, ReadingFailed, WritingFailed};
ghost use Rattle.tdm_desk.specs.Plan.{fails_next, after_reading, after_writing};
ghost use Rattle.tdm_desk.specs.declared.plan.Plan.{Plan};
ghost use Rattle.tdm_desk.specs.declared.calls.DeskFault.TheVariants.{NoMemory};

use crate::slots::{InSlot, OutSlot};
use std::alloc::AllocError;
use thiserror::Error;

/// Why a call of a desk did not do its work.
#[derive(Debug, Drop, Error)]
pub enum DeskFault {
    /// The outside refused. The desk's count of such faults rose by one, or stands at its last value.
    #[error("the desk failed")]
    Failed,
    /// Memory was wanting.
    #[error("memory was wanting")]
    NoMemory,
}

impl From<AllocError> for DeskFault {
    ghost from_gives = { λ _ fault. fault ≡ NoMemory };

    fn from(_wanting: AllocError) -> DeskFault {
        DeskFault::NoMemory
    }
}

/// The outside world: three inputs, three outputs, and what is said to the user.
///
/// A slot that is open is replaced where it is opened or created again. Each call leaves all as it
/// was but what it names.
pub trait Desk {
    // how many faults there were so far
    ghost counts: { Self → Counts };

    // which slots are open, and the bytes, if the desk tells them
    ghost seen: { Self → Seen };

    // no later call fails; memory may still be wanting
    ghost steady: { Self → Type 0 };

    // which later calls fail and how much one of them moves, if the desk knows
    ghost plan: { Self → Option Plan };

    /// Opens the file of this name as an input, and answers whether there is one.
    ///
    /// The slot is closed where there is none, and after a fault.
    fn open_input(&mut self, slot: InSlot, name: &str) -> Result<bool, DeskFault>
        ensures ok { IfOk result (λ found. seen self.new ≡
            (if found then opened slot name.now (seen self.old) else input_closed slot (seen self.old))) }
        ensures found { IfOk result (λ found. ForSome (files_of (seen self.old))
            (λ files. found ≡ contains_key files name.now)) }
        ensures err { OnErr result (seen self.new ≡ input_closed slot (seen self.old)) }
        ensures foreseen { ForSome (plan self.old) (λ known.
            IsErrOf result DeskFault.Failed ↔ IsTrue (fails_next known.reading)) }
        ensures nearer { plan self.new ≡ option_map after_reading (plan self.old) }
        ensures failed { IsErrOf result DeskFault.Failed →
            ReadingFailed counts steady slot self.old self.new }
        ensures own { CountsOnlyReading counts slot result self.old self.new }
        ensures counted { CountsFaults counts steady self.old self.new };

    /// Reads the next bytes of an open input to the front of `buf`, and answers how many.
    ///
    /// It is 0 just at the end of the input. After a fault the input gives what it still gave.
    fn read(&mut self, slot: InSlot, buf: &mut [u8]) -> Result<usize, DeskFault>
        requires is_open { IsTrue (input_is_open slot (seen self.old)) }
        requires has_room { 0 < length buf.old }
        ensures within { IfOk result (λ count. count ≤ length buf.new) }
        ensures bounded { IfOk result (λ count. ForSome (plan self.old) (λ known. count ≤ known.most)) }
        ensures ok { IfOk result (λ count. seen self.new ≡ taken slot count (seen self.old)) }
        ensures bytes { IfOk result (λ count. ForSome (rest_of slot (seen self.old))
            (λ rest. take count buf.new ≡ take count rest)) }
        ensures end { IfOk result (λ count. ForSome (rest_of slot (seen self.old))
            (λ rest. (count ≡ 0) ↔ (rest ≡ []))) }
        ensures err { OnErr result (seen self.new ≡ seen self.old) }
        ensures foreseen { ForSome (plan self.old) (λ known.
            IsErrOf result DeskFault.Failed ↔ IsTrue (fails_next known.reading)) }
        ensures nearer { plan self.new ≡ option_map after_reading (plan self.old) }
        ensures failed { IsErrOf result DeskFault.Failed →
            ReadingFailed counts steady slot self.old self.new }
        ensures own { CountsOnlyReading counts slot result self.old self.new }
        ensures counted { CountsFaults counts steady self.old self.new };

    /// Makes the file of this name empty, and opens it as an output.
    ///
    /// After a fault the files are as they were, and the slot is closed.
    fn create(&mut self, slot: OutSlot, name: &str) -> Result<(), DeskFault>
        ensures ok { OnOk result (seen self.new ≡ created slot name.now (seen self.old)) }
        ensures err { OnErr result (seen self.new ≡ output_closed slot (seen self.old)) }
        ensures foreseen { ForSome (plan self.old) (λ known.
            IsErrOf result DeskFault.Failed ↔ IsTrue (fails_next known.writing)) }
        ensures nearer { plan self.new ≡ option_map after_writing (plan self.old) }
        ensures failed { IsErrOf result DeskFault.Failed →
            WritingFailed counts steady self.old self.new }
        ensures own { CountsOnlyWriting counts result self.old self.new }
        ensures counted { CountsFaults counts steady self.old self.new };

    /// Adds the first bytes of `piece` to the file of an open output, and answers how many.
    ///
    /// It is at least 1. After a fault the file is as it was, and the slot stays open.
    fn write(&mut self, slot: OutSlot, piece: &[u8]) -> Result<usize, DeskFault>
        requires is_open { IsTrue (output_is_open slot (seen self.old)) }
        requires not_empty { 0 < length piece.now }
        ensures some { IfOk result (λ count. 0 < count) }
        ensures within { IfOk result (λ count. count ≤ length piece.now) }
        ensures bounded { IfOk result (λ count. ForSome (plan self.old) (λ known. count ≤ known.most)) }
        ensures ok { IfOk result (λ count.
            seen self.new ≡ written slot (take count piece.now) (seen self.old)) }
        ensures err { OnErr result (seen self.new ≡ seen self.old) }
        ensures foreseen { ForSome (plan self.old) (λ known.
            IsErrOf result DeskFault.Failed ↔ IsTrue (fails_next known.writing)) }
        ensures nearer { plan self.new ≡ option_map after_writing (plan self.old) }
        ensures failed { IsErrOf result DeskFault.Failed →
            WritingFailed counts steady self.old self.new }
        ensures own { CountsOnlyWriting counts result self.old self.new }
        ensures counted { CountsFaults counts steady self.old self.new };

    /// Closes an open output, whose file keeps its bytes. It is closed after a fault too.
    fn finish(&mut self, slot: OutSlot) -> Result<(), DeskFault>
        requires { IsTrue (output_is_open slot (seen self.old)) }
        ensures closed { seen self.new ≡ output_closed slot (seen self.old) }
        ensures foreseen { ForSome (plan self.old) (λ known.
            IsErrOf result DeskFault.Failed ↔ IsTrue (fails_next known.writing)) }
        ensures nearer { plan self.new ≡ option_map after_writing (plan self.old) }
        ensures failed { IsErrOf result DeskFault.Failed →
            WritingFailed counts steady self.old self.new }
        ensures own { CountsOnlyWriting counts result self.old self.new }
        ensures counted { CountsFaults counts steady self.old self.new };

    /// Says the first bytes of `piece` to the user, and answers how many.
    ///
    /// It is at least 1. After a fault nothing more was said.
    fn say(&mut self, piece: &[u8]) -> Result<usize, DeskFault>
        requires { 0 < length piece.now }
        ensures some { IfOk result (λ count. 0 < count) }
        ensures within { IfOk result (λ count. count ≤ length piece.now) }
        ensures bounded { IfOk result (λ count. ForSome (plan self.old) (λ known. count ≤ known.most)) }
        ensures ok { IfOk result (λ count.
            seen self.new ≡ said (take count piece.now) (seen self.old)) }
        ensures err { OnErr result (seen self.new ≡ seen self.old) }
        ensures foreseen { ForSome (plan self.old) (λ known.
            IsErrOf result DeskFault.Failed ↔ IsTrue (fails_next known.writing)) }
        ensures nearer { plan self.new ≡ option_map after_writing (plan self.old) }
        ensures failed { IsErrOf result DeskFault.Failed →
            WritingFailed counts steady self.old self.new }
        ensures own { CountsOnlyWriting counts result self.old self.new }
        ensures counted { CountsFaults counts steady self.old self.new };
}
