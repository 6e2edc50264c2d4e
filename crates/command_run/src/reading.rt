//! Reading an input of a command.
ghost use Rattle.std.specs.Prelude.{◌≡◌, ◌≤◌, ◌<◌, ◌+◌, ◌-◌, ◌++◌, ℕ, List, [], None, length, take, IsTrue, IsFalse, IfOk, OnOk, OnErr, IfErr, IsErrOf};
ghost use Rattle.std.specs.Option.{ForSome};
ghost use Rattle.std.specs.FinMap.{get};
ghost use Rattle.tdm_desk.specs.Seen.{input_is_open, rest_of, files_of, taken, SomeTaken};
ghost use Rattle.tdm_desk.specs.Counts.{CountsFaults, CountsOnlyReading, ReadingFailed};
ghost use Rattle.command_run.specs.Slots.{place};
ghost use Rattle.command_run.specs.Filled.{HasMore, IsFed, FilledFrom};
ghost use Rattle.command_run.specs.Decision.{OnlyReads, Had, DecidesEarly, IsSaid};

use crate::outcome::{Decision, Prepared};
use crate::report;
use crate::status::RunStatus;
use crate::text::{OutputText, TextFault, TextReader};
use std::alloc::{AllocError, Global};
use tdm_desk::{Desk, DeskFault, InSlot};

/// The most bytes that one read asks for.
const PIECE: usize = 65536;

/// Reads once, feeds the reader with what was read, and answers how many bytes that was.
fn feed_piece<D: Desk, R: TextReader>(
    desk: &mut D,
    slot: InSlot,
    buffer: &mut [u8],
    reader: &mut R,
) -> Result<usize, DeskFault>
    requires is_open { IsTrue (input_is_open slot (D.seen desk.old)) }
    requires has_room { 0 < length buffer.old }
    requires limited { R.fed reader.old + length buffer.old ≤ R.limit reader.old + 1 }
    ensures within { IfOk result (λ count. count ≤ length buffer.old) }
    ensures fed { IfOk result (λ count. R.fed reader.new ≡ R.fed reader.old + count) }
    ensures ok { IfOk result (λ count. D.seen desk.new ≡ taken slot count (D.seen desk.old)) }
    ensures at { IfOk result (λ count. (text : List ℕ) → R.is_at reader.old text
        → HasMore R.is_at reader.new text count (rest_of slot (D.seen desk.old))) }
    ensures end { IfOk result (λ count. count ≡ 0 → ForSome (rest_of slot (D.seen desk.old))
        (λ rest. rest ≡ [])) }
    ensures err { OnErr result (SomeTaken slot (D.seen desk.old) (D.seen desk.new)) }
    ensures kind { R.kind reader.new ≡ R.kind reader.old }
    ensures limit { R.limit reader.new ≡ R.limit reader.old }
    ensures failed { IsErrOf result DeskFault.Failed →
        ReadingFailed D.counts D.steady slot desk.old desk.new }
    ensures own { CountsOnlyReading D.counts slot result desk.old desk.new }
    ensures counted { CountsFaults D.counts D.steady desk.old desk.new }
{
    let count = desk.read(slot, buffer)?;
    reader.feed(&buffer[..count])?;
    Ok(count)
}

/// Feeds the reader with an open input, to its end or to one byte past the limit on the text.
fn feed_input<D: Desk, R: TextReader>(
    alloc: Global,
    desk: &mut D,
    slot: InSlot,
    reader: &mut R,
) -> Result<(), DeskFault>
    requires is_open { IsTrue (input_is_open slot (D.seen desk.old)) }
    requires fresh { R.is_at reader.old [] }
    requires none { R.fed reader.old ≡ 0 }
    ensures ok { OnOk result (D.seen desk.new ≡ taken slot (R.limit reader.old + 1) (D.seen desk.old)) }
    ensures fed { OnOk result (IsFed R.is_at reader.new (R.limit reader.old + 1)
        (rest_of slot (D.seen desk.old))) }
    ensures err { OnErr result (SomeTaken slot (D.seen desk.old) (D.seen desk.new)) }
    ensures kind { R.kind reader.new ≡ R.kind reader.old }
    ensures limit { R.limit reader.new ≡ R.limit reader.old }
    ensures failed { IsErrOf result DeskFault.Failed →
        ReadingFailed D.counts D.steady slot desk.old desk.new }
    ensures own { CountsOnlyReading D.counts slot result desk.old desk.new }
    ensures counted { CountsFaults D.counts D.steady desk.old desk.new }
{
    let most = reader.limit() as usize + 1;
    let mut buffer = vec![in alloc; 0u8; PIECE.min(most)]?;
    let mut done = 0;
    while done < most {
        let wanted = PIECE.min(most - done);
        let count = feed_piece(desk, slot, &mut buffer[..wanted], reader)?;
        if count == 0 {
            break;
        }
        done += count;
    }
    Ok(())
}

/// Opens the file of this name, and feeds the reader with it; answers whether there is such a file.
fn fill<D: Desk, R: TextReader>(
    alloc: Global,
    desk: &mut D,
    slot: InSlot,
    name: &str,
    reader: &mut R,
) -> Result<bool, DeskFault>
    requires fresh { R.is_at reader.old [] }
    requires none { R.fed reader.old ≡ 0 }
    ensures ok { IfOk result (λ found. IsTrue found → FilledFrom R.is_at reader.new slot name.now
        (R.limit reader.old) (D.seen desk.old) (D.seen desk.new)) }
    ensures missing { IfOk result (λ found. IsFalse found → ForSome (files_of (D.seen desk.old))
        (λ files. get files name.now ≡ None)) }
    ensures only { OnlyReads (place slot - 1) (place slot) (D.seen desk.old) (D.seen desk.new) }
    ensures kind { R.kind reader.new ≡ R.kind reader.old }
    ensures limit { R.limit reader.new ≡ R.limit reader.old }
    ensures failed { IsErrOf result DeskFault.Failed →
        ReadingFailed D.counts D.steady slot desk.old desk.new }
    ensures own { CountsOnlyReading D.counts slot result desk.old desk.new }
    ensures counted { CountsFaults D.counts D.steady desk.old desk.new }
{
    match desk.open_input(slot, name) {
        Ok(true) => match feed_input(alloc, desk, slot, reader) {
            Ok(()) => Ok(true),
            Err(fault) => Err(fault),
        },
        Ok(false) => Ok(false),
        Err(fault) => Err(fault),
    }
}

/// The outcome without texts that has this status and report, where there was memory for the report.
fn early<S: RunStatus, T: OutputText>(
    alloc: Global,
    status: S,
    report: Result<Vec<u8>, AllocError>,
) -> Decision<S, T>
    ensures said { IfOk report (λ words. IsSaid status words.items result) }
    ensures wanting { IfErr report (λ _. result ≡ Decision.NoMemory) }
{
    match report {
        Ok(report) => Decision::Prepared(Prepared {
            status,
            report,
            texts: Vec::new(alloc),
        }),
        Err(AllocError) => Decision::NoMemory,
    }
}

/// Reads an input of a command, and answers what it says; or what it decides by itself, where it is missing,
/// refused, or cannot be read.
///
/// The reader is one that was fed nothing. No file is changed and nothing is said. A fault of reading is
/// decided as such, and want of memory as such; no call is tried again.
pub fn read_input<D: Desk, T: OutputText, R: TextReader>(
    alloc: Global,
    desk: &mut D,
    slot: InSlot,
    name: &str,
    reader: R,
) -> Result<R::Value, Decision<R::Status, T>>
    requires fresh { R.is_at reader [] }
    requires none { R.fed reader ≡ 0 }
    ensures ok { IfOk result (λ value. Had D.counts D.seen (R.kind reader)
        (record { slot = slot; name = name.now; limit = R.limit reader }) value desk.old desk.new) }
    ensures err { IfErr result (DecidesEarly D.counts D.steady D.seen T.text R.Status.faults
        (R.kind reader) (record { slot = slot; name = name.now; limit = R.limit reader })
        desk.old desk.new) }
    ensures counted { CountsFaults D.counts D.steady desk.old desk.new }
{
    let mut reader = reader;
    match fill(alloc, desk, slot, name, &mut reader) {
        Ok(true) => {}
        Ok(false) => {
            let report = report::no_input(alloc, slot);
            return Err(early(alloc, R::Status::no_input(), report));
        }
        Err(DeskFault::Failed) => return Err(Decision::Unread(slot)),
        Err(DeskFault::NoMemory) => return Err(Decision::NoMemory),
    }
    reader.cut();
    match reader.end() {
        Ok(value) => Ok(value),
        Err(TextFault::Refused(refusal)) => {
            let report = R::report(alloc, refusal);
            Err(early(alloc, R::status(), report))
        }
        Err(TextFault::NoMemory) => Err(Decision::NoMemory),
    }
}
