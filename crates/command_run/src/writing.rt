//! Writing the outputs in order, and saying the report behind them.
ghost use Rattle.std.specs.Prelude.{◌≡◌, ◌≤◌, ◌<◌, ◌+◌, ◌-◌, [], ◌∷◌, length, map, string_bytes, IsFalse, OnOk, OnErr, IsErrOf};
ghost use Rattle.tdm_desk.specs.Seen.{output_is_open};
ghost use Rattle.tdm_desk.specs.Counts.{CountsFaults, CountsOnlyWriting, WritingFailed};
ghost use Rattle.command_run.specs.Slots.{out_place, OnlyWrites, AreClosedFrom};
ghost use Rattle.command_run.specs.Outputs.{Leaves, LeavesBegun, PutsOut};

use crate::status::RunStatus;
use crate::text::OutputText;
use tdm_desk::{Desk, DeskFault, OutSlot, say_whole};

/// The output at this place, counted from 0.
fn output(place: usize) -> OutSlot
    requires { place < 3 }
    ensures { out_place result ≡ place + 1 }
{
    match place {
        0 => OutSlot::Out0,
        1 => OutSlot::Out1,
        _ => OutSlot::Out2,
    }
}

/// Makes the file of this name hold the text. After a fault it is as it was, or holds a first part of the
/// text.
fn write_file<D: Desk, T: OutputText>(
    desk: &mut D,
    slot: OutSlot,
    name: &str,
    text: &T,
) -> Result<(), DeskFault>
    ensures ok { OnOk result (Leaves (D.seen desk.old) (D.seen desk.new) (name.now ∷ [])
        (T.text text.now ∷ []) []) }
    ensures err { OnErr result (LeavesBegun (D.seen desk.old) (D.seen desk.new) (name.now ∷ [])
        (T.text text.now ∷ [])) }
    ensures only { OnlyWrites (out_place slot - 1) (out_place slot) (D.seen desk.old) (D.seen desk.new) }
    ensures closed { OnOk result (IsFalse (output_is_open slot (D.seen desk.new))) }
    ensures failed { IsErrOf result DeskFault.Failed →
        WritingFailed D.counts D.steady desk.old desk.new }
    ensures own { CountsOnlyWriting D.counts result desk.old desk.new }
    ensures counted { CountsFaults D.counts D.steady desk.old desk.new }
{
    if let Err(fault) = desk.create(slot, name) {
        return Err(fault);
    }
    if let Err(fault) = text.write(desk, slot) {
        return Err(fault);
    }
    desk.finish(slot)
}

/// Writes the texts to the files of these names in order, to the outputs behind the first so many.
///
/// After a fault the texts before some are written whole, the file of that one is as it was or holds a first
/// part of its text, and the others are as they were.
fn write_files<D: Desk, T: OutputText>(
    desk: &mut D,
    done: usize,
    names: &[String],
    texts: &[T],
) -> Result<(), DeskFault>
    requires places { done + length texts.now ≤ 3 }
    requires named { length texts.now ≤ length names.now }
    ensures ok { OnOk result (Leaves (D.seen desk.old) (D.seen desk.new)
        (map string_bytes names.now) (map T.text texts.now) []) }
    ensures err { OnErr result (LeavesBegun (D.seen desk.old) (D.seen desk.new)
        (map string_bytes names.now) (map T.text texts.now)) }
    ensures only { OnlyWrites done (done + length texts.now) (D.seen desk.old) (D.seen desk.new) }
    ensures closed { OnOk result (AreClosedFrom done (done + length texts.now) (D.seen desk.new)) }
    ensures failed { IsErrOf result DeskFault.Failed →
        WritingFailed D.counts D.steady desk.old desk.new }
    ensures own { CountsOnlyWriting D.counts result desk.old desk.new }
    ensures counted { CountsFaults D.counts D.steady desk.old desk.new }
{
    if texts.is_empty() {
        return Ok(());
    }
    if let Err(fault) = write_file(desk, output(done), names[0].as_str(), &texts[0]) {
        return Err(fault);
    }
    write_files(desk, done + 1, &names[1..], &texts[1..])
}

/// Writes the texts to the files of these names in order, then says the report, and answers the status, or
/// how that failed.
pub(crate) fn put_out<D: Desk, S: RunStatus, T: OutputText>(
    desk: &mut D,
    names: &[String],
    texts: &[T],
    report: &[u8],
    status: S,
) -> S
    requires places { length texts.now ≤ 3 }
    requires named { length texts.now ≤ length names.now }
    ensures { PutsOut D.counts D.steady D.seen S.faults (map string_bytes names.now) (map T.text texts.now)
        report.now status desk.old desk.new result }
{
    match write_files(desk, 0, names, texts) {
        Ok(()) => match say_whole(desk, report) {
            Ok(()) => status,
            Err(DeskFault::Failed) => S::write_fault(),
            Err(DeskFault::NoMemory) => S::out_of_memory(),
        },
        Err(DeskFault::Failed) => S::write_fault(),
        Err(DeskFault::NoMemory) => S::out_of_memory(),
    }
}
