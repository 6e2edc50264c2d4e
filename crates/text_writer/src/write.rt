//! Adding pieces and numbers to a text on its way to a desk.
#![tactic(auto, using(tdm_desk::proofs::SeenLaws::after_calls, tdm_desk::proofs::CountLaws::counting_faults))]

ghost use Rattle.std.specs.Prelude.{◌≡◌, ◌<◌, ◌≤◌, [], ◌++◌, length, IsTrue, OnOk, OnErr, IsErrOf};
ghost use Rattle.tdm_desk.specs.Seen.{output_is_open, written, PrefixWritten};
ghost use Rattle.tdm_desk.specs.Counts.{CountsFaults, CountsOnlyWriting, WritingFailed};
ghost use Rattle.tdm_lines.specs.Written.{line_text};
ghost use Rattle.text_writer.specs.Writing.{number_then, numbers_then, Adds};

use crate::pending::{Pending, ROOM};
use tdm_desk::{Desk, DeskFault, OutSlot, write_whole};
use tdm_lines::decimal;

/// Writes what is pending to the file of an open output, so that nothing is pending.
///
/// After a fault a prefix of it was written, nothing is pending, and the slot stays open.
pub fn flush<D: Desk>(desk: &mut D, slot: OutSlot, pending: &mut Pending) -> Result<(), DeskFault>
    requires { IsTrue (output_is_open slot (D.seen desk.old)) }
    ensures adds { Adds D.seen D.counts D.steady slot [] pending.old desk.old pending.new desk.new result }
    ensures emptied { pending.new ≡ [] }
{
    let written = write_whole(desk, slot, pending.as_slice());
    pending.clear();
    written
}

/// Adds a piece to the text. Where there is no room for it, what is pending is written first.
fn put<D: Desk>(
    desk: &mut D,
    slot: OutSlot,
    pending: &mut Pending,
    piece: &[u8],
) -> Result<(), DeskFault>
    requires open { IsTrue (output_is_open slot (D.seen desk.old)) }
    requires short { length piece.now ≤ ROOM }
    ensures { Adds D.seen D.counts D.steady slot piece.now
        pending.old desk.old pending.new desk.new result }
{
    if pending.room() < piece.len() {
        flush(desk, slot, pending)?;
    }
    pending.extend(piece);
    Ok(())
}

/// Adds a number to the text, and the byte behind it.
///
/// After a fault a prefix of what was pending and of these was written, nothing is pending, and the slot
/// stays open.
pub fn put_number<D: Desk>(
    desk: &mut D,
    slot: OutSlot,
    pending: &mut Pending,
    number: u64,
    end: u8,
) -> Result<(), DeskFault>
    requires { IsTrue (output_is_open slot (D.seen desk.old)) }
    ensures { Adds D.seen D.counts D.steady slot (number_then number end)
        pending.old desk.old pending.new desk.new result }
{
    put(desk, slot, pending, decimal(number as u128).as_bytes())?;
    put(desk, slot, pending, &[end])?;
    Ok(())
}

/// Adds each number to the text, and behind each the same byte.
///
/// After a fault a prefix of what was pending and of these was written, nothing is pending, and the slot
/// stays open.
pub fn put_numbers<D: Desk>(
    desk: &mut D,
    slot: OutSlot,
    pending: &mut Pending,
    numbers: &[u64],
    end: u8,
) -> Result<(), DeskFault>
    requires { IsTrue (output_is_open slot (D.seen desk.old)) }
    ensures { Adds D.seen D.counts D.steady slot (numbers_then end numbers.now)
        pending.old desk.old pending.new desk.new result }
{
    for number in numbers {
        put_number(desk, slot, pending, *number, end)?;
    }
    Ok(())
}

/// Adds a line to the text, of one number or more, with single spaces between them.
///
/// After a fault a prefix of what was pending and of the line was written, nothing is pending, and the slot
/// stays open.
pub fn put_line<D: Desk>(
    desk: &mut D,
    slot: OutSlot,
    pending: &mut Pending,
    numbers: &[u64],
) -> Result<(), DeskFault>
    requires open { IsTrue (output_is_open slot (D.seen desk.old)) }
    requires some { 0 < length numbers.now }
    ensures { Adds D.seen D.counts D.steady slot (line_text numbers.now)
        pending.old desk.old pending.new desk.new result }
{
    let last = numbers.len() - 1;
    put_numbers(desk, slot, pending, &numbers[..last], b' ')?;
    put_number(desk, slot, pending, numbers[last], b'\n')?;
    Ok(())
}
