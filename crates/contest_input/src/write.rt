//! Writing the text of a board.
#![tactic(auto, using(tdm_desk::proofs::SeenLaws::after_calls, tdm_desk::proofs::CountLaws::counting_faults))]

ghost use Rattle.std.specs.Prelude.{◌≡◌, ◌<◌, ◌++◌, length, IsTrue, OnOk, OnErr, IsErrOf};
ghost use Rattle.std.specs.List.{flat_map};
ghost use Rattle.tdm_desk.specs.Seen.{output_is_open, written, PrefixWritten};
ghost use Rattle.tdm_desk.specs.Counts.{CountsFaults, CountsOnlyWriting, WritingFailed};
ghost use Rattle.tdm_lines.specs.Written.{line_text};
ghost use Rattle.text_writer.specs.Writing.{numbers_then, Adds};
ghost use Rattle.contest_input.specs.Canonical.{header_row, wire_line, board_text};

use tdm_desk::{Desk, DeskFault, OutSlot};
use tdm_problem::{Problem, Wire};
use text_writer::{Pending, flush, put_line, put_number};

/// Adds the text of a board to the file of an open output: a header with the numbers of FPGAs, wires, nets
/// and groups, then a line for each wire with its two FPGAs, for each net with its FPGAs, and for each group
/// with its nets. Numbers are decimal without leading zeros, with one space between them.
/// [`read_board`](crate::read_board) reads the same board from the text.
///
/// It takes no memory of its own. After a fault a prefix of the text was added, and the slot stays open.
pub fn write_board<D: Desk>(desk: &mut D, slot: OutSlot, problem: &Problem) -> Result<(), DeskFault>
    requires { IsTrue (output_is_open slot (D.seen desk.old)) }
    ensures ok { OnOk result (D.seen desk.new ≡ written slot (board_text problem.now)
        (D.seen desk.old)) }
    ensures err { OnErr result (PrefixWritten slot (board_text problem.now)
        (D.seen desk.old) (D.seen desk.new)) }
    ensures failed { IsErrOf result DeskFault.Failed →
        WritingFailed D.counts D.steady desk.old desk.new }
    ensures own { CountsOnlyWriting D.counts result desk.old desk.new }
    ensures counted { CountsFaults D.counts D.steady desk.old desk.new }
{
    let mut pending = Pending::new();
    put_board(desk, slot, &mut pending, problem)?;
    flush(desk, slot, &mut pending)?;
    Ok(())
}

/// Adds all lines to the text.
fn put_board<D: Desk>(
    desk: &mut D,
    slot: OutSlot,
    pending: &mut Pending,
    problem: &Problem,
) -> Result<(), DeskFault>
    requires { IsTrue (output_is_open slot (D.seen desk.old)) }
    ensures { Adds D.seen D.counts D.steady slot (board_text problem.now)
        pending.old desk.old pending.new desk.new result }
{
    put_header(desk, slot, pending, problem)?;
    put_wires(desk, slot, pending, problem)?;
    put_nets(desk, slot, pending, problem)?;
    put_groups(desk, slot, pending, problem)?;
    Ok(())
}

/// Adds the header to the text.
fn put_header<D: Desk>(
    desk: &mut D,
    slot: OutSlot,
    pending: &mut Pending,
    problem: &Problem,
) -> Result<(), DeskFault>
    requires { IsTrue (output_is_open slot (D.seen desk.old)) }
    ensures { Adds D.seen D.counts D.steady slot (line_text (header_row problem.now))
        pending.old desk.old pending.new desk.new result }
{
    let row = [
        problem.fpgas() as u64,
        problem.wires() as u64,
        problem.nets() as u64,
        problem.groups() as u64,
    ];
    put_line(desk, slot, pending, &row)?;
    Ok(())
}

/// Adds the line of a wire to the text.
fn put_wire<D: Desk>(
    desk: &mut D,
    slot: OutSlot,
    pending: &mut Pending,
    wire: Wire,
) -> Result<(), DeskFault>
    requires { IsTrue (output_is_open slot (D.seen desk.old)) }
    ensures { Adds D.seen D.counts D.steady slot (wire_line wire)
        pending.old desk.old pending.new desk.new result }
{
    put_line(desk, slot, pending, &[wire.a as u64, wire.b as u64])?;
    Ok(())
}

/// Adds a line for each wire to the text.
fn put_wires<D: Desk>(
    desk: &mut D,
    slot: OutSlot,
    pending: &mut Pending,
    problem: &Problem,
) -> Result<(), DeskFault>
    requires { IsTrue (output_is_open slot (D.seen desk.old)) }
    ensures { Adds D.seen D.counts D.steady slot (flat_map wire_line problem.now.wires)
        pending.old desk.old pending.new desk.new result }
{
    for e in 0..problem.wires() {
        put_wire(desk, slot, pending, problem.wire(e))?;
    }
    Ok(())
}

/// Adds a line for each net to the text.
fn put_nets<D: Desk>(
    desk: &mut D,
    slot: OutSlot,
    pending: &mut Pending,
    problem: &Problem,
) -> Result<(), DeskFault>
    requires { IsTrue (output_is_open slot (D.seen desk.old)) }
    ensures { Adds D.seen D.counts D.steady slot (flat_map line_text problem.now.nets)
        pending.old desk.old pending.new desk.new result }
{
    for n in 0..problem.nets() {
        put_row(desk, slot, pending, problem.net(n))?;
    }
    Ok(())
}

/// Adds a line for each group to the text.
fn put_groups<D: Desk>(
    desk: &mut D,
    slot: OutSlot,
    pending: &mut Pending,
    problem: &Problem,
) -> Result<(), DeskFault>
    requires { IsTrue (output_is_open slot (D.seen desk.old)) }
    ensures { Adds D.seen D.counts D.steady slot (flat_map line_text problem.now.groups)
        pending.old desk.old pending.new desk.new result }
{
    for g in 0..problem.groups() {
        put_row(desk, slot, pending, problem.group(g))?;
    }
    Ok(())
}

/// Adds a line of these numbers to the text, of one or more.
fn put_row<D: Desk>(
    desk: &mut D,
    slot: OutSlot,
    pending: &mut Pending,
    numbers: &[u32],
) -> Result<(), DeskFault>
    requires open { IsTrue (output_is_open slot (D.seen desk.old)) }
    requires some { 0 < length numbers.now }
    ensures { Adds D.seen D.counts D.steady slot (line_text numbers.now)
        pending.old desk.old pending.new desk.new result }
{
    let last = numbers.len() - 1;
    put_numbers(desk, slot, pending, &numbers[..last])?;
    put_number(desk, slot, pending, numbers[last] as u64, b'\n')?;
    Ok(())
}

/// Adds each number to the text, and a space behind it.
fn put_numbers<D: Desk>(
    desk: &mut D,
    slot: OutSlot,
    pending: &mut Pending,
    numbers: &[u32],
) -> Result<(), DeskFault>
    requires { IsTrue (output_is_open slot (D.seen desk.old)) }
    ensures { Adds D.seen D.counts D.steady slot (numbers_then 32 numbers.now)
        pending.old desk.old pending.new desk.new result }
{
    for number in numbers {
        put_number(desk, slot, pending, *number as u64, b' ')?;
    }
    Ok(())
}
