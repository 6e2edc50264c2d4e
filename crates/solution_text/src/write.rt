//! Writing the text of a solution.
#![tactic(auto, using(tdm_desk::proofs::SeenLaws::after_calls, tdm_desk::proofs::CountLaws::counting_faults))]

ghost use Rattle.std.specs.Prelude.{◌≡◌, ◌≤◌, [], ◌∷◌, ◌++◌, length, IsTrue, OnOk, OnErr, IsErrOf};
ghost use Rattle.std.specs.List.{flat_map};
ghost use Rattle.tdm_desk.specs.Seen.{output_is_open, written, PrefixWritten};
ghost use Rattle.tdm_desk.specs.Counts.{CountsFaults, CountsOnlyWriting, WritingFailed};
ghost use Rattle.solution_text.specs.Text.{use_line, net_text, solution_text};
ghost use Rattle.text_writer.specs.Writing.{Adds};

use tdm_desk::{Desk, DeskFault, OutSlot};
use tdm_problem::{Solution, WireUse};
use text_writer::{Pending, flush, put_line, put_number};

/// Adds the text of a solution to the file of an open output: for each net, in order, a line with the
/// number of its uses, and then for each use a line with the wire and the ratio. Without nets the text
/// is empty.
///
/// It takes no memory of its own. After a fault a prefix of the text was added, and the slot stays open.
pub fn write_solution<D: Desk>(
    desk: &mut D,
    slot: OutSlot,
    solution: &Solution,
) -> Result<(), DeskFault>
    requires { IsTrue (output_is_open slot (D.seen desk.old)) }
    ensures ok { OnOk result (D.seen desk.new ≡ written slot (solution_text solution.now)
        (D.seen desk.old)) }
    ensures err { OnErr result (PrefixWritten slot (solution_text solution.now)
        (D.seen desk.old) (D.seen desk.new)) }
    ensures failed { IsErrOf result DeskFault.Failed →
        WritingFailed D.counts D.steady desk.old desk.new }
    ensures own { CountsOnlyWriting D.counts result desk.old desk.new }
    ensures counted { CountsFaults D.counts D.steady desk.old desk.new }
{
    let mut pending = Pending::new();
    put_nets(desk, slot, &mut pending, solution)?;
    flush(desk, slot, &mut pending)?;
    Ok(())
}

/// Adds the line of a use to the text.
fn put_use<D: Desk>(
    desk: &mut D,
    slot: OutSlot,
    pending: &mut Pending,
    used: WireUse,
) -> Result<(), DeskFault>
    requires { IsTrue (output_is_open slot (D.seen desk.old)) }
    ensures { Adds D.seen D.counts D.steady slot (use_line used)
        pending.old desk.old pending.new desk.new result }
{
    put_line(desk, slot, pending, &[used.wire as u64, used.ratio as u64])?;
    Ok(())
}

/// Adds the lines of uses to the text.
fn put_uses<D: Desk>(
    desk: &mut D,
    slot: OutSlot,
    pending: &mut Pending,
    uses: &[WireUse],
) -> Result<(), DeskFault>
    requires { IsTrue (output_is_open slot (D.seen desk.old)) }
    ensures { Adds D.seen D.counts D.steady slot (flat_map use_line uses.now)
        pending.old desk.old pending.new desk.new result }
{
    for used in uses {
        put_use(desk, slot, pending, *used)?;
    }
    Ok(())
}

/// Adds the lines of a net to the text.
fn put_net<D: Desk>(
    desk: &mut D,
    slot: OutSlot,
    pending: &mut Pending,
    uses: &[WireUse],
) -> Result<(), DeskFault>
    requires { IsTrue (output_is_open slot (D.seen desk.old)) }
    ensures { Adds D.seen D.counts D.steady slot (net_text uses.now)
        pending.old desk.old pending.new desk.new result }
{
    put_number(desk, slot, pending, uses.len() as u64, b'\n')?;
    put_uses(desk, slot, pending, uses)?;
    Ok(())
}

/// Adds the lines of all nets to the text.
fn put_nets<D: Desk>(
    desk: &mut D,
    slot: OutSlot,
    pending: &mut Pending,
    solution: &Solution,
) -> Result<(), DeskFault>
    requires { IsTrue (output_is_open slot (D.seen desk.old)) }
    ensures { Adds D.seen D.counts D.steady slot (solution_text solution.now)
        pending.old desk.old pending.new desk.new result }
{
    for net in 0..solution.nets() {
        put_net(desk, slot, pending, solution.uses(net))?;
    }
    Ok(())
}
