//! The end of a run: what was decided is put out.
ghost use Rattle.std.specs.Prelude.{[], map, string_bytes};
ghost use Rattle.command_run.specs.Slots.{place};
ghost use Rattle.command_run.specs.Reports.{read_fault_report};
ghost use Rattle.command_run.specs.Outputs.{PutsOut};
ghost use Rattle.command_run.specs.Concluded.{HasRoom, Concludes};

use crate::outcome::Decision;
use crate::report;
use crate::status::RunStatus;
use crate::text::OutputText;
use crate::writing::put_out;
use std::alloc::Global;
use tdm_desk::{Desk, InSlot};

/// Says that this input could not be read.
fn conclude_unread<D: Desk, S: RunStatus, T: OutputText>(
    alloc: Global,
    desk: &mut D,
    slot: InSlot,
    outputs: &[String],
) -> S
    ensures { PutsOut D.counts D.steady D.seen S.faults (map string_bytes outputs.now) []
        (read_fault_report (place slot)) S.faults.read_fault desk.old desk.new result }
{
    let none: Vec<T> = Vec::new(alloc);
    put_out(
        desk,
        outputs,
        none.as_slice(),
        report::read_fault(slot),
        S::read_fault(),
    )
}

/// Puts out what was decided: writes its texts to the outputs of these names in order, says its report, and
/// answers its status; or says that an input could not be read.
///
/// A fault of writing or saying, or want of memory, is answered in place of the status, and nothing is done
/// after it. First parts of the texts may be written then, or all of them and some of the report said, but
/// not all.
pub fn conclude<D: Desk, S: RunStatus, T: OutputText>(
    alloc: Global,
    desk: &mut D,
    decision: Decision<S, T>,
    outputs: &[String],
) -> S
    requires { HasRoom (map string_bytes outputs.now) decision }
    ensures { Concludes D.counts D.steady D.seen T.text S.faults (map string_bytes outputs.now)
        desk.old desk.new result decision }
{
    match decision {
        Decision::Prepared(prepared) => put_out(
            desk,
            outputs,
            prepared.texts.as_slice(),
            prepared.report.as_slice(),
            prepared.status,
        ),
        Decision::Unread(slot) => conclude_unread::<D, S, T>(alloc, desk, slot, outputs),
        Decision::NoMemory => S::out_of_memory(),
    }
}
