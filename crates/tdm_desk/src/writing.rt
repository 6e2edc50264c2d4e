//! Writing and saying a whole piece, however small the steps that a desk takes.
ghost use Rattle.std.specs.Prelude.{◌≡◌, IsTrue, OnOk, OnErr, IsErrOf};
ghost use Rattle.tdm_desk.specs.Seen.{output_is_open, written, said, PrefixWritten, PrefixSaid};
ghost use Rattle.tdm_desk.specs.Counts.{CountsFaults, CountsOnlyWriting, WritingFailed};

use crate::calls::{Desk, DeskFault};
use crate::slots::OutSlot;

/// Adds all of `piece` to the file of an open output. An empty piece makes no call of the desk.
///
/// After a fault a prefix of the piece was added, and the slot stays open.
pub fn write_whole<D: Desk>(desk: &mut D, slot: OutSlot, piece: &[u8]) -> Result<(), DeskFault>
    requires { IsTrue (output_is_open slot (D.seen desk.old)) }
    ensures ok { OnOk result (D.seen desk.new ≡ written slot piece.now (D.seen desk.old)) }
    ensures err { OnErr result (PrefixWritten slot piece.now (D.seen desk.old) (D.seen desk.new)) }
    ensures failed { IsErrOf result DeskFault.Failed →
        WritingFailed D.counts D.steady desk.old desk.new }
    ensures own { CountsOnlyWriting D.counts result desk.old desk.new }
    ensures counted { CountsFaults D.counts D.steady desk.old desk.new }
{
    let mut done = 0;
    while done < piece.len() {
        done += desk.write(slot, &piece[done..])?;
    }
    Ok(())
}

/// Says all of `piece` to the user. An empty piece makes no call of the desk.
///
/// After a fault a prefix of the piece was said, and not all of it.
pub fn say_whole<D: Desk>(desk: &mut D, piece: &[u8]) -> Result<(), DeskFault>
    ensures ok { OnOk result (D.seen desk.new ≡ said piece.now (D.seen desk.old)) }
    ensures err { OnErr result (PrefixSaid piece.now (D.seen desk.old) (D.seen desk.new)) }
    ensures failed { IsErrOf result DeskFault.Failed →
        WritingFailed D.counts D.steady desk.old desk.new }
    ensures own { CountsOnlyWriting D.counts result desk.old desk.new }
    ensures counted { CountsFaults D.counts D.steady desk.old desk.new }
{
    let mut done = 0;
    while done < piece.len() {
        done += desk.say(&piece[done..])?;
    }
    Ok(())
}
