//! Reading an input into memory, up to a limit.
ghost use Rattle.std.specs.Prelude.{◌≡◌, ◌≤◌, ◌<◌, ◌+◌, ◌^◌, ◌++◌, [], length, take, vec_len, IsTrue, IfOk, OnOk, OnErr, IsErrOf};
ghost use Rattle.std.specs.Option.{ForSome};
ghost use Rattle.tdm_desk.specs.Seen.{input_is_open, rest_of, taken, SomeTaken};
ghost use Rattle.tdm_desk.specs.Counts.{CountsFaults, CountsOnlyReading, ReadingFailed};

use crate::calls::{Desk, DeskFault};
use crate::slots::InSlot;
use std::alloc::Global;

/// The most bytes that one read asks for.
const PIECE: usize = 65536;

/// Reads an open input to its end, or until `limit + 1` bytes were read, and answers these bytes.
///
/// So an answer of more than `limit` bytes shows that the input was longer than the limit. No byte
/// past these is asked for. After a fault the input has lost some first bytes of what it gave. The
/// slot stays open in each case.
pub fn load<D: Desk>(
    alloc: Global,
    desk: &mut D,
    slot: InSlot,
    limit: u64,
) -> Result<Vec<u8>, DeskFault>
    requires is_open { IsTrue (input_is_open slot (D.seen desk.old)) }
    requires limited { limit ≤ 2 ^ 30 }
    ensures within { IfOk result (λ bytes. vec_len bytes ≤ limit + 1) }
    ensures ok { OnOk result (D.seen desk.new ≡ taken slot (limit + 1) (D.seen desk.old)) }
    ensures bytes { IfOk result (λ bytes. ForSome (rest_of slot (D.seen desk.old))
        (λ rest. bytes.items ≡ take (limit + 1) rest)) }
    ensures err { OnErr result (SomeTaken slot (D.seen desk.old) (D.seen desk.new)) }
    ensures failed { IsErrOf result DeskFault.Failed →
        ReadingFailed D.counts D.steady slot desk.old desk.new }
    ensures own { CountsOnlyReading D.counts slot result desk.old desk.new }
    ensures counted { CountsFaults D.counts D.steady desk.old desk.new }
{
    let most = limit as usize + 1;
    let mut buffer = vec![in alloc; 0u8; PIECE.min(most)]?;
    let mut bytes = Vec::new(alloc);
    while bytes.len() < most {
        let wanted = PIECE.min(most - bytes.len());
        let count = load_piece(desk, slot, &mut buffer[..wanted], &mut bytes)?;
        if count == 0 {
            break;
        }
    }
    Ok(bytes)
}

/// Reads once, adds what was read to `bytes`, and answers how many bytes that was.
fn load_piece<D: Desk>(
    desk: &mut D,
    slot: InSlot,
    buffer: &mut [u8],
    bytes: &mut Vec<u8>,
) -> Result<usize, DeskFault>
    requires is_open { IsTrue (input_is_open slot (D.seen desk.old)) }
    requires has_room { 0 < length buffer.old }
    ensures within { IfOk result (λ count. count ≤ length buffer.old) }
    ensures more { IfOk result (λ count. vec_len bytes.new ≡ vec_len bytes.old + count) }
    ensures ok { IfOk result (λ count. D.seen desk.new ≡ taken slot count (D.seen desk.old)) }
    ensures bytes { IfOk result (λ count. ForSome (rest_of slot (D.seen desk.old))
        (λ rest. bytes.new.items ≡ bytes.old.items ++ take count rest)) }
    ensures end { IfOk result (λ count. count ≡ 0 → ForSome (rest_of slot (D.seen desk.old))
        (λ rest. rest ≡ [])) }
    ensures err { OnErr result (SomeTaken slot (D.seen desk.old) (D.seen desk.new)) }
    ensures failed { IsErrOf result DeskFault.Failed →
        ReadingFailed D.counts D.steady slot desk.old desk.new }
    ensures own { CountsOnlyReading D.counts slot result desk.old desk.new }
    ensures counted { CountsFaults D.counts D.steady desk.old desk.new }
{
    let count = desk.read(slot, buffer)?;
    bytes.extend_from_slice(&buffer[..count])?;
    Ok(count)
}
