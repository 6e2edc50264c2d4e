//! Writing the text of a certificate.
#![tactic(auto, using(tdm_desk::proofs::SeenLaws::after_calls, tdm_desk::proofs::CountLaws::counting_faults))]

ghost use Rattle.std.specs.Prelude.{◌≡◌, ◌++◌, IsTrue, OnOk, OnErr, IsErrOf};
ghost use Rattle.std.specs.List.{flat_map};
ghost use Rattle.tdm_desk.specs.Seen.{output_is_open, written, PrefixWritten};
ghost use Rattle.tdm_desk.specs.Counts.{CountsFaults, CountsOnlyWriting, WritingFailed};
ghost use Rattle.tdm_lines.specs.Written.{line_text};
ghost use Rattle.text_writer.specs.Writing.{Adds};
ghost use Rattle.bound_cert.specs.CertText.{version_of, number_of_kind, unit_of_kind, header_row, number_line, cert_text};

use crate::certificate::{CertKind, Certificate};
use tdm_desk::{Desk, DeskFault, OutSlot};
use text_writer::{Pending, flush, put_line, put_number, put_numbers};

/// Adds the text of a certificate to the file of an open output: a header of the version, the kind, its unit
/// and the number of potentials, then a line for each weight, for each length unless the certificate is by
/// hops, for each potential and for each choice of a net unless nets grow.
///
/// It takes no memory of its own. After a fault a prefix of the text was added, and the slot stays open.
pub fn write_cert<D: Desk>(desk: &mut D, slot: OutSlot, cert: &Certificate) -> Result<(), DeskFault>
    requires { IsTrue (output_is_open slot (D.seen desk.old)) }
    ensures ok { OnOk result (D.seen desk.new ≡ written slot (cert_text cert.now)
        (D.seen desk.old)) }
    ensures err { OnErr result (PrefixWritten slot (cert_text cert.now)
        (D.seen desk.old) (D.seen desk.new)) }
    ensures failed { IsErrOf result DeskFault.Failed →
        WritingFailed D.counts D.steady desk.old desk.new }
    ensures own { CountsOnlyWriting D.counts result desk.old desk.new }
    ensures counted { CountsFaults D.counts D.steady desk.old desk.new }
{
    let mut pending = Pending::new();
    put_cert(desk, slot, &mut pending, cert)?;
    flush(desk, slot, &mut pending)?;
    Ok(())
}

/// Adds all lines to the text.
fn put_cert<D: Desk>(
    desk: &mut D,
    slot: OutSlot,
    pending: &mut Pending,
    cert: &Certificate,
) -> Result<(), DeskFault>
    requires { IsTrue (output_is_open slot (D.seen desk.old)) }
    ensures { Adds D.seen D.counts D.steady slot (cert_text cert.now)
        pending.old desk.old pending.new desk.new result }
{
    put_header(desk, slot, pending, cert)?;
    put_numbers(desk, slot, pending, cert.weights(), b'\n')?;
    put_numbers(desk, slot, pending, cert.listed_lengths(), b'\n')?;
    put_potentials(desk, slot, pending, cert)?;
    put_choices(desk, slot, pending, cert.listed_choices())?;
    Ok(())
}

/// The version: 4 where the spread of a net is its growth, and else 1.
fn version_of(grows: bool) -> u64
    ensures { result ≡ version_of grows }
{
    if grows { 4 } else { 1 }
}

/// The number of a kind.
fn number_of_kind(kind: CertKind) -> u64
    ensures { result ≡ number_of_kind kind }
{
    match kind {
        CertKind::Share => 1,
        CertKind::Hop { .. } => 2,
    }
}

/// The unit of a kind, 0 for the one that has none.
fn unit_of_kind(kind: CertKind) -> u64
    ensures { result ≡ unit_of_kind kind }
{
    match kind {
        CertKind::Share => 0,
        CertKind::Hop { unit } => unit,
    }
}

/// Adds the header to the text.
fn put_header<D: Desk>(
    desk: &mut D,
    slot: OutSlot,
    pending: &mut Pending,
    cert: &Certificate,
) -> Result<(), DeskFault>
    requires { IsTrue (output_is_open slot (D.seen desk.old)) }
    ensures { Adds D.seen D.counts D.steady slot (line_text (header_row cert.now))
        pending.old desk.old pending.new desk.new result }
{
    let kind = cert.kind();
    let row = [
        version_of(cert.grows()),
        number_of_kind(kind),
        unit_of_kind(kind),
        cert.potentials() as u64,
    ];
    put_line(desk, slot, pending, &row)?;
    Ok(())
}

/// Adds a line for each potential to the text.
fn put_potentials<D: Desk>(
    desk: &mut D,
    slot: OutSlot,
    pending: &mut Pending,
    cert: &Certificate,
) -> Result<(), DeskFault>
    requires { IsTrue (output_is_open slot (D.seen desk.old)) }
    ensures { Adds D.seen D.counts D.steady slot (flat_map line_text cert.now.potentials)
        pending.old desk.old pending.new desk.new result }
{
    for p in 0..cert.potentials() {
        put_line(desk, slot, pending, cert.potential(p))?;
    }
    Ok(())
}

/// Adds a line for each choice to the text.
fn put_choices<D: Desk>(
    desk: &mut D,
    slot: OutSlot,
    pending: &mut Pending,
    choices: &[u32],
) -> Result<(), DeskFault>
    requires { IsTrue (output_is_open slot (D.seen desk.old)) }
    ensures { Adds D.seen D.counts D.steady slot (flat_map number_line choices.now)
        pending.old desk.old pending.new desk.new result }
{
    for choice in choices {
        put_number(desk, slot, pending, *choice as u64, b'\n')?;
    }
    Ok(())
}
