//! `grace renew RECORD`: prints a short record that draws what a room's record draws.

ghost use Rattle.std.specs.Prelude.{◌≡◌, IfErr, IfOk, string_bytes};
ghost use Rattle.commands.specs.steps.Statuses.{EndsEarly, IsOfResult, Tells, TellsPrefix};
ghost use Rattle.commands.specs.Renewals.{renew_report, renewed_says};
ghost use Rattle.commands.specs.Reports.{OfReader, Reports};

use crate::reporting::{end_with, numbered_line, read_whole, write_line};
use command_fault::Fault;
use renewal_text::{RenewedText, renew};
use std::alloc::Global;
use std::io::{Read, Write};

/// The new record, or a line.
fn renewed_text(alloc: Global, renewed: RenewedText) -> Result<String, Fault>
    ensures ok { IfOk result (λ text. string_bytes text ≡ (renewed_says renewed).0) }
    ensures fault { IfErr result (λ fault. fault ≡ Fault.NoMemory) }
{
    let text = match renewed {
        RenewedText::Text(text) => text,
        RenewedText::BadRecord(number) => numbered_line(alloc, "bad record line ", number)?,
        RenewedText::Declined(_reason) => "cannot renew\n".to_string(alloc)?,
    };
    Ok(text)
}

/// The exit status after this result.
fn renewed_status(renewed: &RenewedText) -> u8
    ensures status { result ≡ (renewed_says renewed.now).1 }
    ensures known { IsOfResult result }
{
    match renewed {
        RenewedText::Text(_) => 0,
        RenewedText::BadRecord(_) | RenewedText::Declined(_) => 1,
    }
}

/// Renews the record of these bytes, writes the new one or a line, and returns the exit status.
fn renew_bytes<W: Write>(alloc: Global, entries: &[u8], output: &mut W) -> Result<u8, Fault>
    ensures ok { IfOk result (λ status.
        Tells renew_report (W.contents output.old) (W.contents output.new) status entries.now) }
    ensures status { IfOk result IsOfResult }
    ensures fault { IfErr result (EndsEarly
        (TellsPrefix renew_report (W.contents output.old) (W.contents output.new) entries.now)
        (W.contents output.old) (W.contents output.new)) }
{
    let renewed = renew(alloc, entries)?;
    let status = renewed_status(&renewed);
    let text = renewed_text(alloc, renewed)?;
    write_line(output, text.as_bytes())?;
    Ok(status)
}

/// The same for what a reader gives.
fn renew_reader<R: Read, W: Write>(
    alloc: Global,
    input: &mut R,
    output: &mut W,
) -> Result<u8, Fault>
    ensures ok { IfOk result (λ status. OfReader (R.remaining input.old)
        (Tells renew_report (W.contents output.old) (W.contents output.new) status)) }
    ensures status { IfOk result IsOfResult }
    ensures fault { IfErr result (EndsEarly
        (OfReader (R.remaining input.old)
        (TellsPrefix renew_report (W.contents output.old) (W.contents output.new)))
        (W.contents output.old) (W.contents output.new)) }
{
    let entries = read_whole(alloc, input)?;
    renew_bytes(alloc, entries.as_slice(), output)
}

/// Reads a room's record to its end and writes a renewed one: a legal record that draws the same,
/// with no more entries. Instead writes `bad record line N` with the first bad line, as
/// `check_over` does, if the record is not legal, and `cannot renew` if no renewed one was found.
/// Flushes, and returns the exit status:
///
/// - 0 if the record was renewed;
/// - 1 if it is not legal, or cannot be renewed;
/// - 3 if input or output failed, or if the record has more than 1,073,741,824 bytes;
/// - 4 if an allocation failed.
///
/// Before 3 and 4 it writes a line to `errors`.
///
/// The clauses assume a writer that reports what it holds, and state what those of `check_over` do.
pub fn renew_over<R: Read, W: Write, E: Write>(
    alloc: Global,
    input: &mut R,
    output: &mut W,
    errors: &mut E,
) -> u8
    ensures { Reports renew_report (OfReader (R.remaining input.old))
        (W.contents output.old) (W.contents output.new) result }
{
    end_with(renew_reader(alloc, input, output), errors)
}
