//! `grace migrate RECORD`: rewrites a room's record in the current forms.

ghost use Rattle.std.specs.Prelude.{◌≡◌, IfErr, IfOk, string_bytes};
ghost use Rattle.commands.specs.steps.Statuses.{EndsEarly, IsOfResult, Tells, TellsPrefix};
ghost use Rattle.commands.specs.Migrations.{migrate_report, migrated_says};
ghost use Rattle.commands.specs.Reports.{OfReader, Reports};

use crate::reporting::{end_with, numbered_line, read_whole, write_line};
use command_fault::Fault;
use history_check::{Migrated, migrate};
use std::alloc::Global;
use std::io::{Read, Write};

/// The new text of a record, or the line for its first bad line.
fn migrated_text(alloc: Global, migrated: Migrated) -> Result<String, Fault>
    ensures ok { IfOk result (λ text. string_bytes text ≡ (migrated_says migrated).0) }
    ensures fault { IfErr result (λ fault. fault ≡ Fault.NoMemory) }
{
    let text = match migrated {
        Migrated::Text(text) => text,
        Migrated::BadRecord(number) => numbered_line(alloc, "bad record line ", number)?,
    };
    Ok(text)
}

/// The exit status after this result.
fn migrated_status(migrated: &Migrated) -> u8
    ensures status { result ≡ (migrated_says migrated.now).1 }
    ensures known { IsOfResult result }
{
    match migrated {
        Migrated::Text(_) => 0,
        Migrated::BadRecord(_) => 1,
    }
}

/// Rewrites the record of these bytes, writes its new text or a line, and returns the exit status.
fn migrate_bytes<W: Write>(alloc: Global, entries: &[u8], output: &mut W) -> Result<u8, Fault>
    ensures ok { IfOk result (λ status.
        Tells migrate_report (W.contents output.old) (W.contents output.new) status entries.now) }
    ensures status { IfOk result IsOfResult }
    ensures fault { IfErr result (EndsEarly
        (TellsPrefix migrate_report (W.contents output.old) (W.contents output.new) entries.now)
        (W.contents output.old) (W.contents output.new)) }
{
    let migrated = migrate(alloc, entries)?;
    let status = migrated_status(&migrated);
    let text = migrated_text(alloc, migrated)?;
    write_line(output, text.as_bytes())?;
    Ok(status)
}

/// The same for what a reader gives.
fn migrate_reader<R: Read, W: Write>(
    alloc: Global,
    input: &mut R,
    output: &mut W,
) -> Result<u8, Fault>
    ensures ok { IfOk result (λ status. OfReader (R.remaining input.old)
        (Tells migrate_report (W.contents output.old) (W.contents output.new) status)) }
    ensures status { IfOk result IsOfResult }
    ensures fault { IfErr result (EndsEarly
        (OfReader (R.remaining input.old)
        (TellsPrefix migrate_report (W.contents output.old) (W.contents output.new)))
        (W.contents output.old) (W.contents output.new)) }
{
    let entries = read_whole(alloc, input)?;
    migrate_bytes(alloc, entries.as_slice(), output)
}

/// Reads a room's record to its end and writes its entries in the current forms. Instead writes
/// `bad record line N` with the first bad line, as `check_over` does, if the record is not legal.
/// Flushes, and returns the exit status:
///
/// - 0 if the record is legal;
/// - 1 if it is not;
/// - 3 if input or output failed, or if the record has more than 1,073,741,824 bytes;
/// - 4 if an allocation failed.
///
/// Before 3 and 4 it writes a line to `errors`.
///
/// The clauses assume a writer that reports what it holds, and state what those of `check_over` do.
pub fn migrate_over<R: Read, W: Write, E: Write>(
    alloc: Global,
    input: &mut R,
    output: &mut W,
    errors: &mut E,
) -> u8
    ensures { Reports migrate_report (OfReader (R.remaining input.old))
        (W.contents output.old) (W.contents output.new) result }
{
    end_with(migrate_reader(alloc, input, output), errors)
}
