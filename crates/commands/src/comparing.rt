//! `grace renewed OLD NEW`: compares what two records draw.

ghost use Rattle.std.specs.Prelude.{◌≡◌, IfErr, IfOk, string_bytes};
ghost use Rattle.commands.specs.steps.Statuses.{EndsEarly, IsOfResult, Tells, TellsPrefix};
ghost use Rattle.commands.specs.Renewals.{comparison_says, renewed_report};
ghost use Rattle.commands.specs.Reports.{OfReaders, Reports};

use crate::reporting::{end_with, numbered_line, read_whole, write_line};
use command_fault::Fault;
use renewal_text::{Comparison, compare};
use std::alloc::Global;
use std::io::{Read, Write};

/// The line of a comparison.
fn comparison_line(alloc: Global, comparison: Comparison) -> Result<String, Fault>
    ensures ok { IfOk result (λ line. string_bytes line ≡ (comparison_says comparison).0) }
    ensures fault { IfErr result (λ fault. fault ≡ Fault.NoMemory) }
{
    let line = match comparison {
        Comparison::Holds => "holds\n".to_string(alloc)?,
        Comparison::BadRecord(number) => numbered_line(alloc, "bad record line ", number)?,
        Comparison::BadNewRecord(number) => numbered_line(alloc, "bad new record line ", number)?,
        Comparison::Differs => "differs\n".to_string(alloc)?,
    };
    Ok(line)
}

/// The exit status after this result.
fn comparison_status(comparison: Comparison) -> u8
    ensures status { result ≡ (comparison_says comparison).1 }
    ensures known { IsOfResult result }
{
    match comparison {
        Comparison::Holds => 0,
        Comparison::BadRecord(_) | Comparison::BadNewRecord(_) | Comparison::Differs => 1,
    }
}

/// Compares the records of these bytes, writes a line, and returns the exit status.
fn compare_bytes<W: Write>(
    alloc: Global,
    old: &[u8],
    new: &[u8],
    output: &mut W,
) -> Result<u8, Fault>
    ensures ok { IfOk result (λ status. Tells renewed_report
        (W.contents output.old) (W.contents output.new) status (old.now, new.now)) }
    ensures status { IfOk result IsOfResult }
    ensures fault { IfErr result (EndsEarly
        (TellsPrefix renewed_report (W.contents output.old) (W.contents output.new) (old.now, new.now))
        (W.contents output.old) (W.contents output.new)) }
{
    let comparison = compare(alloc, old, new)?;
    let line = comparison_line(alloc, comparison)?;
    write_line(output, line.as_bytes())?;
    Ok(comparison_status(comparison))
}

/// The same for what two readers give.
fn compare_readers<A: Read, B: Read, W: Write>(
    alloc: Global,
    first: &mut A,
    second: &mut B,
    output: &mut W,
) -> Result<u8, Fault>
    ensures ok { IfOk result (λ status.
        OfReaders (A.remaining first.old) (B.remaining second.old)
        (Tells renewed_report (W.contents output.old) (W.contents output.new) status)) }
    ensures status { IfOk result IsOfResult }
    ensures fault { IfErr result (EndsEarly
        (OfReaders (A.remaining first.old) (B.remaining second.old)
        (TellsPrefix renewed_report (W.contents output.old) (W.contents output.new)))
        (W.contents output.old) (W.contents output.new)) }
{
    let old = read_whole(alloc, first)?;
    let new = read_whole(alloc, second)?;
    compare_bytes(alloc, old.as_slice(), new.as_slice(), output)
}

/// Reads an old record from the first reader and then a new one from the second, each to its end.
/// Writes a line, flushes, and returns the exit status:
///
/// - 0 after `holds`: both are legal, and the new one draws what the old one draws;
/// - 1 after `bad record line N` and `bad new record line N`, with the first bad line of the old
///   and of the new record, and after `differs`;
/// - 3 if input or output failed, or if a file has more than 1,073,741,824 bytes;
/// - 4 if an allocation failed.
///
/// Before 3 and 4 it writes a line to `errors`.
///
/// The clauses assume a writer that reports what it holds, and state what those of `check_over` do.
pub fn renewed_over<A: Read, B: Read, W: Write, E: Write>(
    alloc: Global,
    first: &mut A,
    second: &mut B,
    output: &mut W,
    errors: &mut E,
) -> u8
    ensures { Reports renewed_report (OfReaders (A.remaining first.old) (B.remaining second.old))
        (W.contents output.old) (W.contents output.new) result }
{
    end_with(compare_readers(alloc, first, second, output), errors)
}
