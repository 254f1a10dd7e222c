//! `grace check RECORD TRANSCRIPT`: checks a room's record and a transcript of it.

ghost use Rattle.std.specs.Prelude.{◌≡◌, IfErr, IfOk, string_bytes};
ghost use Rattle.commands.specs.Checks.{check_report, verdict_says};
ghost use Rattle.commands.specs.steps.Statuses.{EndsEarly, IsOfResult, Tells, TellsPrefix};
ghost use Rattle.commands.specs.Reports.{OfReaders, Reports};

use crate::reporting::{end_with, numbered_line, read_whole, write_line};
use command_fault::Fault;
use history_check::{Verdict, check};
use std::alloc::Global;
use std::io::{Read, Write};

/// The line of a verdict.
fn verdict_line(alloc: Global, verdict: Verdict) -> Result<String, Fault>
    ensures ok { IfOk result (λ line. string_bytes line ≡ (verdict_says verdict).0) }
    ensures fault { IfErr result (λ fault. fault ≡ Fault.NoMemory) }
{
    let line = match verdict {
        Verdict::Holds => "holds\n".to_string(alloc)?,
        Verdict::BadRecord(number) => numbered_line(alloc, "bad record line ", number)?,
        Verdict::BadTranscript(number) => numbered_line(alloc, "bad transcript line ", number)?,
        Verdict::WrongReply(number) => numbered_line(alloc, "wrong reply line ", number)?,
    };
    Ok(line)
}

/// The exit status after a verdict.
fn verdict_status(verdict: Verdict) -> u8
    ensures status { result ≡ (verdict_says verdict).1 }
    ensures known { IsOfResult result }
{
    match verdict {
        Verdict::Holds => 0,
        Verdict::BadRecord(_) | Verdict::BadTranscript(_) | Verdict::WrongReply(_) => 1,
    }
}

/// Judges these bytes, writes the line of the verdict, and returns the exit status.
fn judge<W: Write>(
    alloc: Global,
    entries: &[u8],
    transcript: &[u8],
    output: &mut W,
) -> Result<u8, Fault>
    ensures ok { IfOk result (λ status. Tells check_report
        (W.contents output.old) (W.contents output.new) status (entries.now, transcript.now)) }
    ensures status { IfOk result IsOfResult }
    ensures fault { IfErr result (EndsEarly
        (TellsPrefix check_report (W.contents output.old) (W.contents output.new)
        (entries.now, transcript.now))
        (W.contents output.old) (W.contents output.new)) }
{
    let verdict = check(alloc, entries, transcript)?;
    let line = verdict_line(alloc, verdict)?;
    write_line(output, line.as_bytes())?;
    Ok(verdict_status(verdict))
}

/// The same for what two readers give.
fn judge_over<A: Read, B: Read, W: Write>(
    alloc: Global,
    first: &mut A,
    second: &mut B,
    output: &mut W,
) -> Result<u8, Fault>
    ensures ok { IfOk result (λ status.
        OfReaders (A.remaining first.old) (B.remaining second.old)
        (Tells check_report (W.contents output.old) (W.contents output.new) status)) }
    ensures status { IfOk result IsOfResult }
    ensures fault { IfErr result (EndsEarly
        (OfReaders (A.remaining first.old) (B.remaining second.old)
        (TellsPrefix check_report (W.contents output.old) (W.contents output.new)))
        (W.contents output.old) (W.contents output.new)) }
{
    let entries = read_whole(alloc, first)?;
    let transcript = read_whole(alloc, second)?;
    judge(alloc, entries.as_slice(), transcript.as_slice(), output)
}

/// Reads a room's record from the first reader and then a transcript of it from the second, each to
/// its end. Writes the line of the verdict, flushes, and returns the exit status:
///
/// - 0 if the record is legal and the transcript true of it;
/// - 1 after any other verdict;
/// - 3 if input or output failed, or if a file has more than 1,073,741,824 bytes;
/// - 4 if an allocation failed.
///
/// Before 3 and 4 it writes a line to `errors`.
///
/// The clauses assume a writer that reports what it holds. They state the possible statuses, and
/// what was written before each. The verdict is on some bytes: those of the readers, where these are
/// known, which those of a file are not. Tests show when the status is 3 and when 4, and the line on
/// `errors`.
pub fn check_over<A: Read, B: Read, W: Write, E: Write>(
    alloc: Global,
    first: &mut A,
    second: &mut B,
    output: &mut W,
    errors: &mut E,
) -> u8
    ensures { Reports check_report (OfReaders (A.remaining first.old) (B.remaining second.old))
        (W.contents output.old) (W.contents output.new) result }
{
    end_with(judge_over(alloc, first, second, output), errors)
}
