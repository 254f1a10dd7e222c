//! What the commands share that read their input whole and write one result of it.

ghost use Rattle.std.specs.Prelude.{◌≡◌, ◌≤◌, ◌⊎◌, IfErr, IfOk, IfSome, OnErr, OnOk, length, string_bytes};
ghost use Rattle.std.specs.Io.KnownBytes.{Appends, IsAtEnd};
ghost use Rattle.byte_streams.specs.Prefixes.{AppendsPrefix};
ghost use Rattle.commands.specs.Checks.{numbered_line};
ghost use Rattle.commands.specs.steps.Statuses.{end_status};

use base_types::NoMemory;
use byte_streams::write_out;
use command_fault::{Fault, MAX_FILE_LEN, read_up_to};
use std::alloc::Global;
use std::io::{Read, Write};

/// Reads all bytes of a reader, at most `MAX_FILE_LEN`.
pub(crate) fn read_whole<R: Read>(alloc: Global, input: &mut R) -> Result<Vec<u8>, Fault>
    ensures all { IfOk result (λ bytes. IfSome (R.remaining input.old) (λ all. bytes.items ≡ all)) }
    ensures most { IfOk result (λ bytes. length bytes.items ≤ MAX_FILE_LEN) }
    ensures end { OnOk result (IsAtEnd (R.remaining input.new)) }
    ensures fault { IfErr result (λ fault. (fault ≡ Fault.Input) ⊎ (fault ≡ Fault.NoMemory)) }
{
    read_up_to(alloc, input, MAX_FILE_LEN)
}

/// The line of these words and a number.
pub(crate) fn numbered_line(alloc: Global, words: &str, number: usize) -> Result<String, NoMemory>
    ensures { IfOk result (λ line. string_bytes line ≡ numbered_line words.now number) }
{
    Ok(format!(in alloc; "{words}{number}\n")?)
}

/// Writes a line and flushes the output.
pub(crate) fn write_line<W: Write>(output: &mut W, line: &[u8]) -> Result<(), Fault>
    ensures ok { OnOk result (Appends (W.contents output.old) (W.contents output.new) line.now) }
    ensures prefix { OnErr result
        (AppendsPrefix (W.contents output.old) (W.contents output.new) line.now) }
    ensures fault { IfErr result (λ fault. fault ≡ Fault.Output) }
{
    if write_out(output, line).is_err() || output.flush().is_err() {
        return Err(Fault::Output);
    }
    Ok(())
}

/// The exit status: that of the result, or of the fault. Writes the line of a fault to `errors`.
pub(crate) fn end_with<E: Write>(end: Result<u8, Fault>, errors: &mut E) -> u8
    ensures { result ≡ end_status end }
{
    match end {
        Ok(status) => status,
        Err(fault) => {
            fault.write_line(errors);
            fault.status()
        }
    }
}
