//! What is printed for a mistake in the command line, and for help.

ghost use Rattle.std.specs.Prelude.{◌≡◌, ◌⊎◌, IsNone};
ghost use Rattle.clap.specs.declared.error.kind.ErrorKind.TheVariants.{OutOfMemory};
ghost use Rattle.clap.specs.Values.{kind_of};
ghost use Rattle.command_line.specs.steps.Mistakes.{AsksForText};

use clap::Error;
use clap::error::ErrorKind;
use command_fault::Fault;
use std::alloc::Global;
use std::io::Write;

/// The text for the user, or `None` if an allocation failed.
fn text_of(alloc: Global, error: &Error) -> Option<String>
    ensures { kind_of error.now ≡ OutOfMemory → IsNone result }
{
    match error.kind() {
        ErrorKind::OutOfMemory => None,
        _ => error.to_string(alloc).ok(),
    }
}

/// Writes a text to the output. Returns the exit status.
fn print<W: Write, E: Write>(text: &str, output: &mut W, errors: &mut E) -> u8
    ensures { (result ≡ 0) ⊎ (result ≡ 3) }
{
    match output
        .write_all(text.as_bytes())
        .and_then(|()| output.flush())
    {
        Ok(()) => 0,
        Err(_) => {
            Fault::Output.write_line(errors);
            Fault::Output.status()
        }
    }
}

/// Writes the message of a command line that was not parsed, and returns the exit status. Help and
/// the version go to `output` with status 0, or 3 if the output failed. A mistake goes to `errors`
/// with status 2. The status is 4 if an allocation failed.
pub fn show_error<W: Write, E: Write>(
    alloc: Global,
    error: &Error,
    output: &mut W,
    errors: &mut E,
) -> u8
    ensures text { AsksForText error.now → (result ≡ 0) ⊎ (result ≡ 3) ⊎ (result ≡ 4) }
    ensures mistake { ¬ (AsksForText error.now) → (result ≡ 2) ⊎ (result ≡ 4) }
    ensures memory { kind_of error.now ≡ OutOfMemory → result ≡ 4 }
    ensures output { ¬ (AsksForText error.now) → output.new ≡ output.old }
{
    let Some(text) = text_of(alloc, error) else {
        Fault::NoMemory.write_line(errors);
        return Fault::NoMemory.status();
    };
    if error.use_stderr() {
        let _ = errors.write_all(text.as_bytes());
        return 2;
    }
    print(text.as_str(), output, errors)
}
