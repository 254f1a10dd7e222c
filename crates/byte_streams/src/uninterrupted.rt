//! A stream that retries calls which a signal interrupted.

ghost use Rattle.std.specs.Prelude.{◌≢◌, IfErr};
ghost use Rattle.std.specs.Io.{ReadsAtMost, WritesAtMost};
ghost use Rattle.std.specs.Io.KnownBytes.{ReadConsumes, WriteAppends};
ghost use Rattle.std.specs.IoError.{error_kind};

use std::io;
use std::io::{ErrorKind, Read, Write};

/// A stream whose reads and writes are retried when a signal interrupts them (`EINTR`). A read with
/// a timeout is interrupted when the process is stopped and continued. That must not end a session.
#[derive(Drop)]
pub struct Uninterrupted<S> {
    pub stream: S,
}

/// The fault of what was interrupted again and again.
fn too_many_tries() -> io::Error
    ensures { error_kind result ≢ ErrorKind.Interrupted }
{
    io::Error::from(ErrorKind::TimedOut)
}

/// Reads, until no signal interrupts it.
fn read_again<S: Read>(stream: &mut S, buf: &mut [u8]) -> io::Result<usize>
    ensures bound { ReadsAtMost result buf.new }
    ensures bytes { ReadConsumes (S.remaining stream.old) (S.remaining stream.new) result buf.new }
    ensures retried { IfErr result (λ fault. error_kind fault ≢ ErrorKind.Interrupted) }
{
    for _ in 0..usize::MAX {
        match stream.read(buf) {
            Ok(count) => return Ok(count),
            Err(fault) => {
                if fault.kind() != ErrorKind::Interrupted {
                    return Err(fault);
                }
            }
        }
    }
    Err(too_many_tries())
}

/// Writes, until no signal interrupts it.
fn write_again<S: Write>(stream: &mut S, buf: &[u8]) -> io::Result<usize>
    ensures bound { WritesAtMost result buf.now }
    ensures bytes { WriteAppends (S.contents stream.old) (S.contents stream.new) result buf.now }
    ensures retried { IfErr result (λ fault. error_kind fault ≢ ErrorKind.Interrupted) }
{
    for _ in 0..usize::MAX {
        match stream.write(buf) {
            Ok(count) => return Ok(count),
            Err(fault) => {
                if fault.kind() != ErrorKind::Interrupted {
                    return Err(fault);
                }
            }
        }
    }
    Err(too_many_tries())
}

impl<S: Read> Read for Uninterrupted<S> {
    ghost remaining = { λ it. S.remaining it.stream };

    fn read(&mut self, buf: &mut [u8]) -> io::Result<usize> {
        read_again(&mut self.stream, buf)
    }
}

impl<S: Write> Write for Uninterrupted<S> {
    ghost contents = { λ it. S.contents it.stream };

    fn write(&mut self, buf: &[u8]) -> io::Result<usize> {
        write_again(&mut self.stream, buf)
    }

    fn flush(&mut self) -> io::Result<()> {
        self.stream.flush()
    }
}
