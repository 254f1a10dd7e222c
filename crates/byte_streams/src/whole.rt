//! Buffers for reading, and writes of all bytes.

ghost use Rattle.std.specs.Prelude.{◌≡◌, IfOk, OnErr, OnOk, length};
ghost use Rattle.std.specs.Io.KnownBytes.{Appends};
ghost use Rattle.byte_streams.specs.Prefixes.{AppendsPrefix};

use base_types::NoMemory;
use std::alloc::Global;
use std::io;
use std::io::{ErrorKind, Write};

/// How many bytes are read at once.
pub const PIECE_LEN: usize = 65536;

/// A buffer for one read.
///
/// # Errors
///
/// `NoMemory` if an allocation failed.
pub fn read_buffer(alloc: Global) -> Result<Vec<u8>, NoMemory>
    ensures { IfOk result (λ piece. length piece.items ≡ PIECE_LEN) }
{
    Ok(vec![in alloc; 0u8; PIECE_LEN]?)
}

/// Writes all of the bytes, in as many calls as it takes. If a write fails or takes no byte, some
/// first bytes were written.
pub fn write_out<W: Write>(output: &mut W, bytes: &[u8]) -> io::Result<()>
    ensures ok { OnOk result (Appends (W.contents output.old) (W.contents output.new) bytes.now) }
    ensures prefix { OnErr result
        (AppendsPrefix (W.contents output.old) (W.contents output.new) bytes.now) }
{
    let mut written = 0;
    while written < bytes.len() {
        let count = output.write(&bytes[written..])?;
        if count == 0 {
            return Err(io::Error::from(ErrorKind::WriteZero));
        }
        written += count;
    }
    Ok(())
}
