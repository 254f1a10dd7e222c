//! Reading input whole.

ghost use Rattle.std.specs.Prelude.{◌≡◌, ◌≤◌, ◌++◌, ◌⊎◌, IfErr, IfOk, IfSome, OnOk, length};
ghost use Rattle.std.specs.Io.KnownBytes.{IsAtEnd};

use crate::fault::Fault;
use base_types::NoMemory;
use std::alloc::Global;
use std::io::Read;

/// The most bytes of a file that is read whole: 1 GiB.
pub const MAX_FILE_LEN: usize = 1_073_741_824;

/// How many bytes are read at once. Most files that a server reads are shorter.
const PIECE_LEN: usize = 8192;

/// Reads all remaining bytes, at most `limit`.
///
/// # Errors
/// `Input` if there are more than `limit` bytes, or if a read failed.
/// `NoMemory` if an allocation failed.
pub fn read_up_to<R: Read>(alloc: Global, input: &mut R, limit: usize) -> Result<Vec<u8>, Fault>
    ensures all { IfOk result (λ bytes. IfSome (R.remaining input.old) (λ all. bytes.items ≡ all)) }
    ensures most { IfOk result (λ bytes. length bytes.items ≤ limit) }
    ensures end { OnOk result (IsAtEnd (R.remaining input.new)) }
    ensures fault { IfErr result (λ fault. (fault ≡ Fault.Input) ⊎ (fault ≡ Fault.NoMemory)) }
{
    let mut buffer = piece_buffer(alloc)?;
    let piece = buffer.as_mut_slice();
    let mut bytes = Vec::new(alloc);
    for _ in 0..u64::MAX {
        match input.read(piece) {
            Ok(0) => return Ok(bytes),
            Ok(count) => push_piece(&mut bytes, &piece[..count], limit)?,
            Err(_fault) => return Err(Fault::Input),
        }
    }
    Err(Fault::Input)
}

/// Appends the piece, if there are then at most `limit` bytes.
///
/// # Errors
/// `Input` if there would be more.
/// `NoMemory` if an allocation failed.
fn push_piece(bytes: &mut Vec<u8>, piece: &[u8], limit: usize) -> Result<(), Fault>
    requires { length bytes.old.items ≤ limit }
    ensures all { OnOk result (bytes.new.items ≡ bytes.old.items ++ piece.now) }
    ensures most { OnOk result (length bytes.new.items ≤ limit) }
    ensures fault { IfErr result (λ fault. (fault ≡ Fault.Input) ⊎ (fault ≡ Fault.NoMemory)) }
{
    if piece.len() > limit - bytes.len() {
        return Err(Fault::Input);
    }
    bytes.extend_from_slice(piece)?;
    Ok(())
}

/// A buffer for one read.
///
/// # Errors
/// `NoMemory` if an allocation failed.
fn piece_buffer(alloc: Global) -> Result<Vec<u8>, NoMemory>
    ensures { IfOk result (λ piece. length piece.items ≡ PIECE_LEN) }
{
    Ok(vec![in alloc; 0u8; PIECE_LEN]?)
}
