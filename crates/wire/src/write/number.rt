//! Numbers and pairs of numbers as text. An answer with many identifiers is little else.

ghost use Rattle.std.specs.Prelude.{◌≡◌, ◌≤◌, ◌+◌, ◌<◌, ◌∷◌, ◌++◌, OnOk, string_bytes, length, drop};
ghost use Rattle.std.specs.Fmt.{decimal};
ghost use Rattle.serde_json.specs.Written.{compact_text};
ghost use Rattle.wire.specs.Form.{name_form};

use base_types::NoMemory;
use itoa::{Buffer, write_digits};
use std::str::from_utf8_unchecked;

/// The most digits of a number.
const MOST_DIGITS: usize = 10;

/// The most bytes of a pair: two numbers, two brackets and a comma.
const MOST_BYTES: usize = 2 * MOST_DIGITS + 3;

/// Puts a number behind a text.
pub(super) fn push_number(text: &mut String, number: u32) -> Result<(), NoMemory>
    ensures { OnOk result (string_bytes text.new ≡ string_bytes text.old ++ decimal number) }
{
    let mut digits = Buffer::new();
    text.push_str(digits.format(number))?;
    Ok(())
}

/// Puts a list of two numbers behind a text. The bytes are made first, from the last to the first,
/// so that the text grows once.
pub(super) fn push_pair(text: &mut String, first: u32, second: u32) -> Result<(), NoMemory>
    ensures { OnOk result (string_bytes text.new
        ≡ string_bytes text.old ++ compact_text (name_form (first, second))) }
{
    let mut bytes = [b']'; MOST_BYTES];
    let comma = put_before(&mut bytes, MOST_BYTES - 1, b',', second);
    let open = put_before(&mut bytes, comma, b'[', first);
    // SAFETY: digits, brackets and a comma are UTF-8. The prover refuses this call without a proof
    // of that.
    text.push_str(unsafe { from_utf8_unchecked(&bytes[open..]) })?;
    Ok(())
}

/// Writes a byte and a number so that they end at `end`. Returns where they begin.
fn put_before(bytes: &mut [u8], end: usize, byte: u8, number: u32) -> usize
    requires room { MOST_DIGITS + 1 ≤ end }
    requires within { end ≤ length bytes.old }
    ensures start { end ≤ result + (MOST_DIGITS + 1) }
    ensures inside { result < end }
    ensures written { drop result bytes.new ≡ byte ∷ decimal number ++ drop end bytes.old }
    ensures len { length bytes.new ≡ length bytes.old }
{
    let first = write_digits(u64::from(number), bytes, end);
    bytes[first - 1] = byte;
    first - 1
}
