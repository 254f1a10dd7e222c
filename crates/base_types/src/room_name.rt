//! Names of rooms, of their successors, and lists of names.

ghost use Rattle.std.specs.Prelude.{◌≡◌, ◌≤◌, None, true, false, bytes_eq, ◌==◌, IfOk, position, slice_index};
ghost use Rattle.std.specs.List.{after_first, list_all, list_any};
ghost use Rattle.std.specs.Char.{is_ascii_digit};
ghost use Rattle.std.specs.Str.Parse.{digits_value};
ghost use Rattle.base_types.specs.Texts.{label_fault};
ghost use Rattle.base_types.specs.steps.Faults.{FailsBy, OnFault};
ghost use Rattle.base_types.specs.Repeats.{first_repeat};
ghost use Rattle.base_types.specs.RoomNames.{is_in_chain, first_name, has_no_dot, is_dot, is_first_name};
ghost use Rattle.base_types.specs.RoomNames.{is_room_name, is_short_numeral, is_successor_number, numbered, room_name_fault, room_number, successor};

use crate::fault::{NameFault, NoMemory};
use crate::label::{label_fault, label_text};
use crate::text::Text;
use itoa::Buffer;
use std::alloc::{AllocError, Global};
use std::marker::Model;

/// The greatest length of a room's name, in bytes.
pub const MAX_ROOM_LEN: usize = 64;

/// The greatest number of a room in its chain.
pub const MAX_ROOM_NUMBER: u32 = 999_999;

/// The greatest number of digits of a successor's number.
const MAX_DIGITS: usize = 6;

/// The name of a room: NAME for the first room of a chain, and NAME.N for its N-th, of 64 bytes at
/// most. NAME is 1 byte or more, each one of a-z, 0-9 and `-`. N is from 2 to 999999, without
/// leading zeros. Names are ordered by their bytes.
#[derive(Debug, Drop, PartialEq, Eq, PartialOrd, Ord, Hash)]
pub struct RoomName {
    text: Text,
}

impl Model for RoomName {
    ghost use Rattle.std.specs.Prelude.{◌≡◌, List, ℕ, true};
    ghost use Rattle.base_types.specs.RoomNames.{is_room_name};

    ghost Value = { List ℕ };

    ghost view = { λ name. name.text };

    ghost invariant = { λ name. is_room_name name.text ≡ true };

    ghost inverse = { λ bytes. record { text = bytes } };
}

/// Is it a dot?
fn is_dot(byte: u8) -> bool
    ensures { result ≡ is_dot byte }
{
    byte == b'.'
}

/// The place of the first dot.
fn dot_place(bytes: &[u8]) -> Option<usize>
    ensures { result ≡ position is_dot bytes.now }
{
    bytes.iter().position(|byte| is_dot(*byte))
}

/// What stands before the first dot.
fn first_name(bytes: &[u8]) -> &[u8]
    ensures { result.now ≡ first_name bytes.now }
{
    match dot_place(bytes) {
        Some(place) => &bytes[..place],
        None => bytes,
    }
}

/// What stands behind the first dot: nothing if there is none.
fn number_text(bytes: &[u8]) -> &[u8]
    ensures { result.now ≡ after_first is_dot bytes.now }
{
    match dot_place(bytes) {
        Some(place) => &bytes[place + 1..],
        None => &[],
    }
}

/// Is it the name of a chain's first room?
fn has_no_dot(bytes: &[u8]) -> bool
    ensures { result ≡ has_no_dot bytes.now }
{
    first_name(bytes).len() == bytes.len()
}

/// Is the first byte a zero?
fn has_leading_zero(digits: &[u8]) -> bool
    ensures { result ≡ (slice_index digits.now 0 == 48) }
{
    match digits {
        [first, ..] => *first == b'0',
        [] => false,
    }
}

/// Are all bytes decimal digits?
fn are_digits(bytes: &[u8]) -> bool
    ensures { result ≡ list_all is_ascii_digit bytes.now }
{
    bytes.iter().all(|byte| byte.is_ascii_digit())
}

/// Are these one to six decimal digits?
fn is_short_numeral(digits: &[u8]) -> bool
    ensures { result ≡ is_short_numeral digits.now }
{
    if digits.is_empty() || digits.len() > MAX_DIGITS {
        return false;
    }
    are_digits(digits)
}

/// Are these the digits of a successor's number?
#[tactic(auto, unfolding(crate::specs::RoomNames::is_successor_number))]
fn is_successor_number(digits: &[u8]) -> bool
    ensures { result ≡ is_successor_number digits.now }
{
    is_short_numeral(digits) && !has_leading_zero(digits) && digits != b"1".as_slice()
}

/// The first fault of a room's name, if it has one.
#[tactic(auto, unfolding(crate::specs::RoomNames::room_name_fault))]
fn room_name_fault(bytes: &[u8]) -> Option<NameFault>
    ensures { result ≡ room_name_fault bytes.now }
{
    if bytes.len() > MAX_ROOM_LEN {
        return Some(NameFault::TooLong);
    }
    if has_no_dot(bytes) || is_successor_number(number_text(bytes)) {
        return label_fault(first_name(bytes), MAX_ROOM_LEN);
    }
    Some(NameFault::BadNumber)
}

/// The bytes as the text of a room's name.
fn name_text(alloc: Global, bytes: &[u8]) -> Result<Text, NameFault>
    ensures ok { IfOk result (λ text. (text ≡ bytes.now) × (room_name_fault bytes.now ≡ None)) }
    ensures fault { FailsBy NameFault.NoMemory (room_name_fault bytes.now) result }
{
    if let Some(fault) = room_name_fault(bytes) {
        return Err(fault);
    }
    let Ok(text) = std::str::from_utf8(bytes) else {
        unreachable!()
    };
    Ok(Text::from_str(alloc, text)?)
}

/// The bytes of the name of the room with this number in a chain.
fn numbered(alloc: Global, first: &[u8], number: u32) -> Result<Vec<u8>, AllocError>
    ensures { IfOk result (λ name. name.items ≡ numbered first.now number) }
{
    let mut digits = Buffer::new();
    let mut name = Vec::from_slice(alloc, first)?;
    name.push(b'.')?;
    name.extend_from_slice(digits.format(number).as_bytes())?;
    Ok(name)
}

impl RoomName {
    /// Reads a room's name from bytes. Linear in their number.
    ///
    /// # Errors
    ///
    /// - `TooLong` if there are more than `MAX_ROOM_LEN`.
    /// - `BadNumber` if they have a dot, and what follows the first one is no number from 2 to
    ///   `MAX_ROOM_NUMBER` without leading zeros.
    /// - `Empty` if nothing stands before the first dot.
    /// - `BadByte` with the place of the first byte that is none of a-z, 0-9 and `-` and stands
    ///   before the first dot.
    /// - `NoMemory` if an allocation failed.
    pub fn parse(alloc: Global, bytes: &[u8]) -> Result<RoomName, NameFault>
        ensures ok { IfOk result (λ name. (name ≡ bytes.now) × (is_room_name bytes.now ≡ true)) }
        ensures fault { FailsBy NameFault.NoMemory (room_name_fault bytes.now) result }
        ensures invalid { OnFault NameFault.NoMemory result (is_room_name bytes.now ≡ false) }
    {
        let text = name_text(alloc, bytes)?;
        Ok(RoomName { text })
    }

    /// Reads the name of a chain's first room from bytes. Linear in their number.
    ///
    /// # Errors
    ///
    /// Those of a label of at most `MAX_ROOM_LEN` bytes: `Empty`, `TooLong`, `BadByte`, and
    /// `NoMemory` if an allocation failed.
    pub fn parse_first(alloc: Global, bytes: &[u8]) -> Result<RoomName, NameFault>
        ensures ok { IfOk result (λ name. (name ≡ bytes.now) × (is_first_name bytes.now ≡ true)) }
        ensures fault { FailsBy NameFault.NoMemory (label_fault MAX_ROOM_LEN bytes.now) result }
        ensures invalid { OnFault NameFault.NoMemory result (is_first_name bytes.now ≡ false) }
    {
        let text = label_text(alloc, bytes, MAX_ROOM_LEN)?;
        Ok(RoomName { text })
    }

    /// The name's text.
    pub fn text(&self) -> &str
        ensures text { result.now ≡ self.now }
        ensures range { is_room_name self.now ≡ true }
    {
        self.text.as_str()
    }

    /// Returns an equal copy.
    ///
    /// # Errors
    ///
    /// `NoMemory` if an allocation failed.
    pub fn copy(&self, alloc: Global) -> Result<RoomName, NoMemory>
        ensures { IfOk result (λ name. name ≡ self.now) }
    {
        let text = self.text.copy(alloc)?;
        Ok(RoomName { text })
    }

    /// Returns whether it is the name of a chain's first room.
    pub fn is_first(&self) -> bool
        ensures { result ≡ has_no_dot self.now }
    {
        has_no_dot(self.text().as_bytes())
    }

    /// Returns whether the room is of the chain whose first room has this name.
    pub fn is_in_chain_of(&self, first: &RoomName) -> bool
        ensures { result ≡ is_in_chain first.now self.now }
    {
        first_name(self.text().as_bytes()) == first.text().as_bytes()
    }

    /// The name of the first room of the chain.
    ///
    /// # Errors
    ///
    /// `NoMemory` if an allocation failed.
    pub fn first(&self, alloc: Global) -> Result<RoomName, NoMemory>
        ensures { IfOk result (λ first. first ≡ first_name self.now) }
    {
        match RoomName::parse_first(alloc, first_name(self.text().as_bytes())) {
            Ok(first) => Ok(first),
            // What stands before the dot is a label, so only memory is missing.
            Err(_) => Err(NoMemory),
        }
    }

    /// The room's place in its chain, from 1 to `MAX_ROOM_NUMBER`.
    pub fn number(&self) -> u32
        ensures value { result ≡ room_number self.now }
        ensures range { result ≤ MAX_ROOM_NUMBER }
    {
        if self.is_first() {
            return 1;
        }
        number_of(number_text(self.text().as_bytes()))
    }

    /// The name of the next room of the chain: `None` if its number or its length is out of range.
    ///
    /// # Errors
    ///
    /// `NoMemory` if an allocation failed.
    pub fn successor(&self, alloc: Global) -> Result<Option<RoomName>, NoMemory>
        ensures { IfOk result (λ next. next ≡ successor self.now) }
    {
        let number = self.number();
        if number == MAX_ROOM_NUMBER {
            return Ok(None);
        }
        let name = numbered(alloc, first_name(self.text().as_bytes()), number + 1)?;
        if name.len() > MAX_ROOM_LEN {
            return Ok(None);
        }
        match RoomName::parse(alloc, name.as_slice()) {
            Ok(name) => Ok(Some(name)),
            // The bytes are a room's name, so only memory is missing.
            Err(_) => Err(NoMemory),
        }
    }
}

/// The number that these digits of a successor write.
fn number_of(digits: &[u8]) -> u32
    requires { is_successor_number digits.now ≡ true }
    ensures { result ≡ digits_value 10 digits.now }
{
    let Ok(text) = std::str::from_utf8(digits) else {
        unreachable!()
    };
    let Ok(number) = text.parse::<u32>() else {
        unreachable!()
    };
    number
}
/// Is this name among these?
fn has_name(names: &[RoomName], name: &RoomName) -> bool
    ensures { result ≡ list_any (λ earlier. bytes_eq earlier name.now) names.now }
{
    names.iter().any(|earlier| *earlier == *name)
}

/// The first place whose name is also at an earlier place, or `None` if all names differ. Compares
/// each name with all before it.
pub fn repeated_name(names: &[RoomName]) -> Option<usize>
    ensures { result ≡ first_repeat bytes_eq names.now }
{
    for (place, name) in names.iter().enumerate() {
        if has_name(&names[..place], name) {
            return Some(place);
        }
    }
    None
}
