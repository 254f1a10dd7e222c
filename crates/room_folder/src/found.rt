//! A room as it was found in its file.

ghost use Rattle.std.specs.Prelude.{◌≡◌, ◌≤◌, ◌⊎◌, ℕ, Err, IfErr, IfOk, IfSome, length, map, string_bytes};
ghost use Rattle.std.specs.Arc.{arc_value};
ghost use Rattle.rules.specs.Limits.{full_limits};
ghost use Rattle.restore.specs.Restoring.{IsRestored};
ghost use Rattle.restore.specs.declared.restored.Restored.TheVariants as restored;
ghost use Rattle.room_folder.specs.steps.Found.{bytes_in};
ghost use Rattle.room_folder.specs.declared.found.RestoreFault.TheVariants as restore_fault;

use base_types::{NoMemory, RoomName};
use byte_streams::Uninterrupted;
use command_fault::{Fault, MAX_FILE_LEN, read_up_to};
use restore::{Restored, restore};
use room_core::RoomState;
use rules::Entry;
use shared_history::{Front, open};
use std::alloc::{AllocError, Global};
use std::io::Read;
use std::marker::Model;
use std::sync::{Arc, Wait};

/// A room's file as it was found, and what is to be written to it. Contracts see the room's name
/// and its record: the entries that the whole lines are, and those that are to be written behind
/// them.
#[derive(Drop)]
pub(crate) struct Found<F> {
    pub(crate) name: String,
    /// The open file, if there is one.
    pub(crate) file: Option<F>,
    /// The number of bytes in the whole lines that stay.
    pub(crate) whole: usize,
    /// The number of bytes behind them, which do not stay.
    pub(crate) behind: usize,
    /// The entries that are to be written behind them.
    pub(crate) unwritten: Vec<Arc<Entry>>,
    pub(crate) restored: Front,
}

impl<F> Model for Found<F> {
    ghost use Rattle.std.specs.Prelude.{string_bytes};
    ghost use Rattle.restore.specs.steps.Files.{FileView};

    ghost Value = { FileView };

    ghost view = { λ f. record { name = string_bytes f.name; entries = f.restored.entries } };
}

impl<F: Drop> Found<F> {
    /// The same file of a room that has one more entry, which is to be written.
    pub(crate) fn and_last(
        self,
        rt: &impl Wait,
        alloc: Global,
        room: &RoomState,
    ) -> Result<Found<F>, NoMemory>
        ensures { IfOk result (λ found.
            found ≡ record { name = self.name; entries = room.now.room.entries }) }
    {
        let Found {
            name,
            file,
            whole,
            behind,
            mut unwritten,
            restored: _,
        } = self;
        if let Some(last) = room.entries().last() {
            unwritten.push(last.clone()?)?;
        }
        Ok(Found {
            name,
            file,
            whole,
            behind,
            unwritten,
            restored: front_of(rt, room.entries()),
        })
    }
}

/// The text of a name.
pub(crate) fn string_of(alloc: Global, name: &RoomName) -> Result<String, AllocError>
    ensures { IfOk result (λ string. string_bytes string ≡ name.now) }
{
    let text = name.text();
    format!(in alloc; "{text}")
}

/// A front that has seen these entries, of a history of its own.
pub(crate) fn front_of(rt: &impl Wait, entries: &[Arc<Entry>]) -> Front
    ensures { result.entries ≡ map arc_value entries.now }
{
    let (history, mut front) = open();
    front.add_all(rt, &history, entries);
    front
}

/// A room, and its file, which has the name of the room and its record.
#[derive(Drop)]
pub(crate) struct FoundRoom<F> {
    pub(crate) name: RoomName,
    pub(crate) state: RoomState,
    pub(crate) file: Found<F>,
    ghost limits: { state.room.limits ≡ full_limits },
    ghost record_of_file: { file ≡ record { name = name; entries = state.room.entries } },
}

/// Why a room cannot be restored from its file.
#[derive(Clone, Copy, Debug, PartialEq, Eq)]
pub(crate) enum RestoreFault {
    /// This line, counted from 1, is no entry that may come next.
    BadLine(usize),
    /// The file cannot be read.
    Unreadable,
    /// An allocation failed.
    NoMemory,
}

impl From<AllocError> for RestoreFault {
    ghost from_gives = { λ _ fault. fault ≡ restore_fault.NoMemory };

    fn from(_fault: AllocError) -> RestoreFault {
        RestoreFault::NoMemory
    }
}

impl From<NoMemory> for RestoreFault {
    ghost from_gives = { λ _ fault. fault ≡ restore_fault.NoMemory };

    fn from(_fault: NoMemory) -> RestoreFault {
        RestoreFault::NoMemory
    }
}

/// All bytes of a file, which it returns, or no file and no bytes.
pub(crate) fn bytes_of<F: Read + Drop>(
    alloc: Global,
    file: Option<F>,
) -> Result<(Option<F>, Vec<u8>), RestoreFault>
    ensures bytes { IfOk result (λ read. IfSome (bytes_in F.remaining file)
        (λ bytes. read.1.items ≡ bytes)) }
    ensures fault { IfErr result (λ fault.
        (fault ≡ restore_fault.Unreadable) ⊎ (fault ≡ restore_fault.NoMemory)) }
{
    let Some(file) = file else {
        return Ok((None, Vec::new(alloc)));
    };
    let mut input = Uninterrupted { stream: file };
    match read_up_to(alloc, &mut input, MAX_FILE_LEN) {
        Ok(bytes) => {
            let Uninterrupted { stream } = input;
            Ok((Some(stream), bytes))
        }
        Err(Fault::NoMemory) => Err(RestoreFault::NoMemory),
        Err(_) => Err(RestoreFault::Unreadable),
    }
}

/// Restores the room of this name from the bytes of its file.
pub(crate) fn restore_bytes<F: Drop>(
    rt: &impl Wait,
    alloc: Global,
    name: &RoomName,
    file: Option<F>,
    bytes: &[u8],
) -> Result<FoundRoom<F>, RestoreFault>
    ensures name { IfOk result (λ found. found.name ≡ name.now) }
    ensures restored { IfOk result (λ found.
        (whole : ℕ) × IsRestored bytes.now (restored.Room found.state whole)) }
    ensures bad { (line : ℕ) → result ≡ Err (restore_fault.BadLine line)
        → IsRestored bytes.now (restored.Bad line) }
{
    match restore(alloc, bytes)? {
        Restored::Room { room, whole } => {
            let file = Found {
                name: string_of(alloc, name)?,
                file,
                whole,
                behind: bytes.len() - whole,
                unwritten: Vec::new(alloc),
                restored: front_of(rt, room.entries()),
            };
            let name = name.copy(alloc)?;
            Ok(FoundRoom {
                name,
                state: room,
                file,
            })
        }
        Restored::Bad(line) => Err(RestoreFault::BadLine(line)),
    }
}

/// The number of whole lines in a file.
pub(crate) fn count_lines(bytes: &[u8]) -> usize
    ensures { result ≤ length bytes.now }
{
    bytes.iter().filter(|byte| **byte == b'\n').count()
}
