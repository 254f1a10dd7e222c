//! `grace script ROOM..`: answers the lines of a script.

ghost use Rattle.std.specs.Prelude.{◌≡◌, ◌≢◌, IfErr, IfOk, IfSome, None, OnErr, OnOk, true, false};
ghost use Rattle.std.specs.List.{list_all};
ghost use Rattle.base_types.specs.RoomNames.{is_first_name};
ghost use Rattle.commands.specs.Names.{texts_of, mistake_in};
ghost use Rattle.commands.specs.Service.{IsStatus, Serves, ServesPrefix};
ghost use Rattle.commands.specs.steps.Statuses.{MayEnd};

use crate::fault::{fault_of_rooms, fault_of_script};
use base_types::RoomName;
use command_fault::Fault;
use rules::Limits;
use std::alloc::Global;
use std::io::{Read, Write};
use world::World;

/// Parses the names of chains' first rooms.
///
/// # Errors
/// `BadRoomName` if a text is no name.
/// `NoMemory` if an allocation failed.
pub fn room_names(alloc: Global, names: &[&str]) -> Result<Vec<RoomName>, Fault>
    ensures ok { IfOk result (λ rooms. rooms.items ≡ texts_of names.now) }
    ensures good { OnOk result (list_all is_first_name (texts_of names.now) ≡ true) }
    ensures fault { IfErr result (λ fault. fault ≢ Fault.NoMemory →
        (fault ≡ Fault.BadRoomName) × (list_all is_first_name (texts_of names.now) ≡ false)) }
{
    let mut rooms = Vec::with_capacity(alloc, names.len())?;
    for name in names {
        rooms.push(RoomName::parse_first(alloc, name.as_bytes())?)?;
    }
    Ok(rooms)
}

/// Answers a script in rooms of these names with full limits.
fn script<R: Read, W: Write>(
    alloc: Global,
    names: &[&str],
    input: &mut R,
    output: &mut W,
) -> Result<(), Fault>
    ensures ok { OnOk result (IfSome (R.remaining input.old)
        (Serves (W.contents output.old) (W.contents output.new) (texts_of names.now))) }
    ensures good { OnOk result (mistake_in (texts_of names.now) ≡ None) }
    ensures prefix { OnErr result (IfSome (R.remaining input.old)
        (ServesPrefix (W.contents output.old) (W.contents output.new) (texts_of names.now))) }
    ensures fault { IfErr result (MayEnd (texts_of names.now)) }
{
    let rooms = room_names(alloc, names)?;
    let mut world = match World::new(alloc, &rooms, Limits::full()) {
        Ok(world) => world,
        Err(fault) => return Err(fault_of_rooms(fault)),
    };
    world.script(alloc, input, output).map_err(fault_of_script)
}

/// Answers a script in rooms of these names with full limits, and returns the exit status:
///
/// - 0 at the end of the input;
/// - 2 for a bad room name, or, if all are good, for a room named twice;
/// - 3 if input or output failed;
/// - 4 if an allocation failed.
///
/// Before all but 0 it writes a line to `errors`.
///
/// The clauses assume a reader whose bytes are known and a writer that reports what it holds. They
/// state the possible statuses, when the status is 2, and what was written. Tests show when the
/// status is 3 and when 4, and the line on `errors`.
pub fn script_over<R: Read, W: Write, E: Write>(
    alloc: Global,
    names: &[&str],
    input: &mut R,
    output: &mut W,
    errors: &mut E,
) -> u8
    ensures served { result ≡ 0 → IfSome (R.remaining input.old)
        (Serves (W.contents output.old) (W.contents output.new) (texts_of names.now)) }
    ensures prefix { result ≢ 0 → IfSome (R.remaining input.old)
        (ServesPrefix (W.contents output.old) (W.contents output.new) (texts_of names.now)) }
    ensures status { IsStatus (texts_of names.now) result }
{
    match script(alloc, names, input, output) {
        Ok(()) => 0,
        Err(fault) => {
            fault.write_line(errors);
            fault.status()
        }
    }
}
