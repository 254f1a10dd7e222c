//! The fault of a command for each fault of a layer below.

ghost use Rattle.std.specs.Prelude.{◌≡◌};
ghost use Rattle.commands.specs.steps.Faults.{of_rooms, of_script};

use base_types::RoomsFault;
use command_fault::Fault;
use world::ScriptFault;

/// The fault of a command for a fault of making rooms.
pub fn fault_of_rooms(fault: RoomsFault) -> Fault
    ensures { result ≡ of_rooms fault }
{
    match fault {
        RoomsFault::SameName(_) => Fault::RoomNamedTwice,
        RoomsFault::NoMemory => Fault::NoMemory,
    }
}

/// The fault of a command for a fault of a script.
pub(crate) fn fault_of_script(fault: ScriptFault) -> Fault
    ensures { result ≡ of_script fault }
{
    match fault {
        ScriptFault::Read => Fault::Input,
        ScriptFault::Write => Fault::Output,
        ScriptFault::NoMemory => Fault::NoMemory,
    }
}
