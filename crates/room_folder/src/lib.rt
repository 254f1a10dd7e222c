//! The folder of `grace serve --keep`: its lock, the files of rooms in it with their locks, the
//! rooms that are restored from them, and the renewal of rooms that are nearly full.
#![tactic(auto)]

mod chain;
mod chain_locks;
mod fault;
mod folder;
mod found;
mod open_room;
mod open_rooms;
mod room_file;
mod settling;

pub use fault::FolderFault;
pub use folder::Folder;
pub use open_room::RoomFound;
pub use open_rooms::OpenRooms;
