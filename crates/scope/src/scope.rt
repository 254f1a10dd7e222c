//! Which rooms a session may enter. A scope is fixed when its session begins.

ghost use Rattle.std.specs.Prelude.{◌≡◌, IfOk, position};
ghost use Rattle.scope.specs.Scopes.{allows, is_query_mark, path_of, scope_of_target};

use base_types::{NameFault, NoMemory, RoomName};
use std::alloc::Global;

/// Which rooms a session may enter.
#[derive(Drop)]
pub enum Scope {
    /// Every room.
    Anywhere,
    /// The rooms of the chain of this first room.
    Only(RoomName),
    /// No room.
    Nowhere,
}

impl Scope {
    /// The scope of a session by the target of its request (RFC 9112, section 3.2). For `/NAME` it
    /// is the room NAME and its successors, whatever query follows. For any other target it is no
    /// room, so also for `/NAME.2`. Nothing is decoded: a room's name needs no escape. Linear in
    /// the target.
    ///
    /// # Errors
    /// `NoMemory` if an allocation failed.
    pub fn of_target(alloc: Global, target: &[u8]) -> Result<Scope, NoMemory>
        ensures { IfOk result (λ scope. scope ≡ scope_of_target target.now) }
    {
        let Some((first, name)) = path_of(target).split_first() else {
            return Ok(Scope::Nowhere);
        };
        if *first != b'/' {
            return Ok(Scope::Nowhere);
        }
        match RoomName::parse_first(alloc, name) {
            Ok(name) => Ok(Scope::Only(name)),
            Err(NameFault::NoMemory) => Err(NoMemory),
            Err(_) => Ok(Scope::Nowhere),
        }
    }

    /// Returns whether the session may enter the room of this name.
    pub fn allows(&self, name: &RoomName) -> bool
        ensures { result ≡ allows self.now name.now }
    {
        match self {
            Scope::Anywhere => true,
            Scope::Only(first) => name.is_in_chain_of(first),
            Scope::Nowhere => false,
        }
    }
}

/// The place of the first question mark.
fn query_place(target: &[u8]) -> Option<usize>
    ensures { result ≡ position is_query_mark target.now }
{
    target.iter().position(|byte| *byte == b'?')
}

/// The path of a target: what stands before its query (RFC 3986, section 3.4).
fn path_of(target: &[u8]) -> &[u8]
    ensures { result.now ≡ path_of target.now }
{
    match query_place(target) {
        Some(len) => &target[..len],
        None => target,
    }
}
