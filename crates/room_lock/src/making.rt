//! Creating rooms.

ghost use Rattle.std.specs.Prelude.{◌≡◌, ◌+◌, ◌≤◌, ◌^◌, ◌++◌, ◌∷◌, [], ◌↔◌, ℕ, All, IfErr};
ghost use Rattle.std.specs.Prelude.{IfOk, IsErrOf, OnErr, OnOk, None, Some, bytes_eq, length, map};
ghost use Rattle.indexmap.specs.IndexMap.{get, keys};
ghost use Rattle.base_types.specs.Repeats.{first_repeat};
ghost use Rattle.base_types.specs.declared.fault.RoomsFault.TheVariants as rooms_fault;
ghost use Rattle.room_lock.specs.InOrder.{AreInOrder};
ghost use Rattle.room_lock.specs.steps.InOrder.{openings_in, openings_of};
ghost use Rattle.room_lock.specs.steps.Planned.{IsPlanOf};

use crate::new_room::{NewRoom, empty_states};
use crate::offered::Offered;
use crate::others::Others;
use crate::prefix::Prefix;
use crate::room::Room;
use crate::rooms::Rooms;
use crate::slot::Slot;
use base_types::{NoMemory, RoomName, RoomsFault, repeated_name};
use crossbeam_utils::CachePadded;
use indexmap::IndexMap;
use openings::{Blank, Register, RoomHistories};
use room_core::RoomState;
use rules::Limits;
use std::alloc::Global;
use std::marker::Model;
use std::sync::Wait;

/// The most rooms.
const MAX_ROOMS: usize = 1 << 49;

/// A plan of rooms, which `Rooms::new` creates, with the register that has their openings.
#[derive(Drop)]
pub struct NewRooms {
    states: Vec<RoomState>,
    names: Vec<RoomName>,
    /// How many rooms may be open besides.
    others: u32,
    /// Which rooms these may be.
    offered: Offered,
    limits: Limits,
    register: Blank,
}

impl Model for NewRooms {
    ghost use Rattle.std.specs.Prelude.{◌≡◌, All, map};
    ghost use Rattle.room_lock.specs.steps.Planned.{CanBeMade, Planned};

    ghost Value = { Planned };

    ghost view = { λ new. record {
      limits = new.limits;
      register = new.register;
      records = map (λ state. state.room.entries) new.states.items;
      names = new.names.items;
      others = new.others;
      offered = new.offered;
    } };

    ghost invariant = { λ new. CanBeMade (record {
      limits = new.limits;
      register = new.register;
      records = map (λ state. state.room.entries) new.states.items;
      names = new.names.items;
      others = new.others;
      offered = new.offered;
    })
        × All (λ state. state.room.limits ≡ new.limits) new.states.items };
}

impl NewRooms {
    /// Plans empty rooms of these names, in order.
    ///
    /// # Errors
    /// `SameName` if a name occurs twice. It gives the first place, from 0, whose name occurs at an
    /// earlier place.
    /// `NoMemory` if an allocation failed, or for more than 2^49 names.
    pub fn plan(alloc: Global, names: Vec<RoomName>, limits: Limits) -> Result<NewRooms, RoomsFault>
        ensures names { IfOk result (λ planned. planned.names ≡ names.items) }
        ensures limits { IfOk result (λ planned. planned.limits ≡ limits) }
        ensures others { IfOk result (λ planned. planned.others ≡ 0) }
        ensures empty { IfOk result (λ planned. All (λ r. r ≡ []) planned.records) }
        ensures apart { OnOk result (first_repeat bytes_eq names.items ≡ None) }
        ensures same_name { (place : ℕ) → IsErrOf result (RoomsFault.SameName place)
            ↔ (first_repeat bytes_eq names.items ≡ Some place) }
    {
        check_names(&names)?;
        let states = empty_states(alloc, limits, names.len())?;
        NewRooms::apart(names, limits, states)
    }

    /// Plans rooms of these names, in order. Each begins with the record at its place in `states`.
    ///
    /// # Errors
    /// `SameName` if a name occurs twice. It gives the first place, from 0, whose name occurs at an
    /// earlier place.
    /// `NoMemory` for more than 2^49 names.
    pub fn with_records(
        names: Vec<RoomName>,
        limits: Limits,
        states: Vec<RoomState>,
    ) -> Result<NewRooms, RoomsFault>
        // There is a record for each name, of a room with these limits:
        requires counted { length states.items ≡ length names.items }
        requires limits { All (λ state. state.room.limits ≡ limits) states.items }
        // The plan, where no name occurs twice:
        ensures names { IfOk result (λ planned. planned.names ≡ names.items) }
        ensures limits { IfOk result (λ planned. planned.limits ≡ limits) }
        ensures others { IfOk result (λ planned. planned.others ≡ 0) }
        ensures records { IfOk result (λ planned. planned.records
            ≡ map (λ state. state.room.entries) states.items) }
        ensures apart { OnOk result (first_repeat bytes_eq names.items ≡ None) }
        ensures same_name { (place : ℕ) → IsErrOf result (RoomsFault.SameName place)
            ↔ (first_repeat bytes_eq names.items ≡ Some place) }
    {
        check_names(&names)?;
        NewRooms::apart(names, limits, states)
    }

    /// Plans rooms of these names, none of which occurs twice.
    fn apart(
        names: Vec<RoomName>,
        limits: Limits,
        states: Vec<RoomState>,
    ) -> Result<NewRooms, RoomsFault>
        // There is a record for each name, of a room with these limits, and no name occurs twice:
        requires counted { length states.items ≡ length names.items }
        requires limits { All (λ state. state.room.limits ≡ limits) states.items }
        requires apart { first_repeat bytes_eq names.items ≡ None }
        // The plan:
        ensures names { IfOk result (λ planned. planned.names ≡ names.items) }
        ensures limits { IfOk result (λ planned. planned.limits ≡ limits) }
        ensures others { IfOk result (λ planned. planned.others ≡ 0) }
        ensures records { IfOk result (λ planned. planned.records
            ≡ map (λ state. state.room.entries) states.items) }
        ensures no_memory { IfErr result (λ why. why ≡ rooms_fault.NoMemory) }
    {
        if names.len() > MAX_ROOMS {
            return Err(RoomsFault::NoMemory);
        }
        Ok(NewRooms {
            states,
            names,
            others: 0,
            offered: Offered::Every,
            limits,
            register: Blank::new(),
        })
    }

    /// The same rooms, where so many others of those that are offered may be open at a time
    /// besides.
    pub fn and_on_demand(self, others: u32, offered: Offered) -> NewRooms
        ensures { result ≡ record self { others = others; offered = offered } }
    {
        NewRooms {
            others,
            offered,
            ..self
        }
    }
}

/// `SameName` if a name occurs twice, with the first place whose name occurs at an earlier place.
fn check_names(names: &[RoomName]) -> Result<(), RoomsFault>
    ensures apart { OnOk result (first_repeat bytes_eq names.now ≡ None) }
    ensures same_name { IfErr result (λ why. (place : ℕ) × (why ≡ rooms_fault.SameName place)
        × (first_repeat bytes_eq names.now ≡ Some place)) }
{
    match repeated_name(names) {
        Some(place) => Err(RoomsFault::SameName(place)),
        None => Ok(()),
    }
}

impl<P: RoomHistories> Rooms<P> {
    /// Creates the planned rooms: opens those that have a name in order, each at the place of its
    /// name. Returns them with the record that each begins with, in order. Linear in each record
    /// for each of its sites, and in the number of others.
    ///
    /// # Errors
    /// `NoMemory` if an allocation failed.
    pub fn new(
        rt: &impl Wait,
        alloc: Global,
        planned: NewRooms,
    ) -> Result<(Rooms<P>, Vec<Prefix<P>>), NoMemory>
        requires { IsPlanOf planned P.limits P.register }
        ensures rooms { IfOk result (λ made.
            made.0 ≡ record {
              names = planned.names;
              others = planned.others;
              offered = planned.offered;
            }) }
        ensures openings { IfOk result (λ made.
            AreInOrder planned.names (openings_of made.1.items)) }
        ensures records { IfOk result (λ made.
            map (λ begun. begun.entries) made.1.items ≡ planned.records) }
    {
        let NewRooms {
            states,
            names,
            others,
            offered,
            limits,
            register,
        } = planned;
        let mut register = register.into_register();
        let (rooms, begun) = make(rt, alloc, &mut register, states, &names)?;
        let others = Others::new(alloc, register, names.len(), others as usize)?;
        Ok((
            Rooms {
                rooms,
                others,
                offered,
                limits,
            },
            begun,
        ))
    }
}

/// The rooms that are open from the start, by name.
type FirstRooms<P> = IndexMap<RoomName, CachePadded<Slot<P>>>;

/// Opens a room under each name. Returns them with the records that they begin with.
fn make<P: RoomHistories>(
    rt: &impl Wait,
    alloc: Global,
    register: &mut Register<P>,
    states: Vec<RoomState>,
    names: &[RoomName],
) -> Result<(FirstRooms<P>, Vec<Prefix<P>>), NoMemory>
    // The register has no openings. The limits are those that the type names, there is a record for
    // each name, and no name occurs twice.
    requires register { register.old ≡ [] }
    requires limits { All (λ state. state.room.limits ≡ P.limits) states.items }
    requires counted { length states.items ≡ length names.now }
    requires few { length names.now ≤ 2 ^ 49 }
    requires apart { first_repeat bytes_eq names.now ≡ None }
    ensures rooms { IfOk result (λ made. keys made.0 ≡ names.now) }
    ensures in_order { IfOk result (λ made.
        AreInOrder names.now (openings_in made.0.entries)) }
    ensures openings { IfOk result (λ made.
        AreInOrder names.now (openings_of made.1.items)) }
    ensures records { IfOk result (λ made. map (λ begun. begun.entries) made.1.items
        ≡ map (λ state. state.room.entries) states.items) }
{
    let mut rooms = IndexMap::new(alloc);
    let mut begun = Vec::with_capacity(alloc, names.len())?;
    for state in states {
        let place = rooms.len();
        let name = names[place].copy(alloc)?;
        let new = NewRoom { place, name, state };
        begun.push(begin_room(rt, alloc, register, &mut rooms, new)?)?;
    }
    Ok((rooms, begun))
}

/// Opens a room, behind those that are there. Returns the record that it begins with.
fn begin_room<P: RoomHistories>(
    rt: &impl Wait,
    alloc: Global,
    register: &mut Register<P>,
    rooms: &mut FirstRooms<P>,
    new: NewRoom,
) -> Result<Prefix<P>, NoMemory>
    // The limits are those that the type names, and the name is new.
    requires limits { new.state.room.limits ≡ P.limits }
    requires name { get bytes_eq rooms.old new.name ≡ None }
    ensures rooms { OnOk result (keys rooms.new ≡ keys rooms.old ++ new.name ∷ []) }
    ensures openings { IfOk result (λ begun. openings_in rooms.new.entries
        ≡ openings_in rooms.old.entries ++ begun.opening ∷ []) }
    ensures register { OnOk result (length register.new ≡ length register.old + 1) }
    // The opening is the register's next, of this name and place:
    ensures number { IfOk result (λ begun. begun.opening.number ≡ length register.old) }
    ensures opened_name { IfOk result (λ begun. begun.opening.room.name ≡ new.name) }
    ensures opened_place { IfOk result (λ begun. begun.opening.room.place ≡ new.place) }
    ensures entries { IfOk result (λ begun. begun.entries ≡ new.state.room.entries) }
{
    let name = new.name.copy(alloc)?;
    let room = Room::open(rt, alloc, register, new)?;
    let begun = room.prefix();
    insert_new(rooms, name, CachePadded::new(Slot::new(room)))?;
    Ok(begun)
}

/// Appends a room under a new name.
pub(crate) fn insert_new<V: Drop>(
    rooms: &mut IndexMap<RoomName, V>,
    name: RoomName,
    room: V,
) -> Result<(), NoMemory>
    requires { get bytes_eq rooms.old name ≡ None }
    ensures ok { OnOk result (rooms.new.entries ≡ rooms.old.entries ++ (name, room) ∷ []) }
    ensures err { OnErr result (rooms.new.entries ≡ rooms.old.entries) }
{
    match rooms.insert(name, room) {
        Ok(_) => Ok(()),
        Err(_) => Err(NoMemory),
    }
}
