//! Laws of the definitions. These functions have no effect at run time.

ghost use Rattle.std.specs.Prelude.{◌≡◌, ◌⊎◌, ◌∷◌, ◌++◌, ℕ, Contains, None, Some, true};
ghost use Rattle.base_types.specs.Texts.{Bytes};
ghost use Rattle.base_types.specs.RoomNames.{first_name};
ghost use Rattle.rules.specs.declared.limits.LimitValues.{LimitValues};
ghost use Rattle.scope.specs.Scopes.{IsQuery, allows, scope_of_target};
ghost use Rattle.room_lock.specs.InOrder.{IsOpeningFor};
ghost use Rattle.room_lock.specs.Passes.{PassView, PrefixView};
ghost use Rattle.room_lock.specs.Rooms.{RoomsView};
ghost use Rattle.room_lock.specs.Calls.{IsRefusalOver};
ghost use Rattle.sessions.specs.Sessions.{SessionTurn, host_of};
ghost use Rattle.sessions.specs.Entering.{IsBackBy, IsJoinBy, IsLetIn, IsPermittedJoin, IsSentOn};
ghost use Rattle.sessions.specs.Entering.{IsTurnedAway, MayEnter};
ghost use Rattle.sessions.specs.Turns.{IsTurn};

use keeper::Keeper;
use room_lock::RoomHistories;

/// A session that is let in by a join or a coming back is in the named room.
pub fn a_session_enters_the_named_room<P: RoomHistories, K: Keeper<P>>()
    ensures join { (limits : LimitValues) (rooms : RoomsView) (name : Bytes) (turn : SessionTurn)
        (pass : PassView) → IsJoinBy (host_of limits rooms K.permits K.denies) name turn →
        turn.new.pass ≡ Some pass →
        (allows turn.old.scope name ≡ true) × (pass.room ≡ name)
        × IsOpeningFor rooms name pass.part.opening }
    ensures back { (limits : LimitValues) (rooms : RoomsView) (name : Bytes) (site : ℕ)
        (turn : SessionTurn) (pass : PassView) →
        IsBackBy (host_of limits rooms K.permits K.denies) name site turn →
        turn.new.pass ≡ Some pass →
        (allows turn.old.scope name ≡ true) × (pass.room ≡ name)
        × IsOpeningFor rooms name pass.part.opening }
{}

/// A session that is in a room stays in it until it leaves.
pub fn a_session_stays_in_its_room<P: RoomHistories, K: Keeper<P>>()
    ensures { (limits : LimitValues) (rooms : RoomsView) (bytes : Bytes) (turn : SessionTurn)
        (was now : PassView) → turn.old.pass ≡ Some was → turn.new.pass ≡ Some now →
        IsTurn (host_of limits rooms K.permits K.denies) bytes turn →
        (now.room ≡ was.room) × (now.part.opening ≡ was.part.opening) }
{}

/// A session whose scope is that of its request's target enters a room only if the target is a
/// slash and the name of the first room of its chain, and then nothing or a query.
pub fn a_session_enters_only_the_chain_of_its_path<P: RoomHistories, K: Keeper<P>>()
    ensures { (limits : LimitValues) (rooms : RoomsView) (target bytes : Bytes)
        (turn : SessionTurn) (pass : PassView) → turn.old.scope ≡ scope_of_target target →
        turn.old.pass ≡ None → turn.new.pass ≡ Some pass →
        IsTurn (host_of limits rooms K.permits K.denies) bytes turn →
        (query : Bytes) × (target ≡ 47 ∷ first_name pass.room ++ query) × IsQuery query }
{}

/// What the reply to a join or a coming back reports is a record of the named room. What a reply
/// in a room reports is a record of that room.
pub fn a_reply_reports_on_the_room_of_the_session<P: RoomHistories, K: Keeper<P>>()
    ensures join { (limits : LimitValues) (rooms : RoomsView) (name : Bytes) (turn : SessionTurn)
        (reported : PrefixView) → IsJoinBy (host_of limits rooms K.permits K.denies) name turn →
        turn.reported ≡ Some reported →
        MayEnter turn.old.scope rooms name → IsOpeningFor rooms name reported.opening }
    ensures back { (limits : LimitValues) (rooms : RoomsView) (name : Bytes) (site : ℕ)
        (turn : SessionTurn) (reported : PrefixView) →
        IsBackBy (host_of limits rooms K.permits K.denies) name site turn →
        turn.reported ≡ Some reported →
        MayEnter turn.old.scope rooms name → IsOpeningFor rooms name reported.opening }
    ensures inside { (limits : LimitValues) (rooms : RoomsView) (bytes : Bytes)
        (turn : SessionTurn) (was : PassView) (reported : PrefixView) →
        turn.old.pass ≡ Some was → turn.reported ≡ Some reported →
        IsTurn (host_of limits rooms K.permits K.denies) bytes turn →
        reported.opening ≡ was.part.opening }
{}

/// Where no room is denied, no join of a room that is open from the start is refused as not served.
/// A site is let in, or turned away by the room, or told of a later room of the chain.
pub fn a_room_that_is_not_denied_is_served<P: RoomHistories, K: Keeper<P>>()
    ensures { (limits : LimitValues) (rooms : RoomsView) (name : Bytes) (turn : SessionTurn) →
        let host = host_of limits rooms K.permits K.denies in
        ((number : ℕ) → ¬ (K.denies number)) → Contains rooms.names name →
        IsJoinBy host name turn →
        IsLetIn (IsPermittedJoin host) rooms name turn
        ⊎ IsTurnedAway (IsRefusalOver limits) rooms name turn ⊎ IsSentOn name turn }
{}

/// Two sessions that are let into rooms of one name, which is open from the start, are in one
/// room. By `Prefix::begins`, of what they have seen the shorter then begins the longer.
pub fn one_name_is_one_room()
    ensures { (rooms : RoomsView) (one other : PassView) → Contains rooms.names one.room →
        IsOpeningFor rooms one.room one.part.opening →
        IsOpeningFor rooms other.room other.part.opening → one.room ≡ other.room →
        one.part.opening.number ≡ other.part.opening.number }
{}
