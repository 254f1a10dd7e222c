//! How a host answers the messages of its sessions, and when it lets the answers leave.

ghost use Rattle.std.specs.Prelude.{◌≡◌};

use crate::cause::{end_of_keep, end_of_message};
use crate::host::Host;
use crate::observer::Observer;
use crate::session::Session;
use connection::{Answer, End, Talk};
use keeper::Keeper;
use room_lock::{Prefix, RoomHistories};
use std::sync::Wait;
use wire_reader::Scratch;

impl<P: RoomHistories, R: Wait, O: Observer, K: Keeper<P>> Talk for Host<'_, P, R, O, K> {
    ghost use Rattle.sessions.specs.steps.Faults.{IsMessageFault, IsNotKept};
    ghost use Rattle.std.specs.Prelude.{◌≡◌, None};
    ghost use Rattle.sessions.specs.Sessions.{host_of};
    ghost use Rattle.sessions.specs.Turns.{IsTextOfTurn};
    ghost use Rattle.sessions.specs.Waits.{IsWait};

    type Session = Session<P>;

    type Reported = Prefix<P>;

    type Receipt = K::Receipt;

    type Scratch = Scratch;

    ghost turn = { λ host old new bytes text reported.
        IsTextOfTurn (host_of P.limits host.rooms.now K.permits K.denies) old new bytes reported
        text };

    ghost waits = { λ host session bytes. IsWait host.rooms.now session bytes };

    ghost blocks = { λ _ session. session.pass ≡ None };

    ghost fails = { λ host old new bytes end.
        IsMessageFault (host_of P.limits host.rooms.now K.permits K.denies) old new bytes end };

    ghost shows = { λ receipt reported. K.shows receipt reported };

    ghost lacks = { λ reported end. IsNotKept K.fails reported end };

    fn hear(
        &self,
        session: &mut Session<P>,
        scratch: &mut Scratch,
        bytes: &[u8],
        may_hold: bool,
    ) -> Result<Option<Answer<Prefix<P>>>, End> {
        match session.message(self, scratch, bytes, may_hold) {
            Ok(answer) => Ok(answer),
            Err(fault) => Err(end_of_message(fault)),
        }
    }

    /// A message that is held outside asks to enter a room, and what follows may rest on that.
    fn is_blocked(&self, session: &Session<P>) -> bool {
        session.is_outside()
    }

    fn receipt(&self, reported: &Prefix<P>) -> Result<Option<K::Receipt>, End> {
        match self.keeper.receipt(self.rt, reported) {
            Ok(receipt) => Ok(receipt),
            Err(fault) => Err(end_of_keep(fault)),
        }
    }
}
