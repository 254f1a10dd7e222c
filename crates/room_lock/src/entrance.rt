//! The result of a join or a coming back.

use crate::in_use::InUse;
use crate::pass::Pass;
use crate::prefix::Prefix;
use openings::RoomHistories;
use wire::Reply;

/// The result of a join or a coming back.
pub enum Entrance<P: RoomHistories> {
    /// A site was let in: its pass, and the reply.
    Entered(Pass<P>, Reply),
    /// The room refused: the record at that time, and the reply.
    Refused(Prefix<P>, Reply),
    /// The room refused, since a session is in as the site: the proof of that, and the reply.
    InUse(InUse<P>, Reply),
    /// None of the rooms has the opening.
    NoRoom,
}
