//! An answer that is ready and not yet carried out.

ghost use Rattle.std.specs.Prelude.{◌≡◌, None, option_map};
ghost use Rattle.std.specs.Arc.{arc_value};
ghost use Rattle.room_core.specs.steps.Plans.{entry_added};

use drawing::Addition;
use rules::Entry;
use std::marker::Model;
use std::sync::Arc;
use wire::Reply;

/// A reply that is ready, and the entry that is added with it, if there is one.
pub struct Planned {
    pub(crate) reply: Reply,
    pub(crate) addition: Option<Addition>,
}

impl Drop for Planned {
    fn drop(self) {
        let Planned {
            reply: _,
            addition: _,
        } = self;
    }
}

impl Model for Planned {
    ghost use Rattle.room_core.specs.steps.Plans.{Plan};

    ghost Value = { Plan };

    ghost view = { λ planned. record { reply = planned.reply; addition = planned.addition } };
}

impl Planned {
    /// The reply that will be given.
    pub fn reply(&self) -> &Reply
        ensures { result.now ≡ self.now.reply }
    {
        &self.reply
    }

    /// The entry that will be added, if there is one.
    pub fn entry(&self) -> Option<&Arc<Entry>>
        ensures { option_map (λ e. arc_value e.now) result ≡ entry_added self.now.addition }
    {
        match &self.addition {
            Some(addition) => Some(addition.entry()),
            None => None,
        }
    }

    /// The reply and the addition.
    pub(crate) fn into_parts(self) -> (Reply, Option<Addition>)
        ensures { result ≡ (self.reply, self.addition) }
    {
        let Planned { reply, addition } = self;
        (reply, addition)
    }

    /// A reply that changes nothing.
    pub fn of_reply(reply: Reply) -> Planned
        ensures reply { result.reply ≡ reply }
        ensures addition { result.addition ≡ None }
    {
        Planned {
            reply,
            addition: None,
        }
    }
}
