//! The rule of the register's logbook, and its one step.

use crate::new_opening::NewOpening;
use logbook::{Gain, Plain, Play, Rule};

/// The rule: the shared word is the number of openings.
pub struct Law;

impl Rule<NewOpening, u64> for Law {
    ghost use Rattle.std.specs.Prelude.{[]};
    ghost use base.Fml.{ftrue};
    ghost use Rattle.openings.specs.steps.Rules.{CountsOpenings};

    ghost holds = { λ cells log. CountsOpenings cells log };

    ghost first = { [] };

    ghost hinted = { λ count log. Unit {0} };

    ghost shows = { λ log. [] };

    ghost keeps = { λ names log. ftrue };

    ghost moves = { λ ask before after answer. Unit {0} };
}

/// The step gives its caller nothing in return.
pub struct Nothing;

impl Gain<NewOpening, u64> for Nothing {
    ghost use base.Fml.{ftrue};

    ghost after = { λ names about answer. ftrue };
}

/// The step that enters a room.
pub struct Enter;

impl Play<NewOpening, u64> for Enter {
    ghost use Rattle.openings.specs.steps.Rules.{Enters};

    ghost then = { Enters };
}

/// A caller asks for the step by the room.
impl Plain<NewOpening, NewOpening, u64> for Enter {
    ghost use Rattle.std.specs.Prelude.{None};

    ghost ask = { λ room. room };

    ghost state = { λ room. None };
}
