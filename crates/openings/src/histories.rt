//! The limits of the rooms and the register of their openings. They exist in the proofs alone.

use std::marker::Brand;

/// The limits of the rooms and the register of their openings, which has the history of each. The
/// caller chooses one type for each register.
pub trait RoomHistories {
    ghost use Rattle.logbook.specs.Pages.{Book};
    ghost use Rattle.rules.specs.declared.limits.LimitValues.{LimitValues};

    ghost limits: { LimitValues };

    ghost register: { Book };
}

impl RoomHistories for Brand {
    ghost use Rattle.rules.specs.Limits.{full_limits};

    ghost limits = { full_limits };

    ghost register = { record { number = 0; log_name = 0; cells_name = 0 } };
}
