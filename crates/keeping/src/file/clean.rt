//! What shows that a room's file holds only what it keeps.

ghost use Rattle.std.specs.Prelude.{◌≡◌};

use std::marker::Model;

/// The proof at run time that a room's file held only what it keeps. Only the module of the file
/// creates one. Contracts see the number of the room's opening.
#[derive(Drop)]
pub struct Clean {
    number: u64,
}

impl Model for Clean {
    ghost use Rattle.std.specs.Prelude.{ℕ};

    ghost Value = { ℕ };

    ghost view = { λ clean. clean.number };
}

impl Clean {
    /// The file of the room of the opening of this number holds only what it keeps.
    pub(super) fn of(number: u64) -> Clean
        ensures { result ≡ number }
    {
        Clean { number }
    }

    /// A copy for the same room.
    pub fn copy(&self) -> Clean
        ensures { result ≡ self.now }
    {
        Clean {
            number: self.number,
        }
    }

    /// The number of the room's opening.
    pub fn number(&self) -> u64
        ensures { result ≡ self.now }
    {
        self.number
    }
}
