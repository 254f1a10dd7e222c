//! Which of the threads that share orders sleep.

ghost use Rattle.std.specs.Prelude.{◌≡◌, IfOk, replicate, slice_set};
ghost use Rattle.keeping.specs.declared.sleepers.Bed.TheVariants.{Free, Asleep, Woken};
ghost use Rattle.keeping.specs.steps.Beds.{FirstTurns};

use base_types::NoMemory;
use std::alloc::Global;
use std::marker::Model;

/// Whether a thread sleeps in a bed.
#[derive(Clone, Copy, PartialEq, Eq)]
enum Bed {
    /// No thread has it.
    Free,
    /// A thread sleeps in it.
    Asleep,
    /// The thread in it is being woken.
    Woken,
}

/// The beds in which threads sleep, one in each. A thread takes the first free one, and the first
/// that sleeps is woken. So where there is little to do, the same few threads do it: the allocator
/// keeps memory for each thread that opens and closes rooms.
#[derive(Drop)]
pub(crate) struct Sleepers {
    beds: Vec<Bed>,
}

impl Model for Sleepers {
    ghost use Rattle.std.specs.Prelude.{List};
    ghost use Rattle.keeping.specs.declared.sleepers.Bed.{Bed};

    ghost Value = { List Bed };

    ghost view = { λ sleepers. sleepers.beds.items };
}

impl Sleepers {
    /// So many free beds.
    ///
    /// # Errors
    /// `NoMemory` if an allocation failed.
    pub(crate) fn none(alloc: Global, beds: usize) -> Result<Sleepers, NoMemory>
        ensures { IfOk result (λ sleepers. sleepers ≡ replicate beds Free) }
    {
        Ok(Sleepers {
            beds: vec![in alloc; Bed::Free; beds]?,
        })
    }

    /// Takes a bed for a thread that falls asleep. `None` if no bed is free.
    pub(crate) fn fall_asleep(&mut self) -> Option<usize>
        ensures { FirstTurns Free Asleep self.old result self.new }
    {
        self.turn_first(Bed::Free, Bed::Asleep)
    }

    /// The bed of the thread that is to be woken next. `None` if no thread sleeps.
    pub(crate) fn wake_first(&mut self) -> Option<usize>
        ensures { FirstTurns Asleep Woken self.old result self.new }
    {
        self.turn_first(Bed::Asleep, Bed::Woken)
    }

    /// The thread in this bed is awake.
    pub(crate) fn leave(&mut self, bed: usize)
        ensures { self.new ≡ slice_set self.old bed Free }
    {
        if let Some(left) = self.beds.get_mut(bed) {
            *left = Bed::Free;
        }
    }

    /// Has the first bed that is `from` become `to`. Gives its number.
    fn turn_first(&mut self, from: Bed, to: Bed) -> Option<usize>
        ensures { FirstTurns from to self.old result self.new }
    {
        let found = self.beds.iter().position(|bed| *bed == from)?;
        if let Some(bed) = self.beds.get_mut(found) {
            *bed = to;
        }
        Some(found)
    }
}
