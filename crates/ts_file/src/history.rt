//! What was done to a file, which only contracts see.

ghost use Rattle.std.specs.Prelude.{◌≡◌, List, [], ◌∷◌};
ghost use Rattle.std.specs.Borrow.{ftrue};
ghost use Rattle.ts_file.specs.History.{Event, event_of};

use std::marker::{Model, PhantomData};

/// What was done to a file since it was opened, the last first. It takes no memory: no code can
/// read it.
#[derive(Drop)]
pub struct History {
    marker: PhantomData<u8>,
    pub ghost events: { List Event },
}

impl Model for History {
    ghost also_owns = { λ _. ftrue };
}

impl History {
    /// The history of a file to which nothing was done.
    pub(crate) fn new() -> History
        ensures { result.events ≡ [] }
    {
        History {
            marker: PhantomData,
        }
    }

    /// Notes a kind and an offset, with octets.
    pub(crate) fn note(&mut self, _numbers: &[u64], _octets: &[u8])
        ensures { self.new.events ≡ event_of _numbers.now _octets.now ∷ self.old.events }
    {}
}
