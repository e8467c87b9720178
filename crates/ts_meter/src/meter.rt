//! Counts that several hold.

use std::cell::Cell;

/// How often disks were written and synced.
#[derive(Drop)]
pub struct Meter {
    writes: Cell<u64>,
    syncs: Cell<u64>,
}

impl Meter {
    /// Nothing was done.
    pub fn new() -> Meter {
        Meter {
            writes: Cell::new(0),
            syncs: Cell::new(0),
        }
    }

    /// How often octets were written.
    pub fn writes(&self) -> u64 {
        self.writes.get()
    }

    /// How often a disk was synced.
    pub fn syncs(&self) -> u64 {
        self.syncs.get()
    }

    /// Octets are written.
    pub(crate) fn write(&self) {
        self.writes.set(self.writes.get().saturating_add(1));
    }

    /// A disk is synced.
    pub(crate) fn sync(&self) {
        self.syncs.set(self.syncs.get().saturating_add(1));
    }
}
