//! The trust store.

ghost use Rattle.std.specs.Prelude.{◌≡◌, suc, IfOk, OnOk, OnErr};
ghost use Rattle.ts_store.specs.Ids.{first_of};
ghost use Rattle.ts_store.specs.Store.{step, empty};

use crate::anchor::TrustAnchor;
use crate::ids::{FirstCommand, Ids};
use crate::stored::StoredCrl;
use crate::tables::Tables;
use std::alloc::{AllocError, Global};
use std::marker::Model;
use ts_command::{Command, Outcome};

/// A trust store after commands: its tables, the first command of each id, and how many commands
/// there were. What one more command costs does not grow with their number, but for the look-up of
/// its id, which grows with the logarithm of that.
#[derive(Drop)]
pub struct Store {
    alloc: Global,
    tables: Tables,
    ids: Ids,
    taken: u32,
}

impl Model for Store {
    ghost use Rattle.ts_store.specs.Store.{StoreState};

    ghost Value = { StoreState };

    ghost view = { λ s. record { tables = s.tables; ids = s.ids; taken = s.taken } };
}

impl Store {
    /// The store before any command.
    pub fn new(alloc: Global) -> Store
        ensures { result ≡ empty }
    {
        Store {
            alloc,
            tables: Tables::new(alloc),
            ids: Ids::new(alloc),
            taken: 0,
        }
    }

    /// Takes the command at a position, and answers what it came to. Its position is the next one:
    /// 1, or one more than that of the command before, whatever that came to.
    ///
    /// # Errors
    ///
    /// Out of memory. Nothing is changed then.
    pub fn apply(&mut self, position: u32, command: &Command) -> Result<Outcome, AllocError>
        requires { position ≡ suc self.now.taken }
        ensures done { IfOk result (λ outcome. step position command.now self.old
            ≡ (record { state = self.new; outcome = outcome })) }
        ensures taken { OnOk result (self.new.taken ≡ position) }
        ensures memory { OnErr result (self.new ≡ self.old) }
    {
        let id = command.id();
        if let Some(first) = self.ids.first(&id) {
            self.taken = position;
            return Ok(Outcome::Repeated(first.position));
        }
        let outcome = Outcome::Applied;
        self.ids.hold(id, FirstCommand { position, outcome })?;
        let refusal = match self.tables.change(self.alloc, command) {
            Ok(refusal) => refusal,
            Err(error) => {
                self.ids.forget(&id);
                return Err(error);
            }
        };
        self.taken = position;
        match refusal {
            None => Ok(outcome),
            Some(refusal) => {
                let outcome = Outcome::Refused(refusal);
                self.ids.settle(id, FirstCommand { position, outcome });
                Ok(outcome)
            }
        }
    }

    /// The first command that had an id, if one had it.
    pub fn first(&self, id: &[u8; 16]) -> Option<FirstCommand>
        ensures { result ≡ first_of id.now self.now.ids }
    {
        self.ids.first(id)
    }

    /// How many commands there were, whatever they came to.
    pub fn taken(&self) -> u32
        ensures { result ≡ self.now.taken }
    {
        self.taken
    }

    /// The anchors and the CRLs.
    pub fn tables(&self) -> &Tables
        ensures { result.now ≡ self.now.tables }
    {
        &self.tables
    }

    /// The trust anchors, in their order.
    pub fn anchors(&self) -> &[TrustAnchor]
        ensures { result.now ≡ self.now.tables.anchors }
    {
        self.tables.anchors()
    }

    /// The complete CRLs, in their order.
    pub fn crls(&self) -> &[StoredCrl]
        ensures { result.now ≡ self.now.tables.complete }
    {
        self.tables.crls()
    }

    /// The delta CRLs, in their order.
    pub fn deltas(&self) -> &[StoredCrl]
        ensures { result.now ≡ self.now.tables.deltas }
    {
        self.tables.deltas()
    }
}
