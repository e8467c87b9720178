//! The commands that a store took, and its tables after any number of them.

ghost use Rattle.std.specs.Prelude.{◌≡◌, ◌<◌, ◌≤◌, ◌++◌, ◌∷◌, [], length, take, IfOk, OnOk, OnErr};
ghost use Rattle.ts_store.specs.Ids.{first_of};
ghost use Rattle.ts_store.specs.Store.{store_after};
ghost use Rattle.ts_store.specs.Contents.{contents_of, no_contents};
ghost use Rattle.ts_store.specs.inside.History.{change_if, replay};
ghost use Rattle.ts_store.specs.Outcome.{outcome_after};

use crate::snapshot::Snapshot;
use crate::taken::{TableChange, TakenCommand, taken_of};
use crate::{FirstCommand, Store, Tables};
use std::alloc::{AllocError, Global};
use std::marker::Model;
use ts_command::{Command, Outcome};

/// The commands that a store took, what each changed, and the store after them. Contracts see the
/// list of the commands.
#[derive(Drop)]
pub struct History {
    alloc: Global,
    taken: Vec<TakenCommand>,
    store: Store,
}

impl Model for History {
    ghost use Rattle.std.specs.Prelude.{List};
    ghost use Rattle.ts_command.specs.declared.command.Command.{Command as Stated};
    ghost use Rattle.ts_store.specs.inside.History.{IsHistory, commands_in};

    ghost Value = { List Stated };

    ghost view = { λ h. commands_in h.taken.items };

    ghost invariant = { λ h. IsHistory h.taken.items h.store };
}

/// What a command with this outcome changed: this where it was applied, else nothing.
fn change_made(outcome: Outcome, change: TableChange) -> TableChange
    ensures { result ≡ change_if outcome change }
{
    match outcome {
        Outcome::Applied => change,
        Outcome::Repeated(_) | Outcome::Refused(_) => TableChange::Nothing,
    }
}

impl History {
    /// No commands.
    pub fn new(alloc: Global) -> History
        ensures { result ≡ [] }
    {
        History {
            alloc,
            taken: Vec::new(alloc),
            store: Store::new(alloc),
        }
    }

    /// How many commands were taken.
    pub fn count(&self) -> u32
        ensures { result ≡ length self.now }
    {
        self.store.taken()
    }

    /// Takes the command of the next position, of which it keeps a copy, and answers what it came
    /// to.
    ///
    /// # Errors
    ///
    /// Out of memory. Nothing is changed then.
    pub fn push(&mut self, command: &Command) -> Result<Outcome, AllocError>
        requires { length self.old < 1000000 }
        ensures outcome { IfOk result (λ outcome. outcome ≡ outcome_after self.old command.now) }
        ensures pushed { OnOk result (self.new ≡ self.old ++ command.now ∷ []) }
        ensures refused { OnErr result (self.new ≡ self.old) }
    {
        let TakenCommand { kept, change } = taken_of(self.alloc, self.store.tables(), command)?;
        self.taken.reserve(1)?;
        let position = self.store.taken() + 1;
        let outcome = self.store.apply(position, command)?;
        let change = change_made(outcome, change);
        match self.taken.push(TakenCommand { kept, change }) {
            Ok(()) => Ok(outcome),
            Err(_) => unreachable!(),
        }
    }

    /// The first command that had an id: its position, and what it came to.
    pub fn first(&self, id: &[u8; 16]) -> Option<FirstCommand>
        ensures { result ≡ first_of id.now (store_after self.now).ids }
    {
        self.store.first(id)
    }

    /// The tables after all commands.
    pub fn tables(&self) -> &Tables
        ensures { result.now ≡ (store_after self.now).tables }
    {
        self.store.tables()
    }

    /// The tables after the first k commands, borrowed. Where these are not all, it takes k steps,
    /// each of which changes one place of a list of references.
    ///
    /// # Errors
    ///
    /// Out of memory.
    pub fn at(&self, alloc: Global, k: u32) -> Result<Snapshot<'_>, AllocError>
        requires { k ≤ length self.now }
        ensures { IfOk result (λ snapshot. snapshot
            ≡ contents_of (store_after (take k self.now)).tables) }
    {
        if k == self.store.taken() {
            return Snapshot::of(alloc, self.store.tables());
        }
        replay(alloc, &self.taken[..k as usize])
    }
}

/// The tables after these commands.
fn replay(alloc: Global, taken: &[TakenCommand]) -> Result<Snapshot<'_>, AllocError>
    ensures { IfOk result (λ snapshot. snapshot ≡ replay no_contents taken.now) }
{
    let mut snapshot = Snapshot::empty(alloc);
    for one in taken {
        snapshot.change(one)?;
    }
    Ok(snapshot)
}
