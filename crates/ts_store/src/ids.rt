//! The first command of each id.

ghost use Rattle.std.specs.Cmp.Lexicographic.{slice_cmp};
ghost use Rattle.std.specs.Ordering.{nat_cmp};
ghost use Rattle.std.specs.Prelude.{◌≡◌, [], is_some, true, OnOk, OnErr};
ghost use Rattle.ts_store.specs.Ids.{first_of, with_first, without};

use std::alloc::{AllocError, Global};
use std::collections::BTreeMap;
use std::marker::Model;
use ts_command::Outcome;

/// The first command of an id: its position, and what it came to.
#[derive(Clone, Copy, Debug, PartialEq, Eq)]
pub struct FirstCommand {
    pub position: u32,
    pub outcome: Outcome,
}

/// The first command of each id so far.
///
/// Clients choose the ids, so they are kept in order: whatever ids are chosen, a look-up takes a
/// number of steps that grows with the logarithm of theirs.
#[derive(Drop)]
pub(crate) struct Ids {
    firsts: BTreeMap<[u8; 16], FirstCommand>,
}

impl Model for Ids {
    ghost use Rattle.std.specs.Prelude.{ℕ, List};
    ghost use Rattle.ts_store.specs.declared.ids.FirstCommand.{FirstCommand as Stated};

    ghost Value = { List (List ℕ × Stated) };

    ghost view = { λ i. i.firsts.entries };
}

impl Ids {
    /// No ids.
    pub(crate) fn new(alloc: Global) -> Ids
        ensures { result ≡ [] }
    {
        Ids {
            firsts: BTreeMap::new(alloc),
        }
    }

    /// The first command of an id, if there is one.
    pub(crate) fn first(&self, id: &[u8; 16]) -> Option<FirstCommand>
        ensures { result ≡ first_of id.now self.now }
    {
        match self.firsts.get(id) {
            Some(first) => Some(*first),
            None => None,
        }
    }

    /// Holds an id for a command.
    pub(crate) fn hold(&mut self, id: [u8; 16], first: FirstCommand) -> Result<(), AllocError>
        ensures held { OnOk result (self.new ≡ with_first id first self.old) }
        ensures memory { OnErr result (self.new ≡ self.old) }
    {
        self.firsts.insert(id, first)?;
        Ok(())
    }

    /// Puts another command in the place of that of an id that is held, which takes no memory.
    pub(crate) fn settle(&mut self, id: [u8; 16], first: FirstCommand)
        requires { is_some (first_of id self.now) ≡ true }
        ensures { self.new ≡ with_first id first self.old }
    {
        let _old = self.firsts.insert(id, first);
    }

    /// Gives an id free.
    pub(crate) fn forget(&mut self, id: &[u8; 16])
        ensures { self.new ≡ without id.now self.old }
    {
        let _first = self.firsts.remove(id);
    }
}
