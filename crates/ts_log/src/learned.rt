//! The learned commands by position, and how many of them lead without a gap.

ghost use Rattle.std.specs.Prelude.{◌≡◌, ◌≤◌, ◌∷◌, ℕ, OnOk, None, Some, is_some, true, length};
ghost use Rattle.std.specs.Option.{option_copied};
ghost use Rattle.std.specs.Ordering.{nat_cmp};
ghost use Rattle.std.specs.BTreeMap.{get};
ghost use Rattle.ts_synod.specs.Lists.{update_at};
ghost use Rattle.ts_synod.specs.Log.{prefix};
ghost use Rattle.ts_log.specs.Maps.{learned_in};

use std::alloc::{AllocError, Global};
use std::collections::BTreeMap;
use ts_synod::put_at;

/// The last position of a log.
pub const LAST_POSITION: u32 = 1_000_000;

/// The learned commands. The count is kept beside the map, so that no call walks over the positions
/// before it.
#[derive(Drop)]
pub struct LearnedCommands<C> {
    commands: BTreeMap<u32, Option<C>>,
    count: u32,
    ghost counted: { count ≡ length (prefix (learned_in commands)) },
}

impl<C: Drop> LearnedCommands<C> {
    /// No command is learned.
    pub fn new(alloc: Global) -> LearnedCommands<C>
        ensures { (p : ℕ) → learned_in result.commands p ≡ None }
    {
        LearnedCommands {
            commands: BTreeMap::new(alloc),
            count: 0,
        }
    }

    /// How many commands lead without a gap.
    pub fn count(&self) -> u32
        ensures count { result ≡ length (prefix (learned_in self.now.commands)) }
        ensures most { result ≤ LAST_POSITION }
    {
        self.count
    }

    /// The command learned at a position.
    pub fn command(&self, position: u32) -> Option<&C>
        ensures { option_copied result ≡ learned_in self.now.commands position }
    {
        match self.commands.get(&position) {
            Some(Some(command)) => Some(command),
            _ => None,
        }
    }

    /// A command is learned at a position.
    pub fn is_learned(&self, position: u32) -> bool
        ensures { result ≡ is_some (learned_in self.now.commands position) }
    {
        self.command(position).is_some()
    }

    /// Makes a place at a position.
    pub fn reserve(&mut self, position: u32) -> Result<(), AllocError>
        ensures place { OnOk result (is_some (get nat_cmp self.new.commands position) ≡ true) }
        ensures same { learned_in self.new.commands ≡ learned_in self.old.commands }
    {
        reserve_in(&mut self.commands, position)
    }

    /// How many commands lead without a gap once this one is learned. It walks over the positions
    /// that join them, and so over each position once in the life of a log.
    pub fn count_with(&self, position: u32, command: &C) -> u32
        ensures count { result ≡ length
            (prefix (update_at (learned_in self.now.commands) position (Some command.now))) }
        ensures most { result ≤ LAST_POSITION }
    {
        let _command = command;
        let led = self.count();
        if led >= LAST_POSITION || position != led + 1 {
            return led;
        }
        let mut count = position;
        while count < LAST_POSITION && self.is_learned(count + 1) {
            count += 1;
        }
        count
    }

    /// Puts a command at its place, with the count that this makes.
    pub fn put(&mut self, position: u32, command: C, count: u32)
        requires place { is_some (get nat_cmp self.old.commands position) ≡ true }
        requires count { count ≡ length
            (prefix (update_at (learned_in self.old.commands) position (Some command))) }
        ensures { learned_in self.new.commands
            ≡ update_at (learned_in self.old.commands) position (Some command) }
    {
        put_at(&mut self.commands, position, Some(command));
        self.count = count;
    }
}

/// Makes a place at a position.
fn reserve_in<C: Drop>(
    commands: &mut BTreeMap<u32, Option<C>>,
    position: u32,
) -> Result<(), AllocError>
    ensures place { OnOk result (is_some (get nat_cmp commands.new position) ≡ true) }
    ensures same { learned_in commands.new ≡ learned_in commands.old }
{
    if !commands.contains_key(&position) {
        commands.insert(position, None)?;
    }
    Ok(())
}
