//! What a turn makes: the facts of an input, and of the messages to the node itself that follow
//! from it, on roles that are ahead of the record.

ghost use Rattle.std.specs.Prelude.{◌≡◌, ◌≤◌, ◌<◌, ◌+◌, ◌⊎◌, ◌++◌, List, length, IfOk, OnOk};
ghost use Rattle.std.specs.Prelude.{OnErr, true, false, []};
ghost use Rattle.ts_synod.specs.declared.message.Fact.{Fact};
ghost use Rattle.ts_synod.specs.declared.message.Message.{Message};
ghost use Rattle.ts_synod.specs.Config.{Config};
ghost use Rattle.ts_synod.specs.Node as world;
ghost use Rattle.ts_log.specs.Log.{learned_of};
ghost use Rattle.ts_node.specs.Machine.{store_of};
ghost use Rattle.ts_node.specs.Growing.{IsPart};
ghost use Rattle.ts_node.specs.Roles.{StandFor, config_of};
ghost use Rattle.ts_node.specs.inside.Roles.{IsLatest, facts_in, volatile_after};
ghost use Rattle.ts_node.specs.Roles.{volatile_of};
ghost use Rattle.ts_node.specs.inside.Staged.{IsFull, IsHeld, IsSoFar};

use crate::growth::push_copies;
use crate::machine::Machine;
use crate::plan::Plan;
use crate::roles::Roles;
use crate::room::room_for;
use std::alloc::{AllocError, Global};
use ts_synod::{Codec, Command, Fact, Message};

/// The most messages that a turn looks at.
const MAX_LOOKS: usize = 64;

/// What a turn has made so far.
#[derive(Drop)]
pub(crate) struct Turn<C> {
    /// How many octets the facts take that were made before and are to be kept together with its
    /// own.
    pub before: usize,
    pub facts: Vec<Fact<C>>,
    /// How many octets the facts take in a record, with those before them.
    pub size: usize,
    /// All messages that were made, to the node itself too.
    pub messages: Vec<Message<C>>,
    /// How many of these were looked at. Of those the ones to the node itself were taken.
    pub looked: usize,
}

/// The facts of turns that a node has made in memory, and that wait to be kept at once.
#[derive(Drop)]
pub struct StagedFacts<C> {
    pub(crate) facts: Vec<Fact<C>>,
    /// How many octets the facts take in a record.
    pub(crate) size: usize,
}

impl<C> StagedFacts<C> {
    /// No facts.
    pub fn empty(alloc: Global) -> StagedFacts<C>
        ensures facts { result.facts.items ≡ [] }
        ensures size { result.size ≡ 0 }
    {
        StagedFacts {
            facts: Vec::new(alloc),
            size: 0,
        }
    }
}

impl<C> Turn<C> {
    /// A turn that has made nothing, behind facts of so many octets.
    pub fn behind(alloc: Global, before: usize) -> Turn<C>
        ensures before { result.before ≡ before }
        ensures facts { result.facts.items ≡ [] }
        ensures size { result.size ≡ before }
        ensures messages { result.messages.items ≡ [] }
        ensures looked { result.looked ≡ 0 }
    {
        Turn {
            before,
            facts: Vec::new(alloc),
            size: before,
            messages: Vec::new(alloc),
            looked: 0,
        }
    }
}

impl<C: Command + Codec> Roles<C> {
    /// Makes a plan's change, and puts its facts, of which there are so many octets with those
    /// before them, and its messages behind those of the turn. At an error nothing is changed but
    /// the turn.
    pub fn advance(
        &mut self,
        plan: Plan<C>,
        size: usize,
        turn: &mut Turn<C>,
    ) -> Result<(), AllocError>
        requires { IsLatest self.old plan.change }
        ensures facts { OnOk result
            (turn.new.facts.items ≡ turn.old.facts.items ++ facts_in plan.change) }
        ensures messages { OnOk result
            (turn.new.messages.items ≡ turn.old.messages.items ++ plan.messages.items) }
        ensures size { OnOk result (turn.new.size ≡ size) }
        ensures before { turn.new.before ≡ turn.old.before }
        ensures looked { turn.new.looked ≡ turn.old.looked }
        ensures stand { OnOk result ((facts : List (Fact C)) → StandFor self.old facts
            → StandFor self.new (facts ++ facts_in plan.change)) }
        ensures volatile { OnOk result
            (volatile_of self.new ≡ volatile_after self.old plan.change) }
        ensures config { config_of self.new ≡ config_of self.old }
        ensures refused { OnErr result (self.new ≡ self.old) }
    {
        let Plan { messages, change } = plan;
        let mut messages = messages;
        push_copies(self.alloc, &mut turn.facts, change.facts())?;
        turn.messages.append(&mut messages)?;
        turn.size = size;
        self.keep(change);
        Ok(())
    }

    /// Looks at the next message of a turn, and takes it if it is one to the node itself. `false`
    /// where there is no room for its facts; then it is not taken.
    fn look<M: Machine<C>>(
        &mut self,
        machine: &mut M,
        turn: &mut Turn<C>,
    ) -> Result<bool, AllocError>
        requires more { turn.old.looked < length turn.old.messages.items }
        requires held { IsHeld C.octets turn.old }
        requires stand { (facts : List (Fact C)) × StandFor self.old facts }
        requires part { IsPart (M.commands machine.old) (learned_of self.old.log) }
        ensures so_far { OnOk result ((config : Config) (kept : List (Fact C))
            (volatile : world.Volatile C) (sent : List (Message C))
            (event : world.Input C M.Question)
            → IsSoFar (store_of M.Question M.client_id M.outcome) config kept volatile sent event
            self.old turn.old
            → IsSoFar (store_of M.Question M.client_id M.outcome) config kept volatile sent event
            self.new turn.new) }
        ensures looked { IfOk result (λ went. went ≡ true
            → turn.new.looked ≡ turn.old.looked + 1) }
        ensures stays { IfOk result (λ went. went ≡ false → turn.new.looked ≡ turn.old.looked) }
        ensures before { turn.new.before ≡ turn.old.before }
        ensures full { IfOk result (λ went. went ≡ false
            → (config : Config) (kept : List (Fact C)) (volatile : world.Volatile C)
            (sent : List (Message C)) (event : world.Input C M.Question)
            → IsSoFar (store_of M.Question M.client_id M.outcome) config kept volatile sent event
            self.old turn.old
            → IsFull C.octets (store_of M.Question M.client_id M.outcome) config kept sent
            self.new turn.new) }
        ensures held { OnOk result (IsHeld C.octets turn.new) }
        ensures stand { OnOk result ((facts : List (Fact C)) × StandFor self.new facts) }
        ensures on { OnOk result ((kept : List (Fact C))
            → StandFor self.old (kept ++ turn.old.facts.items)
            → StandFor self.new (kept ++ turn.new.facts.items)) }
        ensures part { OnOk result (IsPart (M.commands machine.new) (learned_of self.new.log)) }
        ensures config { config_of self.new ≡ config_of self.old }
        ensures basis { M.basis machine.new ≡ M.basis machine.old }
    {
        let message = &turn.messages[turn.looked];
        if message.to != self.me {
            turn.looked += 1;
            return Ok(true);
        }
        let plan = self.plan_message(machine, message)?;
        let Some(size) = room_for(self.alloc, plan.change.facts(), turn.size)? else {
            return Ok(false);
        };
        self.advance(plan, size, turn)?;
        turn.looked += 1;
        Ok(true)
    }

    /// Takes the messages of a turn to the node itself, until there are no more of them, or no room
    /// for their facts, or it has looked at 64 messages.
    pub fn take_own<M: Machine<C>>(
        &mut self,
        machine: &mut M,
        turn: &mut Turn<C>,
    ) -> Result<(), AllocError>
        requires none { turn.old.looked ≡ 0 }
        requires held { IsHeld C.octets turn.old }
        requires stand { (facts : List (Fact C)) × StandFor self.old facts }
        requires part { IsPart (M.commands machine.old) (learned_of self.old.log) }
        ensures so_far { OnOk result ((config : Config) (kept : List (Fact C))
            (volatile : world.Volatile C) (sent : List (Message C))
            (event : world.Input C M.Question)
            → IsSoFar (store_of M.Question M.client_id M.outcome) config kept volatile sent event
            self.old turn.old
            → IsSoFar (store_of M.Question M.client_id M.outcome) config kept volatile sent event
            self.new turn.new) }
        ensures ends { OnOk result ((config : Config) (kept : List (Fact C))
            (volatile : world.Volatile C) (sent : List (Message C))
            (event : world.Input C M.Question)
            → IsSoFar (store_of M.Question M.client_id M.outcome) config kept volatile sent event
            self.old turn.old
            → (turn.new.looked ≡ length turn.new.messages.items) ⊎ (turn.new.looked ≡ 64)
            ⊎ IsFull C.octets (store_of M.Question M.client_id M.outcome) config kept sent
            self.new turn.new) }
        ensures on { OnOk result ((kept : List (Fact C))
            → StandFor self.old (kept ++ turn.old.facts.items)
            → StandFor self.new (kept ++ turn.new.facts.items)) }
        ensures held { OnOk result (IsHeld C.octets turn.new) }
        ensures before { turn.new.before ≡ turn.old.before }
        ensures few { OnOk result (turn.new.looked ≤ 64) }
        ensures part { OnOk result (IsPart (M.commands machine.new) (learned_of self.new.log)) }
        ensures config { config_of self.new ≡ config_of self.old }
        ensures basis { M.basis machine.new ≡ M.basis machine.old }
    {
        for _look in 0..MAX_LOOKS {
            if turn.looked >= turn.messages.len() {
                return Ok(());
            }
            if !self.look(machine, turn)? {
                return Ok(());
            }
        }
        Ok(())
    }
}
