//! The proposer and its steps.

ghost use Rattle.std.specs.Prelude.{◌≡◌, ◌<◌, ◌≤◌, ◌++◌, ◌∷◌, [], List, IfOk, OnOk, is_some, true};
ghost use Rattle.std.specs.Prelude.{false, Some, None, max};
ghost use Rattle.std.specs.Option.{option_copied};
ghost use Rattle.std.specs.Ordering.{nat_cmp};
ghost use Rattle.std.specs.BTreeMap.{get};
ghost use Rattle.ts_synod.specs.declared.message.Fact.{Fact};
ghost use Rattle.ts_synod.specs.Lists.{update_at};
ghost use Rattle.ts_synod.specs.Force.{round_used_by};
ghost use Rattle.ts_synod.specs.Proposer.{Phase, begin_phase_2, begin_round, command_to_propose};
ghost use Rattle.ts_synod.specs.Proposer.{count_promises, drop_wanted, greatest_reported};
ghost use Rattle.ts_synod.specs.Proposer.{greatest_round, idle, on_busy, on_growth, on_promise};
ghost use Rattle.ts_synod.specs.Proposer.{only_state, propose, rounds_are_exhausted};
ghost use Rattle.ts_proposer.specs.Promises.{promises_in};
ghost use Rattle.ts_proposer.specs.Proposer.{config_of, state_of, state_with, used_of, StandsFor};
ghost use Rattle.ts_proposer.specs.Proposer.{IsUnchanged};
ghost use Rattle.ts_proposer.specs.Steps.{IsLatest, Makes, Proposes, state_after};

use crate::promises::{greatest_of, has_majority, has_promised};
use std::alloc::{AllocError, Global};
use std::collections::BTreeMap;
use ts_synod::{Ballot, Body, Command, Fact, Message, Vote, ballot_of, broadcast, put_at};

/// The last round of a node.
const LAST_ROUND: u64 = 4_294_967_295;

/// A round of this node: it collects promises, or it has sent its Accept.
#[derive(Drop, Clone, Copy)]
struct Round {
    number: u32,
    position: u32,
    is_accepting: bool,
}

/// The state but for the promises, so that a change to another state copies one command and no map.
#[derive(Drop)]
struct State<C> {
    used: u32,
    seen: u64,
    wanted: Option<C>,
    round: Option<Round>,
}

/// What a node proposes.
#[derive(Drop)]
pub struct Proposer<C> {
    alloc: Global,
    me: u8,
    nodes: u8,
    state: State<C>,
    promises: BTreeMap<u8, Option<Option<Vote<C>>>>,
}

/// How a step changes a proposer.
#[derive(Drop)]
enum ProposerChange<C> {
    Nothing,
    Collect { from: u8, taken: Option<Vote<C>> },
    Become { next: State<C> },
}

/// What is to be kept on stable storage, what is to be sent after that, and the change of the
/// proposer.
#[derive(Drop)]
pub struct ProposerEffect<C> {
    pub facts: Vec<Fact<C>>,
    pub messages: Vec<Message<C>>,
    change: ProposerChange<C>,
}

/// Why no round began.
#[derive(Debug, PartialEq, Eq, Clone, Copy)]
pub enum ProposeFault {
    /// The greatest round used or seen is the last one.
    RoundsExhausted,
    /// There is no memory.
    Memory,
}

impl<C: Command> Proposer<C> {
    /// The proposer of a node that has kept nothing.
    pub fn new(alloc: Global, me: u8, nodes: u8) -> Proposer<C>
        ensures config { config_of result ≡ record { nodes = nodes; me = me } }
        ensures state { state_of result ≡ idle }
        ensures used { StandsFor result [] }
    {
        Proposer {
            alloc,
            me,
            nodes,
            state: State {
                used: 0,
                seen: 0,
                wanted: None,
                round: None,
            },
            promises: BTreeMap::new(alloc),
        }
    }

    /// The proposer of a node that restarts with these facts.
    pub fn open(alloc: Global, me: u8, nodes: u8, facts: &[Fact<C>]) -> Proposer<C>
        ensures config { config_of result ≡ record { nodes = nodes; me = me } }
        ensures state { state_of result ≡ idle }
        ensures used { StandsFor result facts.now }
    {
        let mut used: u32 = 0;
        for fact in facts {
            used = later_round(used, fact);
        }
        let mut proposer = Proposer::new(alloc, me, nodes);
        proposer.state.used = used;
        proposer
    }

    /// The command that a client wants.
    pub fn wanted(&self) -> Option<&C>
        ensures { option_copied result ≡ (state_of self.now).wanted }
    {
        self.state.wanted.as_ref()
    }

    /// A copy of the wanted command.
    fn copy_of_wanted(&self) -> Result<Option<C>, AllocError>
        ensures { IfOk result (λ wanted. wanted ≡ self.now.state.wanted) }
    {
        match &self.state.wanted {
            Some(command) => Ok(Some(command.try_copy(self.alloc)?)),
            None => Ok(None),
        }
    }

    /// The greatest round used or seen.
    fn greatest_round(&self) -> u64
        ensures { result ≡ greatest_round (used_of self.now) (state_of self.now) }
    {
        let used = self.state.used as u64;
        if used < self.state.seen {
            self.state.seen
        } else {
            used
        }
    }

    /// The step that begins a round for a command.
    fn begin_round(&self, position: u32, command: C) -> Result<ProposerEffect<C>, AllocError>
        requires left { rounds_are_exhausted (used_of self.now) (state_of self.now) ≡ false }
        requires nodes { self.now.nodes ≤ 9 }
        ensures step { IfOk result (λ step. Makes self.now step
            (begin_round (config_of self.now) (used_of self.now)
            (state_of self.now) position command)) }
        ensures latest { IfOk result (λ step. IsLatest self.now step) }
    {
        let number = (self.greatest_round() + 1) as u32;
        let mut facts = Vec::new(self.alloc);
        facts.push(Fact::Used { round: number })?;
        let body = Body::Prepare {
            position,
            ballot: ballot_of(self.me, number),
        };
        let messages = broadcast(self.alloc, self.me, self.nodes, &body)?;
        let round = Round {
            number,
            position,
            is_accepting: false,
        };
        let next = State {
            used: number,
            seen: self.state.seen,
            wanted: Some(command),
            round: Some(round),
        };
        Ok(ProposerEffect {
            facts,
            messages,
            change: ProposerChange::Become { next },
        })
    }

    /// The step that proposes a command at a position, in place of any other.
    pub fn propose(&self, position: u32, command: &C) -> Result<ProposerEffect<C>, ProposeFault>
        requires { (config_of self.now).nodes ≤ 9 }
        ensures step { Proposes self.now result
            (propose (config_of self.now) (used_of self.now)
            (state_of self.now) position command.now) }
        ensures latest { IfOk result (λ step. IsLatest self.now step) }
    {
        if self.greatest_round() >= LAST_ROUND {
            return Err(ProposeFault::RoundsExhausted);
        }
        let Ok(command) = command.try_copy(self.alloc) else {
            return Err(ProposeFault::Memory);
        };
        match self.begin_round(position, command) {
            Ok(step) => Ok(step),
            Err(_) => Err(ProposeFault::Memory),
        }
    }

    /// The step that keeps and sends nothing, and makes this the state.
    fn become_state(&self, next: State<C>) -> ProposerEffect<C>
        requires { next.used ≡ used_of self.now }
        ensures step { Makes self.now result (only_state (state_with (λ a. None) next)) }
        ensures latest { IsLatest self.now result }
    {
        ProposerEffect {
            facts: Vec::new(self.alloc),
            messages: Vec::new(self.alloc),
            change: ProposerChange::Become { next },
        }
    }

    /// The step that does nothing.
    fn no_step(&self) -> ProposerEffect<C>
        ensures step { Makes self.now result (only_state (state_of self.now)) }
        ensures latest { IsLatest self.now result }
    {
        ProposerEffect {
            facts: Vec::new(self.alloc),
            messages: Vec::new(self.alloc),
            change: ProposerChange::Nothing,
        }
    }

    /// The step that ends the round, and wants no command.
    fn drop_wanted(&self) -> ProposerEffect<C>
        ensures step { Makes self.now result (drop_wanted (state_of self.now)) }
        ensures latest { IsLatest self.now result }
    {
        self.become_state(State {
            used: self.state.used,
            seen: self.state.seen,
            wanted: None,
            round: None,
        })
    }

    /// The step that answers a Busy.
    pub fn on_busy(
        &self,
        position: u32,
        ballot: Ballot,
        promised: Ballot,
    ) -> Result<ProposerEffect<C>, AllocError>
        ensures step { IfOk result (λ step. Makes self.now step
            (on_busy (config_of self.now) (state_of self.now) position ballot promised)) }
        ensures latest { IfOk result (λ step. IsLatest self.now step) }
    {
        if let Some(round) = self.state.round {
            if position == round.position && ballot == ballot_of(self.me, round.number) {
                let seen = promised / 16;
                let next = State {
                    used: self.state.used,
                    seen: if self.state.seen < seen {
                        seen
                    } else {
                        self.state.seen
                    },
                    wanted: self.copy_of_wanted()?,
                    round: None,
                };
                return Ok(self.become_state(next));
            }
        }
        Ok(self.no_step())
    }

    /// The step after the prefix has grown. `next` is where the wanted command can be proposed, if
    /// it can.
    pub fn on_growth(&self, next: Option<u32>) -> Result<ProposerEffect<C>, AllocError>
        requires { (config_of self.now).nodes ≤ 9 }
        ensures step { IfOk result (λ step. Makes self.now step
            (on_growth (config_of self.now) (used_of self.now) (state_of self.now) next)) }
        ensures latest { IfOk result (λ step. IsLatest self.now step) }
    {
        let Some(command) = &self.state.wanted else {
            return Ok(self.drop_wanted());
        };
        let Some(position) = next else {
            return Ok(self.drop_wanted());
        };
        if self.greatest_round() >= LAST_ROUND {
            return Ok(self.drop_wanted());
        }
        let step = self.begin_round(position, command.try_copy(self.alloc)?)?;
        Ok(step)
    }

    /// The command that the promises of a majority allow, where `from` reports `taken`.
    fn command_to_propose(&self, from: u8, taken: &Option<Vote<C>>) -> Result<Option<C>, AllocError>
        requires { self.now.nodes ≤ 9 }
        ensures { IfOk result (λ command. command
            ≡ command_to_propose (greatest_reported
            (update_at (promises_in self.now.promises) from (Some taken.now)) self.now.nodes)
            self.now.state.wanted) }
    {
        match greatest_of(self.nodes, &self.promises, from, taken) {
            Some(vote) => Ok(Some(vote.command.try_copy(self.alloc)?)),
            None => self.copy_of_wanted(),
        }
    }

    /// The step that sends Accept with a command.
    fn send_accept(&self, round: Round, command: C) -> Result<ProposerEffect<C>, AllocError>
        requires { self.now.nodes ≤ 9 }
        ensures step { IfOk result (λ step. (phase : Phase C)
            → Makes self.now step (begin_phase_2 (config_of self.now) (state_of self.now)
            (record { number = round.number; position = round.position; phase = phase })
            (Some command))) }
        ensures latest { IfOk result (λ step. IsLatest self.now step) }
    {
        let next = State {
            used: self.state.used,
            seen: self.state.seen,
            wanted: self.copy_of_wanted()?,
            round: Some(Round {
                number: round.number,
                position: round.position,
                is_accepting: true,
            }),
        };
        let body = Body::Accept {
            position: round.position,
            ballot: ballot_of(self.me, round.number),
            command,
        };
        let messages = broadcast(self.alloc, self.me, self.nodes, &body)?;
        Ok(ProposerEffect {
            facts: Vec::new(self.alloc),
            messages,
            change: ProposerChange::Become { next },
        })
    }

    /// The step that begins phase 2 of a round, where `from` reports `taken`.
    fn begin_phase_2(
        &self,
        round: Round,
        from: u8,
        taken: &Option<Vote<C>>,
    ) -> Result<ProposerEffect<C>, AllocError>
        requires { self.now.nodes ≤ 9 }
        ensures step { IfOk result (λ step. (phase : Phase C)
            → Makes self.now step (begin_phase_2 (config_of self.now) (state_of self.now)
            (record { number = round.number; position = round.position; phase = phase })
            (command_to_propose (greatest_reported
            (update_at (promises_in self.now.promises) from (Some taken.now)) self.now.nodes)
            self.now.state.wanted))) }
        ensures latest { IfOk result (λ step. IsLatest self.now step) }
    {
        match self.command_to_propose(from, taken)? {
            Some(command) => {
                let step = self.send_accept(round, command)?;
                Ok(step)
            }
            None => Ok(self.no_step()),
        }
    }

    /// Makes a place for a node's promise.
    fn reserve(&mut self, from: u8) -> Result<(), AllocError>
        ensures place { OnOk result (is_some (get nat_cmp self.new.promises from) ≡ true) }
        ensures same { IsUnchanged self.old self.new }
        ensures round { self.new.state.round ≡ self.old.state.round }
        ensures promises { promises_in self.new.promises ≡ promises_in self.old.promises }
    {
        if !self.promises.contains_key(&from) {
            self.promises.insert(from, None)?;
        }
        Ok(())
    }

    /// The step that collects a new promise for the current round, which is in phase 1.
    fn collect(
        &self,
        round: Round,
        from: u8,
        taken: Option<Vote<C>>,
    ) -> Result<ProposerEffect<C>, AllocError>
        requires nodes { self.now.nodes ≤ 9 }
        requires current { self.now.state.round ≡ Some round }
        requires phase { round.is_accepting ≡ false }
        requires place { is_some (get nat_cmp self.now.promises from) ≡ true }
        ensures step { IfOk result (λ step. (phase : Phase C)
            → Makes self.now step (count_promises (config_of self.now) (state_of self.now)
            (record { number = round.number; position = round.position; phase = phase })
            (update_at (promises_in self.now.promises) from (Some taken)))) }
        ensures latest { IfOk result (λ step. IsLatest self.now step) }
    {
        if has_majority(self.nodes, &self.promises, from, &taken) {
            let step = self.begin_phase_2(round, from, &taken)?;
            return Ok(step);
        }
        Ok(ProposerEffect {
            facts: Vec::new(self.alloc),
            messages: Vec::new(self.alloc),
            change: ProposerChange::Collect { from, taken },
        })
    }

    /// The step that answers a Promise.
    pub fn on_promise(
        &mut self,
        from: u8,
        position: u32,
        ballot: Ballot,
        taken: Option<Vote<C>>,
    ) -> Result<ProposerEffect<C>, AllocError>
        requires { (config_of self.old).nodes ≤ 9 }
        ensures step { IfOk result (λ step. Makes self.new step
            (on_promise (config_of self.old) (state_of self.old) from position ballot taken)) }
        ensures latest { IfOk result (λ step. IsLatest self.new step) }
        ensures same { IsUnchanged self.old self.new }
    {
        let Some(round) = self.state.round else {
            return Ok(self.no_step());
        };
        if position != round.position || ballot != ballot_of(self.me, round.number) {
            return Ok(self.no_step());
        }
        if round.is_accepting || has_promised(&self.promises, from) {
            return Ok(self.no_step());
        }
        self.reserve(from)?;
        let step = self.collect(round, from, taken)?;
        Ok(step)
    }

    /// Makes a step's change, which takes no memory.
    pub fn keep(&mut self, step: ProposerEffect<C>)
        requires { IsLatest self.old step }
        ensures state { state_of self.new ≡ state_after self.old step.change }
        ensures used { (facts : List (Fact C)) → StandsFor self.old facts
            → StandsFor self.new (facts ++ step.facts.items) }
        ensures config { config_of self.new ≡ config_of self.old }
    {
        let ProposerEffect {
            facts: _facts,
            messages: _messages,
            change,
        } = step;
        match change {
            ProposerChange::Nothing => {}
            ProposerChange::Collect { from, taken } => {
                put_at(&mut self.promises, from, Some(taken));
            }
            ProposerChange::Become { next } => {
                self.promises = BTreeMap::new(self.alloc);
                self.state = next;
            }
        }
    }
}

/// The greatest round used, with one more fact.
fn later_round<C>(used: u32, fact: &Fact<C>) -> u32
    ensures { result ≡ max used (round_used_by fact.now) }
{
    match fact {
        Fact::Used { round } if used < *round => *round,
        _ => used,
    }
}
