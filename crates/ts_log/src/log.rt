//! The log and its steps.

ghost use Rattle.std.specs.Prelude.{false, ◌≡◌, ◌≤◌, ◌++◌, ◌∷◌, [], List, IfOk, OnOk, None, Some};
ghost use Rattle.std.specs.Prelude.{true, is_some, length};
ghost use Rattle.std.specs.Option.{option_copied};
ghost use Rattle.std.specs.Ordering.{nat_cmp};
ghost use Rattle.std.specs.BTreeMap.{get};
ghost use Rattle.ts_synod.specs.declared.message.Body.TheVariants.{Give};
ghost use Rattle.ts_synod.specs.declared.message.Fact.{Fact};
ghost use Rattle.ts_synod.specs.declared.message.Fact.TheVariants.{Chosen};
ghost use Rattle.ts_synod.specs.Lists.{update_at};
ghost use Rattle.ts_synod.specs.Majority.{is_majority};
ghost use Rattle.ts_synod.specs.Messages.{send};
ghost use Rattle.ts_synod.specs.Log.{ask_back, ask_length, catch_up, count_votes, is_vote_in};
ghost use Rattle.ts_synod.specs.Log.{keep_received, learn, next_position, on_accepted, on_ask};
ghost use Rattle.ts_synod.specs.Log.{on_give, prefix, with_vote};
ghost use Rattle.ts_log.specs.Maps.{HasPlaceIn};
ghost use Rattle.ts_log.specs.Log.{config_of, learned_of, position_of, received_of, StandsFor};
ghost use Rattle.ts_log.specs.Log.{IsUnchanged};
ghost use Rattle.ts_log.specs.Steps.{IsLatest, Makes, asks, learned_after, only_messages};
ghost use Rattle.ts_log.specs.Steps.{received_after};

use crate::learned::{LAST_POSITION, LearnedCommands};
use crate::received::ReceivedVotes;
use std::alloc::{AllocError, Global};
use ts_synod::{Ballot, Body, Command, Fact, Message, Vote, broadcast_to_others};

/// What a node has learned, and the votes that it received.
#[derive(Drop)]
pub struct Log<C> {
    alloc: Global,
    me: u8,
    nodes: u8,
    learned: LearnedCommands<C>,
    received: ReceivedVotes<C>,
}

/// How a step changes a log.
#[derive(Drop)]
enum LogChange<C> {
    Nothing,
    Receive {
        position: u32,
        from: u8,
        vote: Vote<C>,
    },
    Learn {
        position: u32,
        command: C,
        count: u32,
    },
}

/// What is to be kept on stable storage, what is to be sent after that, and the change of the log.
#[derive(Drop)]
pub struct LogEffect<C> {
    pub facts: Vec<Fact<C>>,
    pub messages: Vec<Message<C>>,
    change: LogChange<C>,
}

/// All positions of the log are learned without a gap.
#[derive(Debug, PartialEq, Eq, Clone, Copy)]
pub struct PositionsExhausted;

impl<C: Command> Log<C> {
    /// The log of a node that has kept nothing.
    pub fn new(alloc: Global, me: u8, nodes: u8) -> Log<C>
        ensures config { config_of result ≡ record { nodes = nodes; me = me } }
        ensures state { StandsFor result [] }
        ensures received { received_of result ≡ (λ p a. None) }
    {
        Log {
            alloc,
            me,
            nodes,
            learned: LearnedCommands::new(alloc),
            received: ReceivedVotes::new(alloc),
        }
    }

    /// The log of a node that restarts with these facts, in the order in which it kept them.
    pub fn open(alloc: Global, me: u8, nodes: u8, facts: &[Fact<C>]) -> Result<Log<C>, AllocError>
        ensures config { IfOk result (λ log. config_of log ≡ record { nodes = nodes; me = me }) }
        ensures state { IfOk result (λ log. StandsFor log facts.now) }
        ensures received { IfOk result (λ log. received_of log ≡ (λ p a. None)) }
    {
        let mut log = Log::new(alloc, me, nodes);
        for fact in facts {
            log.recover(fact)?;
        }
        Ok(log)
    }

    /// Takes one more fact of the node's stable storage into account.
    fn recover(&mut self, fact: &Fact<C>) -> Result<(), AllocError>
        ensures state { OnOk result ((facts : List (Fact C)) → StandsFor self.old facts
            → StandsFor self.new (facts ++ fact.now ∷ [])) }
        ensures config { OnOk result (config_of self.new ≡ config_of self.old) }
        ensures received { OnOk result (received_of self.new ≡ received_of self.old) }
    {
        match fact {
            Fact::Chosen { position, command } => self.recover_chosen(*position, command)?,
            Fact::Used { .. } => {}
            Fact::Promised { .. } => {}
            Fact::Took { .. } => {}
        }
        Ok(())
    }

    /// Takes a learned command of the node's stable storage into account.
    fn recover_chosen(&mut self, position: u32, command: &C) -> Result<(), AllocError>
        ensures state { OnOk result ((facts : List (Fact C)) → StandsFor self.old facts
            → StandsFor self.new (facts ++ Chosen position command.now ∷ [])) }
        ensures config { OnOk result (config_of self.new ≡ config_of self.old) }
        ensures received { OnOk result (received_of self.new ≡ received_of self.old) }
    {
        if self.learned.is_learned(position) {
            return Ok(());
        }
        let copy = command.try_copy(self.alloc)?;
        self.learned.reserve(position)?;
        let count = self.learned.count_with(position, &copy);
        self.learned.put(position, copy, count);
        Ok(())
    }

    /// How many commands are learned from position 1 on without a gap.
    pub fn prefix(&self) -> u32
        ensures { result ≡ length (prefix (learned_of self.now)) }
    {
        self.learned.count()
    }

    /// The command learned at a position.
    pub fn command(&self, position: u32) -> Option<&C>
        ensures { option_copied result ≡ learned_of self.now position }
    {
        self.learned.command(position)
    }

    /// The position after the prefix.
    pub fn next_position(&self) -> Result<u32, PositionsExhausted>
        ensures { position_of result ≡ next_position (learned_of self.now) }
    {
        let count = self.learned.count();
        if count < LAST_POSITION {
            Ok(count + 1)
        } else {
            Err(PositionsExhausted)
        }
    }

    /// The step that keeps and changes nothing, and sends these messages.
    fn only_messages(&self, messages: Vec<Message<C>>) -> LogEffect<C>
        ensures step { Makes self.now result (only_messages self.now messages.items) }
        ensures latest { IsLatest self.now result }
    {
        LogEffect {
            facts: Vec::new(self.alloc),
            messages,
            change: LogChange::Nothing,
        }
    }

    /// The step that learns a command.
    fn learn(
        &self,
        position: u32,
        command: &C,
        count: u32,
        messages: Vec<Message<C>>,
    ) -> Result<LogEffect<C>, AllocError>
        requires place { is_some (get nat_cmp self.now.learned.commands position) ≡ true }
        requires new { is_some (learned_of self.now position) ≡ false }
        requires count { count ≡ length
            (prefix (update_at (learned_of self.now) position (Some command.now))) }
        ensures step { IfOk result (λ step. Makes self.now step
            (learn (learned_of self.now) (received_of self.now) position command.now
            messages.items)) }
        ensures latest { IfOk result (λ step. IsLatest self.now step) }
    {
        let mut facts = Vec::new(self.alloc);
        facts.push(Fact::Chosen {
            position,
            command: command.try_copy(self.alloc)?,
        })?;
        let change = LogChange::Learn {
            position,
            command: command.try_copy(self.alloc)?,
            count,
        };
        Ok(LogEffect {
            facts,
            messages,
            change,
        })
    }

    /// The vote of a node is of this ballot, once this vote of a sender is received.
    fn votes_in(&self, node: u8, from: u8, position: u32, ballot: Ballot, command: &C) -> bool
        ensures { result ≡ is_vote_in ballot
            (with_vote (received_of self.now position) from
            (record { ballot = ballot; command = command.now }) node) }
    {
        let _command = command;
        match self.received.vote(position, node) {
            Some(vote) if node == from => vote.ballot <= ballot,
            Some(vote) => vote.ballot == ballot,
            None => node == from,
        }
    }

    /// The votes of a majority are of this ballot, once this vote of a sender is received.
    #[tactic(auto, using(crate::proofs::Votes::count_more))]
    fn has_majority(&self, from: u8, position: u32, ballot: Ballot, command: &C) -> bool
        requires { self.now.nodes ≤ 9 }
        ensures { result ≡ is_majority self.now.nodes
            (λ a. is_vote_in ballot (with_vote (received_of self.now position) from
            (record { ballot = ballot; command = command.now }) a)) }
    {
        let mut votes: u8 = 0;
        for node in 0..self.nodes {
            if self.votes_in(node + 1, from, position, ballot, command) {
                votes += 1;
            }
        }
        self.nodes / 2 < votes
    }

    /// Makes places for a sender's vote and for a learned command.
    fn reserve(&mut self, from: u8, position: u32) -> Result<(), AllocError>
        ensures vote { OnOk result
            (HasPlaceIn (get nat_cmp self.new.received.votes position) from) }
        ensures command { OnOk result (is_some (get nat_cmp self.new.learned.commands position)
            ≡ true) }
        ensures same { IsUnchanged self.old self.new }
    {
        self.learned.reserve(position)?;
        self.received.reserve(position, from)
    }

    /// The step that receives a vote.
    fn receive(
        &self,
        from: u8,
        position: u32,
        ballot: Ballot,
        command: &C,
    ) -> Result<LogEffect<C>, AllocError>
        requires place { HasPlaceIn (get nat_cmp self.now.received.votes position) from }
        ensures step { IfOk result (λ step. Makes self.now step
            (keep_received (learned_of self.now)
            (update_at (received_of self.now) position
            (with_vote (received_of self.now position) from
            (record { ballot = ballot; command = command.now }))))) }
        ensures latest { IfOk result (λ step. IsLatest self.now step) }
    {
        if let Some(vote) = self.received.vote(position, from) {
            if ballot <= vote.ballot {
                return Ok(self.only_messages(Vec::new(self.alloc)));
            }
        }
        let vote = Vote {
            ballot,
            command: command.try_copy(self.alloc)?,
        };
        Ok(LogEffect {
            facts: Vec::new(self.alloc),
            messages: Vec::new(self.alloc),
            change: LogChange::Receive {
                position,
                from,
                vote,
            },
        })
    }

    /// The answer to an Accepted at a position that is not learned, where there are places for it.
    fn count_vote(
        &self,
        from: u8,
        position: u32,
        ballot: Ballot,
        command: &C,
    ) -> Result<LogEffect<C>, AllocError>
        requires nodes { self.now.nodes ≤ 9 }
        requires vote { HasPlaceIn (get nat_cmp self.now.received.votes position) from }
        requires command { is_some (get nat_cmp self.now.learned.commands position) ≡ true }
        requires new { is_some (learned_of self.now position) ≡ false }
        ensures step { IfOk result (λ step. Makes self.now step
            (count_votes (config_of self.now) (learned_of self.now)
            (received_of self.now) position ballot command.now
            (with_vote (received_of self.now position) from
            (record { ballot = ballot; command = command.now })))) }
        ensures latest { IfOk result (λ step. IsLatest self.now step) }
    {
        if self.has_majority(from, position, ballot, command) {
            let count = self.learned.count_with(position, command);
            let step = self.learn(position, command, count, Vec::new(self.alloc))?;
            return Ok(step);
        }
        let step = self.receive(from, position, ballot, command)?;
        Ok(step)
    }

    /// The step that answers an Accepted.
    pub fn on_accepted(
        &mut self,
        from: u8,
        position: u32,
        ballot: Ballot,
        command: &C,
    ) -> Result<LogEffect<C>, AllocError>
        requires { (config_of self.old).nodes ≤ 9 }
        ensures step { IfOk result (λ step. Makes self.new step
            (on_accepted (config_of self.old) (learned_of self.old)
            (received_of self.old) from position ballot command.now)) }
        ensures latest { IfOk result (λ step. IsLatest self.new step) }
        ensures same { IsUnchanged self.old self.new }
    {
        if self.learned.is_learned(position) {
            return Ok(self.only_messages(Vec::new(self.alloc)));
        }
        self.reserve(from, position)?;
        let step = self.count_vote(from, position, ballot, command)?;
        Ok(step)
    }

    /// Ask for the position after a prefix that has grown to this count.
    fn ask_back(&self, from: u8, count: u32) -> Result<Vec<Message<C>>, AllocError>
        requires { count ≤ LAST_POSITION }
        ensures { IfOk result (λ messages. messages.items
            ≡ asks (config_of self.now) (length (prefix (learned_of self.now))) count from) }
    {
        let mut messages = Vec::new(self.alloc);
        if count <= self.learned.count() || count >= LAST_POSITION {
            return Ok(messages);
        }
        messages.push(Message {
            from: self.me,
            to: from,
            body: Body::Ask {
                position: count + 1,
            },
        })?;
        Ok(messages)
    }

    /// The step that answers a Give.
    pub fn on_give(
        &mut self,
        from: u8,
        position: u32,
        command: &C,
    ) -> Result<LogEffect<C>, AllocError>
        ensures step { IfOk result (λ step. Makes self.new step
            (on_give (config_of self.old) (learned_of self.old)
            (received_of self.old) from position command.now)) }
        ensures latest { IfOk result (λ step. IsLatest self.new step) }
        ensures same { IsUnchanged self.old self.new }
    {
        if self.learned.is_learned(position) {
            return Ok(self.only_messages(Vec::new(self.alloc)));
        }
        self.learned.reserve(position)?;
        let step = self.learn_given(from, position, command)?;
        Ok(step)
    }

    /// The answer to a Give of a position that is not learned, where there is a place for it.
    fn learn_given(&self, from: u8, position: u32, command: &C) -> Result<LogEffect<C>, AllocError>
        requires place { is_some (get nat_cmp self.now.learned.commands position) ≡ true }
        requires new { is_some (learned_of self.now position) ≡ false }
        ensures step { IfOk result (λ step. Makes self.now step
            (learn (learned_of self.now) (received_of self.now) position command.now
            (ask_back (config_of self.now) (learned_of self.now)
            (update_at (learned_of self.now) position (Some command.now)) from))) }
        ensures latest { IfOk result (λ step. IsLatest self.now step) }
    {
        let count = self.learned.count_with(position, command);
        let messages = self.ask_back(from, count)?;
        let step = self.learn(position, command, count, messages)?;
        Ok(step)
    }

    /// A Give of a command that is learned at a position.
    fn give(&self, from: u8, position: u32, command: &C) -> Result<Message<C>, AllocError>
        ensures { IfOk result (λ message. message
            ≡ send self.now.me from (Give position command.now)) }
    {
        Ok(Message {
            from: self.me,
            to: from,
            body: Body::Give {
                position,
                command: command.try_copy(self.alloc)?,
            },
        })
    }

    /// A Give of each command that an Ask for a position asks for, up to the first that is not
    /// learned.
    fn gives(&self, from: u8, position: u32) -> Result<Vec<Message<C>>, AllocError>
        ensures { IfOk result (λ messages. messages.items
            ≡ on_ask (config_of self.now) (learned_of self.now) from position) }
    {
        let mut messages = Vec::new(self.alloc);
        for given in 0..block(position) {
            match self.learned.command(position + given) {
                Some(command) => messages.push(self.give(from, position + given, command)?)?,
                None => return Ok(messages),
            }
        }
        Ok(messages)
    }

    /// The step that answers an Ask.
    pub fn on_ask(&self, from: u8, position: u32) -> Result<LogEffect<C>, AllocError>
        ensures step { IfOk result (λ step. Makes self.now step
            (only_messages self.now (on_ask (config_of self.now)
            (learned_of self.now) from position))) }
        ensures latest { IfOk result (λ step. IsLatest self.now step) }
    {
        let messages = self.gives(from, position)?;
        Ok(self.only_messages(messages))
    }

    /// The step that asks all other nodes for the position after the prefix.
    pub fn catch_up(&self) -> Result<LogEffect<C>, AllocError>
        requires { (config_of self.now).nodes ≤ 9 }
        ensures step { IfOk result (λ step. Makes self.now step
            (only_messages self.now (catch_up (config_of self.now) (learned_of self.now)))) }
        ensures latest { IfOk result (λ step. IsLatest self.now step) }
    {
        match self.next_position() {
            Ok(position) => {
                let body = Body::Ask { position };
                let messages = broadcast_to_others(self.alloc, self.me, self.nodes, &body)?;
                Ok(self.only_messages(messages))
            }
            Err(_) => Ok(self.only_messages(Vec::new(self.alloc))),
        }
    }

    /// How many commands are learned from position 1 on without a gap once the step is kept.
    pub fn prefix_after(&self, step: &LogEffect<C>) -> u32
        requires { IsLatest self.now step.now }
        ensures { result ≡ length (prefix (learned_after self.now step.now.change)) }
    {
        match &step.change {
            LogChange::Learn { count, .. } => *count,
            _ => self.learned.count(),
        }
    }

    /// The command learned at a position once the step is kept.
    pub fn command_after<'a>(&'a self, step: &'a LogEffect<C>, position: u32) -> Option<&'a C>
        ensures { option_copied result ≡ learned_after self.now step.now.change position }
    {
        match &step.change {
            LogChange::Learn {
                position: learned,
                command,
                ..
            } if position == *learned => Some(command),
            _ => self.learned.command(position),
        }
    }

    /// Makes a step's change, which takes no memory.
    pub fn keep(&mut self, step: LogEffect<C>)
        requires { IsLatest self.old step }
        ensures learned { learned_of self.new ≡ learned_after self.old step.change }
        ensures received { received_of self.new ≡ received_after self.old step.change }
        ensures state { (facts : List (Fact C)) → StandsFor self.old facts
            → StandsFor self.new (facts ++ step.facts.items) }
        ensures config { config_of self.new ≡ config_of self.old }
    {
        let LogEffect {
            facts: _facts,
            messages: _messages,
            change,
        } = step;
        match change {
            LogChange::Nothing => {}
            LogChange::Receive {
                position,
                from,
                vote,
            } => self.received.put(position, from, vote),
            LogChange::Learn {
                position,
                command,
                count,
            } => {
                self.learned.put(position, command, count);
                self.received.forget(position);
            }
        }
    }
}

/// How many positions an Ask for this one asks for.
fn block(position: u32) -> u32
    ensures { result ≡ ask_length position }
{
    if position % 32 == 0 {
        (LAST_POSITION + 1).saturating_sub(position).min(32)
    } else {
        1
    }
}
