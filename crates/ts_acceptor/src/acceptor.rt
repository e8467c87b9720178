//! The acceptor and its steps.

ghost use Rattle.std.specs.Prelude.{◌≡◌, ◌<◌, ◌≤◌, ◌++◌, ◌∷◌, [], List, IfOk, OnOk};
ghost use Rattle.std.specs.Option.{option_copied};
ghost use Rattle.ts_synod.specs.declared.message.Fact.{Fact};
ghost use Rattle.ts_synod.specs.declared.message.Body.TheVariants.{Accepted, Busy, Promise};
ghost use Rattle.ts_synod.specs.declared.message.Fact.TheVariants.{Promised, Took};
ghost use Rattle.ts_synod.specs.Messages.{broadcast, send};
ghost use Rattle.ts_synod.specs.Acceptor.{accept, only_messages, on_prepare, on_accept};
ghost use Rattle.ts_acceptor.specs.Acceptor.{promised_at, taken_at, config_of, HasVotes, StandsFor};
ghost use Rattle.ts_acceptor.specs.Acceptor.{IsUnchanged};
ghost use Rattle.ts_acceptor.specs.Steps.{Makes, HasPlaces, IsOfOther, IsLatest};

use std::alloc::{AllocError, Global};
use std::collections::BTreeMap;
use ts_synod::{Ballot, Body, Command, Fact, Message, Vote, broadcast, copy_of_vote, put_at};

/// What a node promised and took at each position. A place of the maps that waits for a step holds
/// 0 or `None`.
#[derive(Drop)]
pub struct Acceptor<C> {
    alloc: Global,
    me: u8,
    nodes: u8,
    promised: BTreeMap<u32, Ballot>,
    taken: BTreeMap<u32, Option<Vote<C>>>,
}

/// How a step changes an acceptor.
#[derive(Drop)]
enum AcceptorChange<C> {
    Nothing,
    Promise {
        position: u32,
        ballot: Ballot,
    },
    Take {
        position: u32,
        ballot: Ballot,
        command: C,
    },
}

/// What is to be kept on stable storage, what is to be sent after that, and the change of the
/// acceptor.
#[derive(Drop)]
pub struct AcceptorEffect<C> {
    pub facts: Vec<Fact<C>>,
    pub messages: Vec<Message<C>>,
    change: AcceptorChange<C>,
}

impl<C: Command> Acceptor<C> {
    /// The acceptor of a node that has kept nothing.
    pub fn new(alloc: Global, me: u8, nodes: u8) -> Acceptor<C>
        ensures config { config_of result ≡ record { nodes = nodes; me = me } }
        ensures state { StandsFor result [] }
    {
        Acceptor {
            alloc,
            me,
            nodes,
            promised: BTreeMap::new(alloc),
            taken: BTreeMap::new(alloc),
        }
    }

    /// The acceptor of a node that restarts with these facts, in the order in which it kept them.
    pub fn open(
        alloc: Global,
        me: u8,
        nodes: u8,
        facts: &[Fact<C>],
    ) -> Result<Acceptor<C>, AllocError>
        ensures config { IfOk result (λ acceptor. config_of acceptor
            ≡ record { nodes = nodes; me = me }) }
        ensures state { IfOk result (λ acceptor. StandsFor acceptor facts.now) }
    {
        let mut acceptor = Acceptor::new(alloc, me, nodes);
        for fact in facts {
            acceptor.recover(fact)?;
        }
        Ok(acceptor)
    }

    /// Takes one more fact of the node's stable storage into account.
    fn recover(&mut self, fact: &Fact<C>) -> Result<(), AllocError>
        ensures state { OnOk result ((facts : List (Fact C)) → StandsFor self.old facts
            → StandsFor self.new (facts ++ fact.now ∷ [])) }
        ensures config { OnOk result (config_of self.new ≡ config_of self.old) }
    {
        match fact {
            Fact::Promised { position, ballot } => {
                let ballot = (*ballot).max(self.promised(*position));
                self.promised.insert(*position, ballot)?;
            }
            Fact::Took {
                position,
                ballot,
                command,
            } => {
                let promised = (*ballot).max(self.promised(*position));
                self.promised.insert(*position, promised)?;
                self.recover_vote(*position, *ballot, command)?;
            }
            Fact::Used { .. } => {}
            Fact::Chosen { .. } => {}
        }
        Ok(())
    }

    /// Takes a vote of the node's stable storage into account, if it is of the greatest ballot.
    fn recover_vote(&mut self, position: u32, ballot: Ballot, command: &C) -> Result<(), AllocError>
        ensures votes { OnOk result ((facts : List (Fact C)) → HasVotes self.old.taken facts
            → HasVotes self.new.taken (facts ++ Took position ballot command.now ∷ [])) }
        ensures promised { OnOk result (self.new.promised ≡ self.old.promised) }
        ensures config { OnOk result (config_of self.new ≡ config_of self.old) }
    {
        if let Some(vote) = self.taken(position) {
            if ballot <= vote.ballot {
                return Ok(());
            }
        }
        let vote = Vote {
            ballot,
            command: command.try_copy(self.alloc)?,
        };
        self.taken.insert(position, Some(vote))?;
        Ok(())
    }

    /// The greatest ballot promised or taken at a position, or 0.
    pub fn promised(&self, position: u32) -> Ballot
        ensures { result ≡ promised_at self.now position }
    {
        match self.promised.get(&position) {
            Some(ballot) => *ballot,
            None => 0,
        }
    }

    /// The vote of the greatest ballot taken at a position.
    pub fn taken(&self, position: u32) -> Option<&Vote<C>>
        ensures { option_copied result ≡ taken_at self.now position }
    {
        match self.taken.get(&position) {
            Some(Some(vote)) => Some(vote),
            _ => None,
        }
    }

    /// A copy of the vote taken at a position.
    fn copy_of_taken(&self, position: u32) -> Result<Option<Vote<C>>, AllocError>
        ensures { IfOk result (λ taken. taken ≡ taken_at self.now position) }
    {
        match self.taken(position) {
            Some(vote) => Ok(Some(vote.try_copy(self.alloc)?)),
            None => Ok(None),
        }
    }

    /// Makes places for a promise and a vote.
    fn reserve(&mut self, position: u32) -> Result<(), AllocError>
        ensures places { OnOk result (HasPlaces self.new position) }
        ensures same { IsUnchanged self.old self.new }
    {
        if !self.promised.contains_key(&position) {
            self.promised.insert(position, 0)?;
        }
        if !self.taken.contains_key(&position) {
            self.taken.insert(position, None)?;
        }
        Ok(())
    }

    /// The step that keeps nothing and sends these messages.
    fn only_messages(&self, messages: Vec<Message<C>>) -> AcceptorEffect<C>
        ensures step { Makes result (only_messages messages.items) }
        ensures latest { IsLatest self.now result }
    {
        AcceptorEffect {
            facts: Vec::new(self.alloc),
            messages,
            change: AcceptorChange::Nothing,
        }
    }

    /// The step that answers Busy.
    fn refuse(
        &self,
        from: u8,
        position: u32,
        ballot: Ballot,
        promised: Ballot,
    ) -> Result<AcceptorEffect<C>, AllocError>
        ensures step { IfOk result (λ step. Makes step
            (only_messages (send self.now.me from (Busy position ballot promised) ∷ []))) }
        ensures latest { IfOk result (λ step. IsLatest self.now step) }
    {
        let mut messages = Vec::new(self.alloc);
        messages.push(Message {
            from: self.me,
            to: from,
            body: Body::Busy {
                position,
                ballot,
                promised,
            },
        })?;
        Ok(self.only_messages(messages))
    }

    /// The step that promises a ballot, and reports the vote taken.
    fn promise(
        &self,
        from: u8,
        position: u32,
        ballot: Ballot,
    ) -> Result<AcceptorEffect<C>, AllocError>
        requires places { HasPlaces self.now position }
        requires above { promised_at self.now position < ballot }
        ensures step { IfOk result (λ step. Makes step
            (record {
              facts = Promised position ballot ∷ [];
              messages = send self.now.me from
                  (Promise position ballot (taken_at self.now position))
                  ∷ [];
            })) }
        ensures latest { IfOk result (λ step. IsLatest self.now step) }
    {
        let mut facts = Vec::new(self.alloc);
        facts.push(Fact::Promised { position, ballot })?;
        let taken = self.copy_of_taken(position)?;
        let mut messages = Vec::new(self.alloc);
        messages.push(Message {
            from: self.me,
            to: from,
            body: Body::Promise {
                position,
                ballot,
                taken,
            },
        })?;
        Ok(AcceptorEffect {
            facts,
            messages,
            change: AcceptorChange::Promise { position, ballot },
        })
    }

    /// The answer to a Prepare, where there are places for it.
    fn answer_prepare(
        &self,
        from: u8,
        position: u32,
        ballot: Ballot,
    ) -> Result<AcceptorEffect<C>, AllocError>
        requires places { HasPlaces self.now position }
        ensures step { IfOk result (λ step. Makes step
            (on_prepare (config_of self.now) (promised_at self.now position)
            (taken_at self.now position) from position ballot)) }
        ensures latest { IfOk result (λ step. IsLatest self.now step) }
    {
        let promised = self.promised(position);
        if promised < ballot {
            let step = self.promise(from, position, ballot)?;
            return Ok(step);
        }
        if ballot < promised {
            let step = self.refuse(from, position, ballot, promised)?;
            return Ok(step);
        }
        Ok(self.only_messages(Vec::new(self.alloc)))
    }

    /// The step that answers a Prepare.
    pub fn on_prepare(
        &mut self,
        from: u8,
        position: u32,
        ballot: Ballot,
    ) -> Result<AcceptorEffect<C>, AllocError>
        ensures step { IfOk result (λ step. Makes step
            (on_prepare (config_of self.old) (promised_at self.old position)
            (taken_at self.old position) from position ballot)) }
        ensures latest { IfOk result (λ step. IsLatest self.new step) }
        ensures same { IsUnchanged self.old self.new }
    {
        self.reserve(position)?;
        let step = self.answer_prepare(from, position, ballot)?;
        Ok(step)
    }

    /// The step that takes a command.
    fn take(
        &self,
        position: u32,
        ballot: Ballot,
        command: &C,
    ) -> Result<AcceptorEffect<C>, AllocError>
        requires places { HasPlaces self.now position }
        requires promised { promised_at self.now position ≤ ballot }
        requires other { IsOfOther ballot (taken_at self.now position) }
        requires nodes { self.now.nodes ≤ 9 }
        ensures step { IfOk result (λ step. Makes step
            (accept (config_of self.now) position ballot command.now)) }
        ensures latest { IfOk result (λ step. IsLatest self.now step) }
    {
        let mut facts = Vec::new(self.alloc);
        facts.push(Fact::Took {
            position,
            ballot,
            command: command.try_copy(self.alloc)?,
        })?;
        let body = Body::Accepted {
            position,
            ballot,
            command: command.try_copy(self.alloc)?,
        };
        let messages = broadcast(self.alloc, self.me, self.nodes, &body)?;
        let change = AcceptorChange::Take {
            position,
            ballot,
            command: command.try_copy(self.alloc)?,
        };
        Ok(AcceptorEffect {
            facts,
            messages,
            change,
        })
    }

    /// The step that sends the vote taken again.
    fn repeat(
        &self,
        position: u32,
        ballot: Ballot,
        command: &C,
    ) -> Result<AcceptorEffect<C>, AllocError>
        requires { self.now.nodes ≤ 9 }
        ensures step { IfOk result (λ step. Makes step
            (only_messages (broadcast self.now.me self.now.nodes
            (Accepted position ballot command.now)))) }
        ensures latest { IfOk result (λ step. IsLatest self.now step) }
    {
        let body = Body::Accepted {
            position,
            ballot,
            command: command.try_copy(self.alloc)?,
        };
        let messages = broadcast(self.alloc, self.me, self.nodes, &body)?;
        Ok(self.only_messages(messages))
    }

    /// The answer to an Accept, where there are places for it.
    fn answer_accept(
        &self,
        from: u8,
        position: u32,
        ballot: Ballot,
        command: &C,
    ) -> Result<AcceptorEffect<C>, AllocError>
        requires places { HasPlaces self.now position }
        requires nodes { self.now.nodes ≤ 9 }
        ensures step { IfOk result (λ step. Makes step
            (on_accept (config_of self.now) (promised_at self.now position)
            (taken_at self.now position) from position ballot command.now)) }
        ensures latest { IfOk result (λ step. IsLatest self.now step) }
    {
        let promised = self.promised(position);
        if promised > ballot {
            let step = self.refuse(from, position, ballot, promised)?;
            return Ok(step);
        }
        match self.taken(position) {
            Some(vote) if vote.ballot == ballot => {
                let step = self.repeat(position, ballot, &vote.command)?;
                Ok(step)
            }
            _ => {
                let step = self.take(position, ballot, command)?;
                Ok(step)
            }
        }
    }

    /// The step that answers an Accept.
    pub fn on_accept(
        &mut self,
        from: u8,
        position: u32,
        ballot: Ballot,
        command: &C,
    ) -> Result<AcceptorEffect<C>, AllocError>
        requires { (config_of self.old).nodes ≤ 9 }
        ensures step { IfOk result (λ step. Makes step
            (on_accept (config_of self.old) (promised_at self.old position)
            (taken_at self.old position) from position ballot command.now)) }
        ensures latest { IfOk result (λ step. IsLatest self.new step) }
        ensures same { IsUnchanged self.old self.new }
    {
        self.reserve(position)?;
        let step = self.answer_accept(from, position, ballot, command)?;
        Ok(step)
    }

    /// Makes a step's change, which takes no memory.
    pub fn keep(&mut self, step: AcceptorEffect<C>)
        requires { IsLatest self.old step }
        ensures state { (facts : List (Fact C)) → StandsFor self.old facts
            → StandsFor self.new (facts ++ step.facts.items) }
        ensures config { config_of self.new ≡ config_of self.old }
    {
        let AcceptorEffect {
            facts: _facts,
            messages: _messages,
            change,
        } = step;
        match change {
            AcceptorChange::Nothing => {}
            AcceptorChange::Promise { position, ballot } => {
                put_at(&mut self.promised, position, ballot);
            }
            AcceptorChange::Take {
                position,
                ballot,
                command,
            } => {
                put_at(&mut self.promised, position, ballot);
                put_at(&mut self.taken, position, Some(Vote { ballot, command }));
            }
        }
    }
}
