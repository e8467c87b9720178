//! A node takes an input and the messages to itself that follow from it, and keeps their facts
//! together.

ghost use Rattle.std.specs.Prelude.{◌≡◌, ◌≤◌, ◌+◌, ◌==◌, ◌++◌, ◌∷◌, [], IfOk, OnOk, length, true};
ghost use Rattle.std.specs.Prelude.{false, not};
ghost use Rattle.std.specs.List.{filter};
ghost use Rattle.ts_node.specs.Machine.{store_of};
ghost use Rattle.ts_record.specs.declared.fault.RecordFault.TheVariants.{DiskFailed};
ghost use Rattle.ts_record.specs.Facts.{AllFit, encodings};
ghost use Rattle.ts_node.specs.Inputs.{InputFits};
ghost use Rattle.ts_node.specs.Node.{IsSound, Moments, config, volatile};
ghost use Rattle.ts_node.specs.inside.Roles.{IsLatest, facts_in};
ghost use Rattle.ts_node.specs.Staged.{AreReady, IsStaged};
ghost use Rattle.ts_node.specs.inside.Staged.{HasBegun, HasCome, HasRest, IsHeld};
ghost use Rattle.ts_node.specs.Staged.{Keeps};
ghost use Rattle.ts_node.specs.Turn.{IsTurn, given_out, has_own};

use crate::input::{Input, Output, Reply};
use crate::machine::Machine;
use crate::node::Node;
use crate::plan::Plan;
use crate::room::room_for;
use crate::turn::{StagedFacts, Turn};
use std::alloc::{AllocError, Global};
use ts_disk::Disk;
use ts_record::RecordFault;
use ts_synod::{Codec, Command, Fact, Message, NodeFault};

/// Whether one of the messages is to this node.
fn has_own<C>(messages: &[Message<C>], me: u8) -> bool
    ensures { result ≡ has_own me messages.now }
{
    messages.iter().any(|message| message.to == me)
}

/// There are no facts.
fn are_none<C>(facts: &[Fact<C>]) -> bool
    ensures none { result ≡ true → facts.now ≡ [] }
    ensures some { result ≡ false → facts.now ≡ [] → ⊥ }
{
    match facts.first() {
        None => true,
        Some(_) => false,
    }
}

/// Keeps a message that is to another node.
fn push_other<C: Drop>(
    kept: &mut Vec<Message<C>>,
    message: Message<C>,
    me: u8,
) -> Result<(), AllocError>
    ensures { OnOk result (kept.new.items
        ≡ kept.old.items ++ filter (λ m. not (m.to == me)) (message ∷ [])) }
{
    if message.to == me {
        return Ok(());
    }
    kept.push(message)?;
    Ok(())
}

/// The messages to other nodes.
fn others<C: Drop>(
    alloc: Global,
    messages: Vec<Message<C>>,
    me: u8,
) -> Result<Vec<Message<C>>, AllocError>
    ensures { IfOk result (λ kept. kept.items ≡ filter (λ m. not (m.to == me)) messages.items) }
{
    let mut kept = Vec::new(alloc);
    for message in messages {
        push_other(&mut kept, message, me)?;
    }
    Ok(kept)
}

/// What a turn gives out, once it has looked at so many of its messages.
fn give_out<C: Drop>(
    alloc: Global,
    messages: Vec<Message<C>>,
    looked: usize,
    me: u8,
) -> Result<Vec<Message<C>>, AllocError>
    requires { looked ≤ length messages.items }
    ensures { IfOk result (λ given. given.items ≡ given_out me looked messages.items) }
{
    let mut first = messages;
    let mut rest = first.split_off(looked)?;
    let mut given = others(alloc, first, me)?;
    given.append(&mut rest)?;
    Ok(given)
}

impl<C: Drop> StagedFacts<C> {
    /// Puts the facts of a turn behind those before, and gives its messages out.
    fn put(&mut self, alloc: Global, turn: Turn<C>, me: u8) -> Result<Vec<Message<C>>, AllocError>
        requires { turn.looked ≤ length turn.messages.items }
        ensures given { IfOk result (λ given. given.items
            ≡ given_out me turn.looked turn.messages.items) }
        ensures facts { OnOk result
            (self.new.facts.items ≡ self.old.facts.items ++ turn.facts.items) }
        ensures size { OnOk result (self.new.size ≡ turn.size) }
    {
        let Turn {
            facts,
            size,
            messages,
            looked,
            ..
        } = turn;
        let given = give_out(alloc, messages, looked, me)?;
        let mut facts = facts;
        self.facts.append(&mut facts)?;
        self.size = size;
        Ok(given)
    }
}

impl<D: Disk, C: Command + Codec, M: Machine<C>> Node<D, C, M> {
    /// Takes an input, and then the messages to itself that it makes, until it makes no more of
    /// them. What all of these keep is on disk before it answers, by one append, and so before a
    /// message can be sent. The messages that it gives are the others.
    pub fn turn(
        &mut self,
        input: &Input<C, M::Question>,
    ) -> Result<Output<C, M::Outcome, M::Answer>, NodeFault>
        requires sound { IsSound D.state C.octets M.commands self.old }
        requires fits { InputFits C.octets input.now }
        ensures turn { IsTurn D.state C.octets (store_of M.Question M.client_id M.outcome)
            M.basis M.is_answer self.old input.now result self.new }
        ensures sound { IsSound D.state C.octets M.commands self.new }
    {
        if self.is_broken() {
            return Err(NodeFault::Broken);
        }
        match input {
            Input::Compact => self.compact(),
            _ => self.take_turn(input),
        }
    }

    /// A turn of an input that is no compaction.
    fn take_turn(
        &mut self,
        input: &Input<C, M::Question>,
    ) -> Result<Output<C, M::Outcome, M::Answer>, NodeFault>
        requires whole { self.old.kept.broken ≡ false }
        requires still { self.old.ahead ≡ false }
        requires sound { IsSound D.state C.octets M.commands self.old }
        requires fits { InputFits C.octets input.now }
        requires event { input.now ≡ Input.Compact → ⊥ }
        ensures turn { IsTurn D.state C.octets (store_of M.Question M.client_id M.outcome)
            M.basis M.is_answer self.old input.now result self.new }
        ensures sound { IsSound D.state C.octets M.commands self.new }
    {
        match self.roles.plan_input(&mut self.machine, input) {
            Ok((plan, reply)) => self.go_on(plan, reply),
            Err(fault) => Err(fault),
        }
    }

    /// A turn that begins with a plan.
    fn go_on(
        &mut self,
        plan: Plan<C>,
        reply: Reply<M::Outcome, M::Answer>,
    ) -> Result<Output<C, M::Outcome, M::Answer>, NodeFault>
        requires whole { self.old.kept.broken ≡ false }
        requires still { self.old.ahead ≡ false }
        requires sound { IsSound D.state C.octets M.commands self.old }
        requires latest { IsLatest self.old.roles plan.change }
        requires fit { AllFit C.octets (facts_in plan.change) }
        requires short { length (encodings C.octets (facts_in plan.change)) ≤ 4194500 }
        ensures come { HasCome D.state C.octets (store_of M.Question M.client_id M.outcome)
            self.old plan reply result self.new }
        ensures config { config self.new ≡ config self.old }
        ensures basis { M.basis self.new.machine ≡ M.basis self.old.machine }
        ensures whole { OnOk result (self.new.kept.broken ≡ false) }
        ensures still { OnOk result (self.new.ahead ≡ false) }
        ensures sound { IsSound D.state C.octets M.commands self.new }
    {
        if has_own(&plan.messages, self.roles.me) {
            return self.follow(plan, reply);
        }
        match self.commit(plan) {
            Ok(messages) => Ok(Output { messages, reply }),
            Err(fault) => Err(fault),
        }
    }

    /// A turn of a plan and of the messages to the node itself.
    fn follow(
        &mut self,
        plan: Plan<C>,
        reply: Reply<M::Outcome, M::Answer>,
    ) -> Result<Output<C, M::Outcome, M::Answer>, NodeFault>
        requires whole { self.old.kept.broken ≡ false }
        requires still { self.old.ahead ≡ false }
        requires sound { IsSound D.state C.octets M.commands self.old }
        requires latest { IsLatest self.old.roles plan.change }
        requires own { has_own (config self.old).me plan.messages.items ≡ true }
        ensures come { HasCome D.state C.octets (store_of M.Question M.client_id M.outcome)
            self.old plan reply result self.new }
        ensures config { config self.new ≡ config self.old }
        ensures basis { M.basis self.new.machine ≡ M.basis self.old.machine }
        ensures whole { OnOk result (self.new.kept.broken ≡ false) }
        ensures still { OnOk result (self.new.ahead ≡ false) }
        ensures sound { IsSound D.state C.octets M.commands self.new }
    {
        let Ok(Some(size)) = room_for(self.alloc, plan.change.facts(), 0) else {
            return Err(NodeFault::Memory);
        };
        let mut staged = StagedFacts::empty(self.alloc);
        match self.begin(plan, size, reply, &mut staged) {
            Ok(output) => match self.append_staged(staged) {
                Ok(()) => Ok(output),
                Err(fault) => Err(fault),
            },
            Err(fault) => Err(fault),
        }
    }

    /// Makes a turn of a plan, and of the messages to the node itself, behind facts that are to be
    /// kept together with its own. Of all these there are so many octets with those of the plan. At
    /// a fault other than `Broken` nothing is changed.
    pub(crate) fn begin(
        &mut self,
        plan: Plan<C>,
        size: usize,
        reply: Reply<M::Outcome, M::Answer>,
        staged: &mut StagedFacts<C>,
    ) -> Result<Output<C, M::Outcome, M::Answer>, NodeFault>
        requires still { self.old.ahead ≡ false }
        requires staged { IsStaged D.state C.octets M.commands self.old staged.old.facts.items }
        requires ready { AreReady C.octets staged.old }
        requires latest { IsLatest self.old.roles plan.change }
        requires fit { AllFit C.octets (facts_in plan.change) }
        requires size { size ≡ staged.old.size
            + length (encodings C.octets (facts_in plan.change)) }
        requires short { size ≤ 4194500 }
        ensures begun { HasBegun C.octets (store_of M.Question M.client_id M.outcome)
            self.old plan reply staged.old.facts.items result staged.new.facts.items self.new }
        ensures kept { self.new.kept ≡ self.old.kept }
        ensures still { OnOk result (self.new.ahead ≡ false) }
        ensures staged { self.new.ahead ≡ false
            → IsStaged D.state C.octets M.commands self.new staged.new.facts.items }
        ensures ready { self.new.ahead ≡ false → AreReady C.octets staged.new }
        ensures config { config self.new ≡ config self.old }
        ensures basis { M.basis self.new.machine ≡ M.basis self.old.machine }
    {
        let mut turn = Turn::behind(self.alloc, staged.size);
        match self.roles.advance(plan, size, &mut turn) {
            Ok(()) => self.take_rest(turn, reply, staged),
            Err(_) => Err(NodeFault::Memory),
        }
    }

    /// A turn whose first step is made: the messages to the node itself, and the end.
    fn take_rest(
        &mut self,
        turn: Turn<C>,
        reply: Reply<M::Outcome, M::Answer>,
        staged: &mut StagedFacts<C>,
    ) -> Result<Output<C, M::Outcome, M::Answer>, NodeFault>
        requires still { self.old.ahead ≡ false }
        requires staged { IsStaged D.state C.octets M.commands self.old
            (staged.old.facts.items ++ turn.facts.items) }
        requires ready { AreReady C.octets staged.old }
        requires before { turn.before ≡ staged.old.size }
        requires held { IsHeld C.octets turn }
        requires none { turn.looked ≡ 0 }
        ensures rest { HasRest C.octets (store_of M.Question M.client_id M.outcome)
            self.old turn reply staged.old.facts.items result staged.new.facts.items self.new }
        ensures kept { self.new.kept ≡ self.old.kept }
        ensures still { OnOk result (self.new.ahead ≡ false) }
        ensures staged { self.new.ahead ≡ false
            → IsStaged D.state C.octets M.commands self.new staged.new.facts.items }
        ensures ready { self.new.ahead ≡ false → AreReady C.octets staged.new }
        ensures config { config self.new ≡ config self.old }
        ensures basis { M.basis self.new.machine ≡ M.basis self.old.machine }
    {
        let mut turn = turn;
        let Ok(()) = self.roles.take_own(&mut self.machine, &mut turn) else {
            return Err(self.give_up());
        };
        match staged.put(self.alloc, turn, self.roles.me) {
            Ok(messages) => Ok(Output { messages, reply }),
            Err(_) => Err(self.give_up()),
        }
    }

    /// Keeps the facts of turns, by one append.
    pub(crate) fn append_staged(&mut self, staged: StagedFacts<C>) -> Result<(), NodeFault>
        requires whole { self.old.kept.broken ≡ false }
        requires still { self.old.ahead ≡ false }
        requires staged { IsStaged D.state C.octets M.commands self.old staged.facts.items }
        requires ready { AreReady C.octets staged }
        ensures keeps { Keeps D.state self.old staged.facts.items (volatile self.old) result
            self.new }
        ensures moments { Moments D.state C.octets self.old staged.facts.items self.new }
        ensures none { OnOk result (staged.facts.items ≡ [] → self.new.kept ≡ self.old.kept) }
        ensures same { self.new ≡ record self.old { kept = self.new.kept; ahead = self.new.ahead } }
        ensures whole { OnOk result (self.new.kept.broken ≡ false) }
        ensures still { OnOk result (self.new.ahead ≡ false) }
        ensures sound { IsSound D.state C.octets M.commands self.new }
    {
        if are_none(&staged.facts) {
            return Ok(());
        }
        match self.kept.append(self.alloc, &staged.facts) {
            Ok(()) => Ok(()),
            Err(fault) => Err(self.stop(fault)),
        }
    }

    /// The node's fault for a fault of the record at the end of a turn: where no device failed, the
    /// roles are ahead of the record, and the node is broken.
    fn stop(&mut self, fault: RecordFault) -> NodeFault
        ensures failed { fault ≡ DiskFailed
            → (result ≡ NodeFault.DiskFailed) × (self.new ≡ self.old) }
        ensures other { (fault ≡ DiskFailed → ⊥)
            → (result ≡ NodeFault.Broken) × (self.new ≡ record self.old { ahead = true }) }
        ensures same { self.new ≡ record self.old { ahead = self.new.ahead } }
    {
        match fault {
            RecordFault::DiskFailed => NodeFault::DiskFailed,
            _ => self.give_up(),
        }
    }

    /// Breaks the node: its roles are ahead of the record.
    pub(crate) fn give_up(&mut self) -> NodeFault
        ensures fault { result ≡ NodeFault.Broken }
        ensures ahead { self.new ≡ record self.old { ahead = true } }
    {
        self.ahead = true;
        NodeFault::Broken
    }
}
