//! A node on two disks.

ghost use Rattle.std.specs.Prelude.{◌≡◌, ◌≤◌, ◌⊎◌, ◌+◌, ◌^◌, [], ℕ, List, false, true, IfOk, IfErr};
ghost use Rattle.std.specs.Prelude.{OnOk, OnErr, MatchResult, IsErrOf, ◌++◌, length};
ghost use Rattle.ts_disk.specs.Disk.{State};
ghost use Rattle.ts_journal.specs.Images.{Member, AnyPair, EveryPair};
ghost use Rattle.ts_journal.specs.Choice.{IsChosen};
ghost use Rattle.ts_journal.specs.declared.choice.Choice.{Choice};
ghost use Rattle.ts_synod.specs.declared.message.Fact.{Fact};
ghost use Rattle.ts_synod.specs.declared.message.Message.{Message};
ghost use Rattle.ts_synod.specs.Laws.{node_with};
ghost use Rattle.ts_synod.specs.Node as world;
ghost use Rattle.ts_synod.specs.Node.{initial};
ghost use Rattle.ts_node.specs.Machine.{store_of};
ghost use Rattle.ts_node.specs.Inputs.{InputFits, IsInput};
ghost use Rattle.ts_node.specs.Call.{IsCall};
ghost use Rattle.ts_record.specs.declared.fault.RecordFault.TheVariants.{Memory, DiskFailed};
ghost use Rattle.ts_record.specs.Facts.{AllFit, OpensTo, encodings};
ghost use Rattle.ts_node.specs.inside.Roles.{IsLatest, facts_in, volatile_after};
ghost use Rattle.ts_record.specs.Record.{OpensToForce};
ghost use Rattle.ts_synod.specs.Force.{SameForce};
ghost use Rattle.ts_record.specs.Opening.{IsFault, NothingNew};
ghost use Rattle.ts_node.specs.Node.{Compacts, HasFailed, Handles, IsSound, Moments, config};
ghost use Rattle.ts_node.specs.Node.{fault_as};
ghost use Rattle.ts_node.specs.Node.{facts, is_broken, owner, volatile};

use crate::identity::Identity;
use crate::input::{Input, Output, Reply};
use crate::machine::Machine;
use crate::plan::Plan;
use crate::roles::Roles;
use std::alloc::Global;
use ts_disk::Disk;
use ts_record::{Record, RecordFault};
use ts_synod::{Codec, Command, Message, NodeFault};

/// A node: a record on two disks, the three roles, and a state machine that takes the learned
/// commands.
#[derive(Drop)]
pub struct Node<D: Disk, C: Codec, M> {
    pub(crate) alloc: Global,
    pub(crate) kept: Record<D, C>,
    pub(crate) roles: Roles<C>,
    pub(crate) machine: M,
    /// Whether the roles stand for facts of a turn that the record could not keep, since memory was
    /// refused.
    pub(crate) ahead: bool,
}

/// Why a node was not opened, its two disks and the machine.
#[derive(Drop)]
pub struct RefusedNode<D, M> {
    pub fault: RecordFault,
    pub a: D,
    pub b: D,
    pub machine: M,
}

impl<D: Disk, C: Command + Codec, M: Machine<C>> Node<D, C, M> {
    /// Opens the node whose record is on two disks: the world's node after a restart, on the
    /// record's facts. Refused, it gives the disks and the machine back.
    pub fn open(alloc: Global, a: D, b: D, machine: M) -> Result<Node<D, C, M>, RefusedNode<D, M>>
        requires { M.commands machine ≡ [] }
        // Each pair of images that a crash may leave opens to the facts, as the record of this
        // node.
        ensures opens { IfOk result (λ node. AnyPair (OpensTo C.octets (owner node) (facts node))
            (D.state node.kept.a) (D.state node.kept.b)) }
        ensures sound { IfOk result (λ node. IsSound D.state C.octets M.commands node) }
        ensures restarted { IfOk result (λ node. volatile node ≡ initial) }
        ensures whole { IfOk result (λ node. is_broken node ≡ false) }
        // Which node it is is in the header of the disk in use.
        ensures owner { IfOk result (λ node. (choice : Choice)
            × IsChosen choice (D.state a).read (D.state b).read
            × (config node ≡ record { nodes = choice.owner.nodes; me = choice.owner.node })) }
        // Where the two images open to facts as the record of a member, these are the node's, and
        // it is that member; or memory or a device failed.
        ensures only { (whose : Member) (kept : List (Fact C))
            → OpensTo C.octets whose kept (D.state a).read (D.state b).read
            → MatchResult result (λ node. (facts node ≡ kept) × (owner node ≡ whose))
            (λ refused. (refused.fault ≡ Memory) ⊎ (refused.fault ≡ DiskFailed)) }
        // A crash at any moment within the call leaves nothing that it could not leave before.
        ensures moments { MatchResult result
            (λ node. NothingNew (D.state a) (D.state b) (D.state node.kept.a) (D.state node.kept.b))
            (λ refused. NothingNew (D.state a) (D.state b)
            (D.state refused.a) (D.state refused.b)) }
        // A fault other than out of memory is the record's.
        ensures fault { IfErr result (λ refused. IsFault C.octets (D.state a) (D.state b)
            (D.state refused.a) (D.state refused.b) refused.fault) }
        ensures same { MatchResult result
            (λ node. ((D.state node.kept.a).read ≡ (D.state a).read)
            × ((D.state node.kept.b).read ≡ (D.state b).read))
            (λ refused. ((D.state refused.a).read ≡ (D.state a).read)
            × ((D.state refused.b).read ≡ (D.state b).read)) }
        ensures machine { MatchResult result (λ node. node.machine ≡ machine)
            (λ refused. refused.machine ≡ machine) }
    {
        let kept = match Record::open(alloc, a, b) {
            Ok(kept) => kept,
            Err(refused) => {
                return Err(RefusedNode {
                    fault: refused.fault,
                    a: refused.a,
                    b: refused.b,
                    machine,
                });
            }
        };
        match Roles::open(alloc, kept.node(), kept.nodes(), kept.facts()) {
            Ok(roles) => Ok(Node {
                alloc,
                kept,
                roles,
                machine,
                ahead: false,
            }),
            Err(_) => {
                let (a, b) = kept.close();
                Err(RefusedNode {
                    fault: RecordFault::Memory,
                    a,
                    b,
                    machine,
                })
            }
        }
    }

    /// Which node of which group it is, as the header of its record has it.
    pub fn identity(&self) -> Identity
        ensures node { result.node ≡ self.now.kept.node }
        ensures nodes { result.nodes ≡ self.now.kept.nodes }
        ensures group { result.group ≡ self.now.kept.group }
    {
        Identity {
            node: self.kept.node(),
            nodes: self.kept.nodes(),
            group: self.kept.group(),
        }
    }

    /// Gives the two disks and the machine back, also of a broken node.
    pub fn close(self) -> (D, D, M)
        ensures a { result.0 ≡ self.kept.a }
        ensures b { result.1 ≡ self.kept.b }
        ensures machine { result.2 ≡ self.machine }
    {
        let Node {
            alloc: _alloc,
            kept,
            roles: _roles,
            machine,
            ahead: _ahead,
        } = self;
        let (a, b) = kept.close();
        (a, b, machine)
    }

    /// Whether a device failed, or memory was refused to a turn whose roles were ahead of the
    /// record. The node then does nothing more until it is opened again.
    pub fn is_broken(&self) -> bool
        ensures broken { result ≡ is_broken self.now }
        ensures whole { result ≡ false → self.now.kept.broken ≡ false }
        ensures still { result ≡ false → self.now.ahead ≡ false }
    {
        if self.ahead {
            return true;
        }
        self.kept.is_broken()
    }

    /// Keeps the facts of a plan, and makes its change once they are kept.
    pub(crate) fn commit(&mut self, plan: Plan<C>) -> Result<Vec<Message<C>>, NodeFault>
        requires whole { self.old.kept.broken ≡ false }
        requires still { self.old.ahead ≡ false }
        requires sound { IsSound D.state C.octets M.commands self.old }
        requires latest { IsLatest self.old.roles plan.change }
        requires fit { AllFit C.octets (facts_in plan.change) }
        requires short { length (encodings C.octets (facts_in plan.change)) ≤ 4194500 }
        ensures facts { OnOk result (facts self.new ≡ facts self.old ++ facts_in plan.change) }
        ensures volatile { OnOk result
            (volatile self.new ≡ volatile_after self.old.roles plan.change) }
        ensures messages { IfOk result (λ messages. messages.items ≡ plan.messages.items) }
        ensures config { config self.new ≡ config self.old }
        ensures machine { self.new.machine ≡ self.old.machine }
        ensures moments { Moments D.state C.octets self.old (facts_in plan.change) self.new }
        ensures sound { IsSound D.state C.octets M.commands self.new }
        ensures whole { OnOk result (self.new.kept.broken ≡ false) }
        ensures ahead { self.new.ahead ≡ self.old.ahead }
        ensures fault { IfErr result (λ fault. (fault ≡ NodeFault.Memory)
            ⊎ (fault ≡ NodeFault.DiskFailed)) }
        ensures memory { IsErrOf result NodeFault.Memory
            → (self.new.kept ≡ self.old.kept) × (self.new.roles ≡ self.old.roles) }
        ensures failed { IsErrOf result NodeFault.DiskFailed
            → (self.new.kept.broken ≡ true) × HasFailed D.state self.old self.new }
    {
        let Plan { messages, change } = plan;
        match self.kept.append(self.alloc, change.facts()) {
            Ok(()) => {
                self.roles.keep(change);
                Ok(messages)
            }
            Err(fault) => Err(fault_of(fault)),
        }
    }

    /// Makes one step of a rewrite of the record.
    pub(crate) fn compact(&mut self) -> Result<Output<C, M::Outcome, M::Answer>, NodeFault>
        requires whole { self.old.kept.broken ≡ false }
        requires still { self.old.ahead ≡ false }
        requires sound { IsSound D.state C.octets M.commands self.old }
        ensures step { Compacts self.old result self.new }
        ensures exhausted { self.old.kept.generation + 1 ≡ 2 ^ 64
            → IsErrOf result NodeFault.GenerationsExhausted }
        ensures moments { EveryPair (OpensToForce C.octets (owner self.old) (facts self.old))
            (D.state self.old.kept.a) (D.state self.old.kept.b) (D.state self.new.kept.a)
            (D.state self.new.kept.b) }
        ensures sound { IsSound D.state C.octets M.commands self.new }
        ensures config { config self.new ≡ config self.old }
        ensures basis { M.basis self.new.machine ≡ M.basis self.old.machine }
        ensures whole { OnOk result (self.new.kept.broken ≡ false) }
        ensures ahead { self.new.ahead ≡ self.old.ahead }
        ensures failed { IsErrOf result NodeFault.DiskFailed
            → (self.new.kept.broken ≡ true) × HasFailed D.state self.old self.new }
    {
        match self.kept.compact(self.alloc) {
            Ok(progress) => Ok(Output {
                messages: Vec::new(self.alloc),
                reply: Reply::Compacted(progress),
            }),
            Err(fault) => Err(fault_of(fault)),
        }
    }

    /// Takes an input. What it keeps is on disk before it answers, and so before a message can be
    /// sent.
    pub fn handle(
        &mut self,
        input: &Input<C, M::Question>,
    ) -> Result<Output<C, M::Outcome, M::Answer>, NodeFault>
        requires sound { IsSound D.state C.octets M.commands self.old }
        requires fits { InputFits C.octets input.now }
        ensures call { IsCall D.state C.octets (store_of M.Question M.client_id M.outcome)
            M.basis M.is_answer self.old input.now result self.new }
        ensures sound { IsSound D.state C.octets M.commands self.new }
    {
        if self.is_broken() {
            return Err(NodeFault::Broken);
        }
        match input {
            Input::Compact => self.compact(),
            _ => self.take(input),
        }
    }

    /// Takes an input that is no compaction.
    fn take(
        &mut self,
        input: &Input<C, M::Question>,
    ) -> Result<Output<C, M::Outcome, M::Answer>, NodeFault>
        requires whole { self.old.kept.broken ≡ false }
        requires still { self.old.ahead ≡ false }
        requires sound { IsSound D.state C.octets M.commands self.old }
        requires fits { InputFits C.octets input.now }
        requires event { input.now ≡ Input.Compact → ⊥ }
        ensures step { (sent : List (Message C)) (event : world.Input C M.Question)
            → IsInput sent input.now event
            → Handles (M.is_answer (M.basis self.old.machine)) self.old result self.new
            (world.step (store_of M.Question M.client_id M.outcome) (config self.old)
            (node_with (facts self.old) (volatile self.old)) sent event) }
        ensures moments { (sent : List (Message C)) (event : world.Input C M.Question)
            → IsInput sent input.now event
            → Moments D.state C.octets self.old
            (world.step (store_of M.Question M.client_id M.outcome) (config self.old)
            (node_with (facts self.old) (volatile self.old)) sent event).effect.facts self.new }
        ensures sound { IsSound D.state C.octets M.commands self.new }
        ensures config { config self.new ≡ config self.old }
        ensures basis { M.basis self.new.machine ≡ M.basis self.old.machine }
        ensures whole { OnOk result (self.new.kept.broken ≡ false) }
        ensures ahead { self.new.ahead ≡ self.old.ahead }
        ensures failed { IsErrOf result NodeFault.DiskFailed
            → (self.new.kept.broken ≡ true) × HasFailed D.state self.old self.new }
    {
        match self.roles.plan_input(&mut self.machine, input) {
            Ok((plan, reply)) => match self.commit(plan) {
                Ok(messages) => Ok(Output { messages, reply }),
                Err(fault) => Err(fault),
            },
            Err(fault) => Err(fault),
        }
    }
}

/// The node's fault for a record's fault.
fn fault_of(fault: RecordFault) -> NodeFault
    ensures { result ≡ fault_as fault }
{
    match fault {
        RecordFault::Memory => NodeFault::Memory,
        RecordFault::DiskFailed => NodeFault::DiskFailed,
        RecordFault::GenerationsExhausted => NodeFault::GenerationsExhausted,
        _ => NodeFault::Broken,
    }
}
