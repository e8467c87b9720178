//! The plan for an input.

ghost use Rattle.std.specs.Prelude.{◌≡◌, IfOk, List};
ghost use Rattle.ts_synod.specs.declared.message.Fact.{Fact};
ghost use Rattle.ts_synod.specs.declared.message.Message.{Message};
ghost use Rattle.ts_synod.specs.Laws.{node_with};
ghost use Rattle.ts_synod.specs.Node as world;
ghost use Rattle.ts_log.specs.Log.{learned_of};
ghost use Rattle.ts_node.specs.Machine.{store_of};
ghost use Rattle.ts_node.specs.Growing.{IsPart};
ghost use Rattle.ts_node.specs.Inputs.{IsInput, Submits};
ghost use Rattle.ts_node.specs.Roles.{StandFor, config_of, volatile_of};
ghost use Rattle.ts_node.specs.inside.Roles.{IsLatest, Makes, AreUnchanged};

use crate::input::{Input, Reply};
use crate::machine::Machine;
use crate::plan::Plan;
use crate::roles::Roles;
use std::alloc::AllocError;
use ts_synod::{Body, Command, Fact, Message, NodeFault};

impl<C: Command> Roles<C> {
    /// The plan that answers a body that a node sent to this one.
    fn plan_body<M: Machine<C>>(
        &mut self,
        machine: &mut M,
        from: u8,
        body: &Body<C>,
    ) -> Result<Plan<C>, AllocError>
        requires stand { (facts : List (Fact C)) × StandFor self.old facts }
        requires part { IsPart (M.commands machine.old) (learned_of self.old.log) }
        ensures plan { IfOk result (λ plan. (facts : List (Fact C)) → StandFor self.old facts
            → Makes self.new plan (world.on_body (store_of M.Question M.client_id M.outcome)
            (config_of self.old) facts (volatile_of self.old) from body.now)) }
        ensures latest { IfOk result (λ plan. IsLatest self.new plan.change) }
        ensures same { AreUnchanged self.old self.new }
        ensures part { IsPart (M.commands machine.new) (learned_of self.new.log) }
        ensures basis { M.basis machine.new ≡ M.basis machine.old }
    {
        match body {
            Body::Prepare { position, ballot } => {
                let plan = self.plan_prepare(from, *position, *ballot)?;
                Ok(plan)
            }
            Body::Promise {
                position,
                ballot,
                taken,
            } => {
                let plan = self.plan_promise(from, *position, *ballot, taken)?;
                Ok(plan)
            }
            Body::Busy {
                position,
                ballot,
                promised,
            } => {
                let plan = self.plan_busy(*position, *ballot, *promised)?;
                Ok(plan)
            }
            Body::Accept {
                position,
                ballot,
                command,
            } => {
                let plan = self.plan_accept(from, *position, *ballot, command)?;
                Ok(plan)
            }
            Body::Accepted {
                position,
                ballot,
                command,
            } => {
                let plan = self.plan_accepted(machine, from, *position, *ballot, command)?;
                Ok(plan)
            }
            Body::Ask { position } => {
                let plan = self.plan_ask(from, *position)?;
                Ok(plan)
            }
            Body::Give { position, command } => {
                let plan = self.plan_give(machine, from, *position, command)?;
                Ok(plan)
            }
        }
    }

    /// The plan that answers a message. One for another node, or from a number that is no node,
    /// changes nothing.
    pub fn plan_message<M: Machine<C>>(
        &mut self,
        machine: &mut M,
        message: &Message<C>,
    ) -> Result<Plan<C>, AllocError>
        requires stand { (facts : List (Fact C)) × StandFor self.old facts }
        requires part { IsPart (M.commands machine.old) (learned_of self.old.log) }
        ensures plan { IfOk result (λ plan. (facts : List (Fact C)) → StandFor self.old facts
            → Makes self.new plan (world.on_message (store_of M.Question M.client_id M.outcome)
            (config_of self.old) facts (volatile_of self.old) message.now)) }
        ensures latest { IfOk result (λ plan. IsLatest self.new plan.change) }
        ensures same { AreUnchanged self.old self.new }
        ensures part { IsPart (M.commands machine.new) (learned_of self.new.log) }
        ensures basis { M.basis machine.new ≡ M.basis machine.old }
    {
        if message.to == self.me && 1 <= message.from && message.from <= self.nodes {
            let plan = self.plan_body(machine, message.from, &message.body)?;
            return Ok(plan);
        }
        Ok(self.plan_nothing())
    }

    /// The plan and the reply for an input that is no compaction.
    pub fn plan_input<M: Machine<C>>(
        &mut self,
        machine: &mut M,
        input: &Input<C, M::Question>,
    ) -> Result<(Plan<C>, Reply<M::Outcome, M::Answer>), NodeFault>
        requires stand { (facts : List (Fact C)) × StandFor self.old facts }
        requires part { IsPart (M.commands machine.old) (learned_of self.old.log) }
        ensures step { (facts : List (Fact C)) (sent : List (Message C))
            (event : world.Input C M.Question) → StandFor self.old facts
            → IsInput sent input.now event
            → Submits (M.is_answer (M.basis machine.old)) self.new result
            (world.step (store_of M.Question M.client_id M.outcome) (config_of self.old)
            (node_with facts (volatile_of self.old)) sent event) }
        ensures latest { IfOk result (λ step. IsLatest self.new step.0.change) }
        ensures same { AreUnchanged self.old self.new }
        ensures part { IsPart (M.commands machine.new) (learned_of self.new.log) }
        ensures basis { M.basis machine.new ≡ M.basis machine.old }
    {
        match input {
            Input::Deliver(message) => {
                let plan = self.plan_message(machine, message)?;
                Ok((plan, Reply::Done))
            }
            Input::Submit(command) => {
                let step = self.plan_submit(machine, command)?;
                Ok(step)
            }
            Input::Ask { k, question } => {
                let reply = self.answer(machine, *k, question)?;
                Ok((self.plan_nothing(), reply))
            }
            Input::Outcome(id) => {
                let reply = self.outcome(machine, id)?;
                Ok((self.plan_nothing(), reply))
            }
            Input::CatchUp => {
                let plan = self.plan_catch_up()?;
                Ok((plan, Reply::Done))
            }
            Input::Status => Ok((self.plan_nothing(), Reply::Prefix(self.log.prefix()))),
            Input::Compact => Ok((self.plan_nothing(), Reply::Done)),
        }
    }
}
