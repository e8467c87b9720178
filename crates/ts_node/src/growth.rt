//! Messages that the log learns from, and what follows where its prefix grows.

ghost use Rattle.std.specs.Prelude.{◌≡◌, ◌<◌, ◌≤◌, ◌++◌, IfOk, OnOk, List, length, drop, true};
ghost use Rattle.std.specs.Prelude.{false, ◌≢◌};
ghost use Rattle.ts_synod.specs.declared.message.Fact.{Fact};
ghost use Rattle.ts_synod.specs.Store.{same_id};
ghost use Rattle.ts_synod.specs.Force.{log_of};
ghost use Rattle.ts_synod.specs.Log.{LogStep as LogRule, on_accepted, on_give, prefix};
ghost use Rattle.ts_synod.specs.Node.{log_then_proposer, position_for_wanted};
ghost use Rattle.ts_proposer.specs.Proposer.{state_of};
ghost use Rattle.ts_log.specs.Log.{learned_of};
ghost use Rattle.ts_log.specs.Steps as log_steps;
ghost use Rattle.ts_node.specs.Machine.{store_of};
ghost use Rattle.ts_node.specs.Growing.{IsPart, has_id};
ghost use Rattle.ts_node.specs.Roles.{StandFor, config_of, volatile_of};
ghost use Rattle.ts_node.specs.inside.Roles.{IsLatest, Makes, AreUnchanged};

use crate::feeding::feed;
use crate::machine::Machine;
use crate::plan::{Move, Plan};
use crate::roles::Roles;
use std::alloc::{AllocError, Global};
use std::mem::replace;
use ts_log::{LAST_POSITION, LogEffect as LogStep};
use ts_synod::{Ballot, Command, Fact};

/// Copies facts after others.
pub(crate) fn push_copies<C: Command>(
    alloc: Global,
    facts: &mut Vec<Fact<C>>,
    more: &[Fact<C>],
) -> Result<(), AllocError>
    ensures { OnOk result (facts.new.items ≡ facts.old.items ++ more.now) }
{
    for fact in more {
        facts.push(fact.try_copy(alloc)?)?;
    }
    Ok(())
}

/// Whether two ids have the same octets.
pub(crate) fn is_same(a: &[u8], b: &[u8]) -> bool
    ensures equal { result ≡ true → a.now ≡ b.now }
    ensures different { result ≡ false → a.now ≢ b.now }
{
    a == b
}

/// Whether a command has this id.
fn has_this_id<C: Command, M: Machine<C>>(command: &C, id: &[u8; 16]) -> bool
    ensures { result ≡ same_id (M.client_id command.now) id.now }
{
    let other = M::id_of(command);
    is_same(&other, id)
}

impl<C: Command> Roles<C> {
    /// Whether one of the commands that join the prefix with a step has this id. It looks at those
    /// alone.
    fn joins<M: Machine<C>>(
        &self,
        step: &LogStep<C>,
        id: &[u8; 16],
        before: u32,
        after: u32,
    ) -> bool
        requires within { before ≤ after }
        requires after { after ≡ length
            (prefix (log_steps.learned_after self.now.log step.now.change)) }
        ensures { result ≡ has_id M.client_id id.now
            (drop before (prefix (log_steps.learned_after self.now.log step.now.change))) }
    {
        for joined in before..after {
            if let Some(command) = self.log.command_after(step, joined + 1) {
                if has_this_id::<C, M>(command, id) {
                    return true;
                }
            }
        }
        false
    }

    /// Where the wanted command can be proposed once a step is kept that makes the prefix grow from
    /// one length to another.
    fn next_for_wanted<M: Machine<C>>(
        &self,
        machine: &mut M,
        step: &LogStep<C>,
        before: u32,
        after: u32,
    ) -> Result<Option<u32>, AllocError>
        requires part { IsPart (M.commands machine.old) (learned_of self.now.log) }
        requires latest { log_steps.IsLatest self.now.log step.now }
        requires before { before ≡ length (prefix (learned_of self.now.log)) }
        requires after { after ≡ length
            (prefix (log_steps.learned_after self.now.log step.now.change)) }
        requires grown { before < after }
        ensures next { IfOk result (λ next. next
            ≡ position_for_wanted (store_of M.Question M.client_id M.outcome) (config_of self.now)
            (log_steps.learned_after self.now.log step.now.change)
            (state_of self.now.proposer).wanted) }
        ensures part { IsPart (M.commands machine.new) (learned_of self.now.log) }
        ensures basis { M.basis machine.new ≡ M.basis machine.old }
    {
        let Some(command) = self.proposer.wanted() else {
            return Ok(None);
        };
        feed(&self.log, machine)?;
        let id = M::id_of(command);
        if machine.settled(&id).is_some() || self.joins::<M>(step, &id, before, after) {
            return Ok(None);
        }
        if after >= LAST_POSITION {
            return Ok(None);
        }
        Ok(Some(after + 1))
    }

    /// The plan that makes the log's step, and the proposer's after it where the prefix grows.
    fn plan_learned<M: Machine<C>>(
        &self,
        machine: &mut M,
        step: LogStep<C>,
    ) -> Result<Plan<C>, AllocError>
        requires stand { (facts : List (Fact C)) × StandFor self.now facts }
        requires part { IsPart (M.commands machine.old) (learned_of self.now.log) }
        requires latest { log_steps.IsLatest self.now.log step }
        ensures plan { IfOk result (λ plan. (facts : List (Fact C)) (rule : LogRule C)
            → StandFor self.now facts → log_steps.Makes self.now.log step rule
            → Makes self.now plan (log_then_proposer (store_of M.Question M.client_id M.outcome)
            (config_of self.now) facts (volatile_of self.now) rule)) }
        ensures latest { IfOk result (λ plan. IsLatest self.now plan.change) }
        ensures part { IsPart (M.commands machine.new) (learned_of self.now.log) }
        ensures basis { M.basis machine.new ≡ M.basis machine.old }
    {
        let before = self.log.prefix();
        let after = self.log.prefix_after(&step);
        let mut step = step;
        let mut messages = replace(&mut step.messages, Vec::new(self.alloc));
        if after <= before {
            return Ok(Plan {
                messages,
                change: Move::Learn(step),
            });
        }
        let next = self.next_for_wanted(machine, &step, before, after)?;
        let mut growth = self.proposer.on_growth(next)?;
        messages.append(&mut growth.messages)?;
        let mut facts = Vec::new(self.alloc);
        push_copies(self.alloc, &mut facts, &step.facts)?;
        push_copies(self.alloc, &mut facts, &growth.facts)?;
        Ok(Plan {
            messages,
            change: Move::Grow(step, growth, facts),
        })
    }

    /// The plan that answers an Accepted.
    pub fn plan_accepted<M: Machine<C>>(
        &mut self,
        machine: &mut M,
        from: u8,
        position: u32,
        ballot: Ballot,
        command: &C,
    ) -> Result<Plan<C>, AllocError>
        requires stand { (facts : List (Fact C)) × StandFor self.old facts }
        requires part { IsPart (M.commands machine.old) (learned_of self.old.log) }
        ensures plan { IfOk result (λ plan. (facts : List (Fact C)) → StandFor self.old facts
            → Makes self.new plan (log_then_proposer (store_of M.Question M.client_id M.outcome)
            (config_of self.old) facts (volatile_of self.old)
            (on_accepted (config_of self.old) (log_of facts)
            (volatile_of self.old).received from position ballot command.now))) }
        ensures latest { IfOk result (λ plan. IsLatest self.new plan.change) }
        ensures same { AreUnchanged self.old self.new }
        ensures part { IsPart (M.commands machine.new) (learned_of self.new.log) }
        ensures basis { M.basis machine.new ≡ M.basis machine.old }
    {
        let step = self.log.on_accepted(from, position, ballot, command)?;
        let plan = self.plan_learned(machine, step)?;
        Ok(plan)
    }

    /// The plan that answers a Give.
    pub fn plan_give<M: Machine<C>>(
        &mut self,
        machine: &mut M,
        from: u8,
        position: u32,
        command: &C,
    ) -> Result<Plan<C>, AllocError>
        requires stand { (facts : List (Fact C)) × StandFor self.old facts }
        requires part { IsPart (M.commands machine.old) (learned_of self.old.log) }
        ensures plan { IfOk result (λ plan. (facts : List (Fact C)) → StandFor self.old facts
            → Makes self.new plan (log_then_proposer (store_of M.Question M.client_id M.outcome)
            (config_of self.old) facts (volatile_of self.old)
            (on_give (config_of self.old) (log_of facts)
            (volatile_of self.old).received from position command.now))) }
        ensures latest { IfOk result (λ plan. IsLatest self.new plan.change) }
        ensures same { AreUnchanged self.old self.new }
        ensures part { IsPart (M.commands machine.new) (learned_of self.new.log) }
        ensures basis { M.basis machine.new ≡ M.basis machine.old }
    {
        let step = self.log.on_give(from, position, command)?;
        let plan = self.plan_learned(machine, step)?;
        Ok(plan)
    }
}
