//! Messages to acceptor and proposer, and the requests of messages.

ghost use Rattle.std.specs.Prelude.{◌≡◌, ◌≤◌, ◌&&◌, ◌==◌, IfOk, List, true, false};
ghost use Rattle.ts_synod.specs.declared.message.Fact.{Fact};
ghost use Rattle.ts_synod.specs.Config.{is_node};
ghost use Rattle.ts_synod.specs.Force.{log_of, promised_ballot, taken_vote};
ghost use Rattle.ts_synod.specs.Acceptor.{on_accept, on_prepare, only_messages};
ghost use Rattle.ts_synod.specs.Proposer.{on_busy, on_promise};
ghost use Rattle.ts_synod.specs.Log.{catch_up, on_ask};
ghost use Rattle.ts_synod.specs.Node.{no_effect, output_effect, proposer_effect};
ghost use Rattle.ts_node.specs.Roles.{StandFor, config_of, volatile_of};
ghost use Rattle.ts_node.specs.inside.Roles.{IsLatest, Makes, AreUnchanged};

use crate::plan::{Move, Plan};
use crate::roles::Roles;
use std::alloc::AllocError;
use std::mem::replace;
use ts_synod::{Ballot, Command, Fact, Vote, copy_of_vote};

impl<C: Command> Roles<C> {
    /// The plan to do nothing.
    pub fn plan_nothing(&self) -> Plan<C>
        ensures plan { Makes self.now result (no_effect (volatile_of self.now)) }
        ensures latest { IsLatest self.now result.change }
    {
        Plan {
            messages: Vec::new(self.alloc),
            change: Move::Nothing,
        }
    }

    /// The plan that answers a Prepare.
    pub fn plan_prepare(
        &mut self,
        from: u8,
        position: u32,
        ballot: Ballot,
    ) -> Result<Plan<C>, AllocError>
        ensures plan { IfOk result (λ plan. (facts : List (Fact C)) → StandFor self.old facts
            → Makes self.new plan (output_effect (volatile_of self.old)
            (on_prepare (config_of self.old) (promised_ballot position facts)
            (taken_vote position facts) from position ballot))) }
        ensures latest { IfOk result (λ plan. IsLatest self.new plan.change) }
        ensures same { AreUnchanged self.old self.new }
    {
        let mut step = self.acceptor.on_prepare(from, position, ballot)?;
        let messages = replace(&mut step.messages, Vec::new(self.alloc));
        Ok(Plan {
            messages,
            change: Move::Accept(step),
        })
    }

    /// The plan that answers an Accept.
    pub fn plan_accept(
        &mut self,
        from: u8,
        position: u32,
        ballot: Ballot,
        command: &C,
    ) -> Result<Plan<C>, AllocError>
        requires { (facts : List (Fact C)) × StandFor self.old facts }
        ensures plan { IfOk result (λ plan. (facts : List (Fact C)) → StandFor self.old facts
            → Makes self.new plan (output_effect (volatile_of self.old)
            (on_accept (config_of self.old) (promised_ballot position facts)
            (taken_vote position facts) from position ballot command.now))) }
        ensures latest { IfOk result (λ plan. IsLatest self.new plan.change) }
        ensures same { AreUnchanged self.old self.new }
    {
        let mut step = self.acceptor.on_accept(from, position, ballot, command)?;
        let messages = replace(&mut step.messages, Vec::new(self.alloc));
        Ok(Plan {
            messages,
            change: Move::Accept(step),
        })
    }

    /// The plan that answers a Promise.
    pub fn plan_promise(
        &mut self,
        from: u8,
        position: u32,
        ballot: Ballot,
        taken: &Option<Vote<C>>,
    ) -> Result<Plan<C>, AllocError>
        requires { (facts : List (Fact C)) × StandFor self.old facts }
        ensures plan { IfOk result (λ plan. Makes self.new plan
            (proposer_effect (volatile_of self.old)
            (on_promise (config_of self.old)
            (volatile_of self.old).proposer from position ballot taken.now))) }
        ensures latest { IfOk result (λ plan. IsLatest self.new plan.change) }
        ensures same { AreUnchanged self.old self.new }
    {
        let taken = copy_of_vote(self.alloc, taken)?;
        let mut step = self.proposer.on_promise(from, position, ballot, taken)?;
        let messages = replace(&mut step.messages, Vec::new(self.alloc));
        Ok(Plan {
            messages,
            change: Move::Propose(step),
        })
    }

    /// The plan that answers a Busy.
    pub fn plan_busy(
        &self,
        position: u32,
        ballot: Ballot,
        promised: Ballot,
    ) -> Result<Plan<C>, AllocError>
        requires { (facts : List (Fact C)) × StandFor self.now facts }
        ensures plan { IfOk result (λ plan. Makes self.now plan
            (proposer_effect (volatile_of self.now)
            (on_busy (config_of self.now) (volatile_of self.now).proposer position ballot
            promised))) }
        ensures latest { IfOk result (λ plan. IsLatest self.now plan.change) }
    {
        let mut step = self.proposer.on_busy(position, ballot, promised)?;
        let messages = replace(&mut step.messages, Vec::new(self.alloc));
        Ok(Plan {
            messages,
            change: Move::Propose(step),
        })
    }

    /// The plan that answers an Ask.
    pub fn plan_ask(&self, from: u8, position: u32) -> Result<Plan<C>, AllocError>
        ensures plan { IfOk result (λ plan. (facts : List (Fact C)) → StandFor self.now facts
            → Makes self.now plan (output_effect (volatile_of self.now)
            (only_messages (on_ask (config_of self.now) (log_of facts) from position)))) }
        ensures latest { IfOk result (λ plan. IsLatest self.now plan.change) }
    {
        let mut step = self.log.on_ask(from, position)?;
        let messages = replace(&mut step.messages, Vec::new(self.alloc));
        Ok(Plan {
            messages,
            change: Move::Nothing,
        })
    }

    /// The plan that asks the other nodes for the position after the prefix.
    pub fn plan_catch_up(&self) -> Result<Plan<C>, AllocError>
        requires { (facts : List (Fact C)) × StandFor self.now facts }
        ensures plan { IfOk result (λ plan. (facts : List (Fact C)) → StandFor self.now facts
            → Makes self.now plan (output_effect (volatile_of self.now)
            (only_messages (catch_up (config_of self.now) (log_of facts))))) }
        ensures latest { IfOk result (λ plan. IsLatest self.now plan.change) }
    {
        let mut step = self.log.catch_up()?;
        let messages = replace(&mut step.messages, Vec::new(self.alloc));
        Ok(Plan {
            messages,
            change: Move::Nothing,
        })
    }
}
