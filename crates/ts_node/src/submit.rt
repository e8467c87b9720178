//! A command of a client, and the questions that only read.

ghost use Rattle.std.specs.Prelude.{◌≡◌, ◌≤◌, IfOk, IfErr, MatchResult, List, ◌⊎◌};
ghost use Rattle.ts_synod.specs.declared.message.Fact.{Fact};
ghost use Rattle.ts_synod.specs.Force.{log_of};
ghost use Rattle.ts_synod.specs.Log.{prefix};
ghost use Rattle.ts_synod.specs.Laws.{node_with};
ghost use Rattle.ts_synod.specs.Node.{on_question, on_submit, outcome_reply};
ghost use Rattle.ts_synod.specs.Store.{settling};
ghost use Rattle.ts_log.specs.Log.{learned_of};
ghost use Rattle.ts_node.specs.Machine.{store_of};
ghost use Rattle.ts_node.specs.Growing.{IsPart};
ghost use Rattle.ts_node.specs.Inputs.{SaysReply, Submits};
ghost use Rattle.ts_node.specs.Roles.{StandFor, config_of, volatile_of};
ghost use Rattle.ts_node.specs.inside.Roles.{IsLatest, Makes};

use crate::feeding::feed;
use crate::input::Reply;
use crate::machine::Machine;
use crate::plan::{Move, Plan};
use crate::roles::Roles;
use std::alloc::AllocError;
use std::mem::replace;
use ts_proposer::ProposeFault;
use ts_synod::{Command, Fact, NodeFault, ballot_of};

impl<C: Command> Roles<C> {
    /// The plan that proposes a command, unless its id is settled.
    pub fn plan_submit<M: Machine<C>>(
        &self,
        machine: &mut M,
        command: &C,
    ) -> Result<(Plan<C>, Reply<M::Outcome, M::Answer>), NodeFault>
        requires stand { (facts : List (Fact C)) × StandFor self.now facts }
        requires part { IsPart (M.commands machine.old) (learned_of self.now.log) }
        ensures step { (facts : List (Fact C)) → StandFor self.now facts
            → Submits (M.is_answer (M.basis machine.old)) self.now result
            (on_submit (store_of M.Question M.client_id M.outcome) (config_of self.now)
            (node_with facts (volatile_of self.now)) command.now) }
        ensures latest { IfOk result (λ step. IsLatest self.now step.0.change) }
        ensures part { IsPart (M.commands machine.new) (learned_of self.now.log) }
        ensures basis { M.basis machine.new ≡ M.basis machine.old }
    {
        feed(&self.log, machine)?;
        let id = M::id_of(command);
        if let Some((position, outcome)) = machine.settled(&id) {
            return Ok((self.plan_nothing(), Reply::Settled { position, outcome }));
        }
        let Ok(position) = self.log.next_position() else {
            return Err(NodeFault::PositionsExhausted);
        };
        match self.proposer.propose(position, command) {
            Ok(mut step) => {
                let Some(Fact::Used { round }) = step.facts.first() else {
                    return Err(NodeFault::Memory);
                };
                let ballot = ballot_of(self.me, *round);
                let messages = replace(&mut step.messages, Vec::new(self.alloc));
                let plan = Plan {
                    messages,
                    change: Move::Propose(step),
                };
                Ok((plan, Reply::Started { position, ballot }))
            }
            Err(ProposeFault::RoundsExhausted) => Err(NodeFault::RoundsExhausted),
            Err(ProposeFault::Memory) => Err(NodeFault::Memory),
        }
    }

    /// The answer to a question over the first k commands, or over the whole prefix.
    pub fn answer<M: Machine<C>>(
        &self,
        machine: &mut M,
        k: Option<u32>,
        question: &M::Question,
    ) -> Result<Reply<M::Outcome, M::Answer>, AllocError>
        requires part { IsPart (M.commands machine.old) (learned_of self.now.log) }
        ensures reply { IfOk result (λ reply. SaysReply (M.is_answer (M.basis machine.old)) reply
            (on_question (store_of M.Question M.client_id M.outcome)
            (prefix (learned_of self.now.log)) k question.now)) }
        ensures part { IsPart (M.commands machine.new) (learned_of self.now.log) }
        ensures basis { M.basis machine.new ≡ M.basis machine.old }
    {
        feed(&self.log, machine)?;
        let prefix = self.log.prefix();
        let at = match k {
            Some(k) => k,
            None => prefix,
        };
        if at > prefix {
            return Ok(Reply::NotYet { k: at, prefix });
        }
        let answer = machine.answer(at, question)?;
        Ok(Reply::Answered { k: at, answer })
    }

    /// The reply that has the position and the outcome of the first command with an id in the log's
    /// prefix, or `Unknown` where none is in it.
    pub fn outcome<M: Machine<C>>(
        &self,
        machine: &mut M,
        id: &[u8; 16],
    ) -> Result<Reply<M::Outcome, M::Answer>, AllocError>
        requires part { IsPart (M.commands machine.old) (learned_of self.now.log) }
        ensures reply { IfOk result (λ reply. SaysReply (M.is_answer (M.basis machine.old)) reply
            (outcome_reply (store_of M.Question M.client_id M.outcome) id.now
            (settling (store_of M.Question M.client_id M.outcome)
            (prefix (learned_of self.now.log)) id.now))) }
        ensures part { IsPart (M.commands machine.new) (learned_of self.now.log) }
        ensures basis { M.basis machine.new ≡ M.basis machine.old }
    {
        feed(&self.log, machine)?;
        Ok(match machine.settled(id) {
            Some((position, outcome)) => Reply::Settled { position, outcome },
            None => Reply::Unknown,
        })
    }
}
