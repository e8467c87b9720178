//! Acceptor, proposer and log of one node.

ghost use Rattle.std.specs.Prelude.{◌≡◌, ◌≤◌, ◌++◌, [], List, IfOk};
ghost use Rattle.ts_synod.specs.declared.message.Fact.{Fact};
ghost use Rattle.ts_synod.specs.Node.{initial};
ghost use Rattle.ts_acceptor.specs.Steps as acceptor_steps;
ghost use Rattle.ts_proposer.specs.Steps as proposer_steps;
ghost use Rattle.ts_log.specs.Steps as log_steps;
ghost use Rattle.ts_log.specs.Log as logs;
ghost use Rattle.ts_node.specs.Roles.{StandFor, config_of};
ghost use Rattle.ts_node.specs.inside.Roles.{AllUsed, IsLatest, facts_in};
ghost use Rattle.ts_node.specs.Roles.{volatile_of};
ghost use Rattle.ts_node.specs.inside.Roles.{volatile_after};

use crate::plan::Move;
use std::alloc::{AllocError, Global};
use ts_acceptor::{Acceptor, AcceptorEffect as AcceptorStep};
use ts_log::{Log, LogEffect as LogStep};
use ts_proposer::{Proposer, ProposerEffect as ProposerStep};
use ts_synod::{Command, Fact};

/// The roles of a node, each of which stands for the facts that the node has kept.
#[derive(Drop)]
pub(crate) struct Roles<C> {
    pub alloc: Global,
    pub me: u8,
    pub nodes: u8,
    pub acceptor: Acceptor<C>,
    pub proposer: Proposer<C>,
    pub log: Log<C>,
}

impl<C: Command> Roles<C> {
    /// The roles of a node that restarts with these facts.
    pub fn open(alloc: Global, me: u8, nodes: u8, facts: &[Fact<C>]) -> Result<Roles<C>, AllocError>
        requires { nodes ≤ 9 }
        ensures stand { IfOk result (λ roles. StandFor roles facts.now) }
        ensures volatile { IfOk result (λ roles. volatile_of roles ≡ initial) }
        ensures config { IfOk result
            (λ roles. config_of roles ≡ record { nodes = nodes; me = me }) }
    {
        let acceptor = Acceptor::open(alloc, me, nodes, facts)?;
        let log = Log::open(alloc, me, nodes, facts)?;
        let proposer = Proposer::open(alloc, me, nodes, facts);
        Ok(Roles {
            alloc,
            me,
            nodes,
            acceptor,
            proposer,
            log,
        })
    }

    /// Makes the change of a step of the acceptor. The roles then stand for the step's facts too.
    fn keep_accept(&mut self, step: AcceptorStep<C>)
        requires { acceptor_steps.IsLatest self.old.acceptor step }
        ensures stand { (facts : List (Fact C)) → StandFor self.old facts
            → StandFor self.new (facts ++ step.facts.items) }
        ensures volatile { volatile_of self.new ≡ volatile_of self.old }
        ensures config { config_of self.new ≡ config_of self.old }
        ensures log { self.new.log ≡ self.old.log }
    {
        self.acceptor.keep(step);
    }

    /// Makes the change of a step of the proposer. The roles then stand for the step's facts too.
    fn keep_propose(&mut self, step: ProposerStep<C>)
        requires latest { proposer_steps.IsLatest self.old.proposer step }
        requires used { AllUsed step.facts.items }
        ensures stand { (facts : List (Fact C)) → StandFor self.old facts
            → StandFor self.new (facts ++ step.facts.items) }
        ensures volatile { volatile_of self.new
            ≡ record {
              proposer = proposer_steps.state_after self.old.proposer step.change;
              received = logs.received_of self.old.log;
            } }
        ensures config { config_of self.new ≡ config_of self.old }
        ensures log { self.new.log ≡ self.old.log }
    {
        self.proposer.keep(step);
    }

    /// Makes the change of a step of the log. The roles then stand for the step's facts too.
    fn keep_learn(&mut self, step: LogStep<C>)
        requires { log_steps.IsLatest self.old.log step }
        ensures stand { (facts : List (Fact C)) → StandFor self.old facts
            → StandFor self.new (facts ++ step.facts.items) }
        ensures received { logs.received_of self.new.log
            ≡ log_steps.received_after self.old.log step.change }
        ensures proposer { self.new.proposer ≡ self.old.proposer }
        ensures config { config_of self.new ≡ config_of self.old }
    {
        self.log.keep(step);
    }

    /// Makes a change, which takes no memory.
    pub fn keep(&mut self, change: Move<C>)
        requires { IsLatest self.old change }
        ensures stand { (facts : List (Fact C)) → StandFor self.old facts
            → StandFor self.new (facts ++ facts_in change) }
        ensures volatile { volatile_of self.new ≡ volatile_after self.old change }
        ensures config { config_of self.new ≡ config_of self.old }
    {
        match change {
            Move::Nothing => {}
            Move::Accept(step) => self.keep_accept(step),
            Move::Propose(step) => self.keep_propose(step),
            Move::Learn(step) => self.keep_learn(step),
            Move::Grow(learn, propose, _facts) => {
                self.keep_learn(learn);
                self.keep_propose(propose);
            }
        }
    }
}
