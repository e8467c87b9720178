//! What a node is going to do: facts to keep, messages to send after that, and the change of its
//! roles.

ghost use Rattle.std.specs.Prelude.{◌≡◌};

use ts_acceptor::AcceptorEffect as AcceptorStep;
use ts_log::LogEffect as LogStep;
use ts_proposer::ProposerEffect as ProposerStep;
use ts_synod::{Fact, Message};

/// How the roles change. A change that isn't made changes nothing.
#[derive(Drop)]
pub(crate) enum Move<C> {
    Nothing,
    Accept(AcceptorStep<C>),
    Propose(ProposerStep<C>),
    Learn(LogStep<C>),
    /// The log's step, the proposer's step after it, and the facts of both.
    Grow(LogStep<C>, ProposerStep<C>, Vec<Fact<C>>),
}

/// The messages to send once the facts of the change are kept.
#[derive(Drop)]
pub(crate) struct Plan<C> {
    pub messages: Vec<Message<C>>,
    pub change: Move<C>,
}

impl<C> Move<C> {
    ghost use Rattle.ts_node.specs.inside.Roles.{facts_in};

    /// The facts that the change keeps.
    pub fn facts(&self) -> &[Fact<C>]
        ensures { result.now ≡ facts_in self.now }
    {
        match self {
            Move::Nothing => &[],
            Move::Accept(step) => &step.facts,
            Move::Propose(step) => &step.facts,
            Move::Learn(step) => &step.facts,
            Move::Grow(_, _, facts) => facts,
        }
    }
}
