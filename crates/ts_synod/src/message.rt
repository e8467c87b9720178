//! What nodes send to one another, and what each keeps on stable storage.

ghost use Rattle.std.specs.Prelude.{◌≡◌, IfOk};

use crate::ballots::Ballot;
use crate::command::Command;
use std::alloc::{AllocError, Global};

/// A command that was taken in a ballot ('Paxos Made Simple' 2.2: a proposal that an acceptor
/// accepted).
#[derive(Drop)]
pub struct Vote<C> {
    pub ballot: Ballot,
    pub command: C,
}

/// The content of a message. Positions count from 1.
#[derive(Drop)]
pub enum Body<C> {
    /// Phase 1 a: a promise is asked for.
    Prepare {
        position: u32,
        ballot: Ballot,
    },
    /// Phase 1 b: nothing below the ballot will be taken; this was taken before.
    Promise {
        position: u32,
        ballot: Ballot,
        taken: Option<Vote<C>>,
    },
    /// The ballot is below the promised one.
    Busy {
        position: u32,
        ballot: Ballot,
        promised: Ballot,
    },
    /// Phase 2 a: the command is proposed.
    Accept {
        position: u32,
        ballot: Ballot,
        command: C,
    },
    /// Phase 2 b: the command was taken.
    Accepted {
        position: u32,
        ballot: Ballot,
        command: C,
    },
    /// The command learned at a position is asked for.
    Ask {
        position: u32,
    },
    /// The command learned at a position.
    Give {
        position: u32,
        command: C,
    },
}

/// A message from one node to another, or to itself.
#[derive(Drop)]
pub struct Message<C> {
    pub from: u8,
    pub to: u8,
    pub body: Body<C>,
}

/// What a node keeps on stable storage ('Paxos Made Simple' 2.5).
#[derive(Drop)]
pub enum Fact<C> {
    /// A round was begun.
    Used {
        round: u32,
    },
    /// A ballot was promised at a position.
    Promised {
        position: u32,
        ballot: Ballot,
    },
    /// A command was taken at a position, in a ballot.
    Took {
        position: u32,
        ballot: Ballot,
        command: C,
    },
    /// A command was learned at a position.
    Chosen {
        position: u32,
        command: C,
    },
}

impl<C: Command> Vote<C> {
    /// A copy.
    pub fn try_copy(&self, alloc: Global) -> Result<Vote<C>, AllocError>
        ensures copy { IfOk result (λ other. other ≡ self.now) }
    {
        Ok(Vote {
            ballot: self.ballot,
            command: self.command.try_copy(alloc)?,
        })
    }
}

/// A copy of a vote that may be there.
pub fn copy_of_vote<C: Command>(
    alloc: Global,
    vote: &Option<Vote<C>>,
) -> Result<Option<Vote<C>>, AllocError>
    ensures copy { IfOk result (λ other. other ≡ vote.now) }
{
    match vote {
        Some(vote) => Ok(Some(vote.try_copy(alloc)?)),
        None => Ok(None),
    }
}

impl<C: Command> Body<C> {
    /// A copy.
    pub fn try_copy(&self, alloc: Global) -> Result<Body<C>, AllocError>
        ensures copy { IfOk result (λ other. other ≡ self.now) }
    {
        Ok(match self {
            Body::Prepare { position, ballot } => Body::Prepare {
                position: *position,
                ballot: *ballot,
            },
            Body::Promise {
                position,
                ballot,
                taken,
            } => Body::Promise {
                position: *position,
                ballot: *ballot,
                taken: copy_of_vote(alloc, taken)?,
            },
            Body::Busy {
                position,
                ballot,
                promised,
            } => Body::Busy {
                position: *position,
                ballot: *ballot,
                promised: *promised,
            },
            Body::Accept {
                position,
                ballot,
                command,
            } => Body::Accept {
                position: *position,
                ballot: *ballot,
                command: command.try_copy(alloc)?,
            },
            Body::Accepted {
                position,
                ballot,
                command,
            } => Body::Accepted {
                position: *position,
                ballot: *ballot,
                command: command.try_copy(alloc)?,
            },
            Body::Ask { position } => Body::Ask {
                position: *position,
            },
            Body::Give { position, command } => Body::Give {
                position: *position,
                command: command.try_copy(alloc)?,
            },
        })
    }
}

impl<C: Command> Fact<C> {
    /// A copy, which equals the fact.
    pub fn try_copy(&self, alloc: Global) -> Result<Fact<C>, AllocError>
        ensures { IfOk result (λ copy. copy ≡ self.now) }
    {
        Ok(match self {
            Fact::Used { round } => Fact::Used { round: *round },
            Fact::Promised { position, ballot } => Fact::Promised {
                position: *position,
                ballot: *ballot,
            },
            Fact::Took {
                position,
                ballot,
                command,
            } => Fact::Took {
                position: *position,
                ballot: *ballot,
                command: command.try_copy(alloc)?,
            },
            Fact::Chosen { position, command } => Fact::Chosen {
                position: *position,
                command: command.try_copy(alloc)?,
            },
        })
    }
}
