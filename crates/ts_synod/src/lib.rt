//! The synod: Lamport's 'Paxos Made Simple', position by position, as a pure machine.
//!
//! The definitions in `specs/` are the protocol: the rules of acceptor, proposer and log, the step
//! of a node that plays all three, and the world of `n` nodes whose messages come late, twice or
//! never. The laws say what holds after every list of events. The crates `ts_acceptor`,
//! `ts_proposer` and `ts_log` make the rules as code, and their contracts cite the very definitions
//! that the world's step uses.
//!
//! ```text
//! let mut facts = Vec::new(alloc);
//! facts.push(Fact::Used { round: 2 })?;
//! let body: Body<Text> = Body::Prepare { position: 1, ballot: ballot_of(1, 2) };
//! let messages = broadcast(alloc, 1, 3, &body)?;
//! ```
//!
//! - `Ballot`, `ballot_of`: a proposal number, which no two nodes share.
//! - `Message`, `Body`, `Vote`: what nodes send to one another.
//! - `Fact`: what a node keeps on stable storage before it sends anything that rests on it.
//! - `Command`: what a command must offer: a copy that equals it, or an `AllocError`.
//! - `Codec`: a command that has one encoding, both ways.
//! - `Fact::try_copy`, `Body::try_copy`: a copy that equals it.
//! - `NodeFault`: why a node answers nothing, in a call and in a frame.
//! - `broadcast`, `broadcast_to_others`: one body to all nodes, or to all but this one.
//! - `put_at`, `replace_at`: a value at a key that a map has already, which takes no memory.
//! - `agreement`: no two nodes hold different commands at one position, and what is held is chosen.
//! - `only_submitted`: each chosen command was submitted.
//! - `equal_verdicts`: every reply is that of one state machine over the chosen commands.
//! - `step_by_force`, `force_stays`: a step is the same over equivalent facts (`SameForce`), which
//!   stay so.
//! - `a_turn_is_events`: several inputs whose facts are kept together are one event each.
//! - `classic_run`: a run of three nodes with a restart and two proposers, computed.
#![tactic(auto)]

mod ballots;
mod codec;
mod command;
mod fault;
mod laws;
mod message;
mod places;
mod sending;

pub use ballots::{Ballot, ballot_of};
pub use codec::Codec;
pub use command::Command;
pub use fault::NodeFault;
pub use laws::{
    a_turn_is_events, agreement, classic_run, equal_verdicts, force_stays, only_submitted,
    step_by_force,
};
pub use message::{Body, Fact, Message, Vote, copy_of_vote};
pub use places::{put_at, replace_at};
pub use sending::{broadcast, broadcast_to_others};
