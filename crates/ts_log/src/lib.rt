//! The log of the synod: what a node has learned at each position, and the votes that it received.
//!
//! ```text
//! // the facts that the node kept before
//! let mut log = Log::open(alloc, 1, 3, &facts)?;
//! let step = log.on_accepted(2, 1, ballot, &command)?;        // changes nothing that can be seen
//! record.append(&step.facts)?;                                // the caller keeps the facts first
//! send(&step.messages)?;
//! log.keep(step);                                             // takes no memory, and cannot fail
//! ```
//!
//! A step costs the same with a million learned positions as with a thousand: the maps are
//! searched, never walked over. The length of the prefix is kept beside them, and grows over each
//! position once.
//!
//! - `new`, `open`: `config`, `state`: the log stands for no facts, or for those given; `received`:
//!   no vote is received.
//! - `prefix`, `command`, `next_position`: the result is the definition's; `PositionsExhausted` is
//!   exactly its `None`.
//! - `on_accepted`, `on_give`: `step`: the rule for Accepted or Give; `latest`: the step can be
//!   kept; `same`: nothing is changed.
//! - `on_ask`, `catch_up`: `step`: the messages are the rule's, and nothing is kept or changed. An
//!   Ask for a multiple of 32 is given up to 32 commands, and any other one command at most.
//! - `prefix_after`, `command_after`: the prefix, and the command at a position, once a step is
//!   kept.
//! - `keep`: `learned`, `received`: what the step says; `state`: the log stands for the step's
//!   facts too; `config`: it is the same node.
#![tactic(auto)]

mod learned;
mod log;
mod received;

pub use learned::LAST_POSITION;
pub use log::{Log, LogEffect, PositionsExhausted};
