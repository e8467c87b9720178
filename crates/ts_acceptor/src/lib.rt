//! The acceptor of the synod: what a node promised and took at each position.
//!
//! ```text
//! // the facts that the node kept before
//! let mut acceptor = Acceptor::open(alloc, 1, 3, &facts)?;
//! let step = acceptor.on_prepare(2, 1, ballot)?;              // changes nothing that can be seen
//! record.append(&step.facts)?;                                // the caller keeps the facts first
//! send(&step.messages)?;
//! acceptor.keep(step);                                        // takes no memory, and cannot fail
//! ```
//!
//! - `new`, `open`: `config`, `state`: the acceptor stands for no facts, or for those given.
//! - `on_prepare`: `step`: facts and messages are those of the rule for Prepare; `latest`: the step
//!   can be kept; `same`: nothing is changed.
//! - `on_accept`: the same for Accept.
//! - `keep`: `state`: the acceptor stands for the step's facts too; `config`: it is the same node.
#![tactic(auto)]

mod acceptor;

pub use acceptor::{Acceptor, AcceptorEffect};
