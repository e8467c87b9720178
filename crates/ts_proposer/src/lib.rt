//! The proposer of the synod: the command that a client wants, and the round that proposes it.
//!
//! ```text
//! // the facts that the node kept before
//! let mut proposer = Proposer::open(alloc, 1, 3, &facts);
//! let step = proposer.propose(1, &command)?;                  // changes nothing that can be seen
//! record.append(&step.facts)?;                                // the caller keeps the facts first
//! send(&step.messages)?;
//! proposer.keep(step);                                        // takes no memory, and cannot fail
//! ```
//!
//! - `new`, `open`: `config`, `state`: the proposer is idle; `used`: it stands for no facts, or for
//!   those given.
//! - `wanted`: the state's wanted command.
//! - `propose`: `step`: the rule for a new round, with `RoundsExhausted` exactly where the rule has
//!   none; `latest`: the step can be kept.
//! - `on_promise`: `step`: the rule for Promise; `latest`: the step can be kept; `same`: nothing is
//!   changed.
//! - `on_busy`, `on_growth`: `step`: the rule for Busy, or for a prefix that grew; `latest`: the
//!   step can be kept.
//! - `keep`: `state`: what the step says; `used`: the proposer stands for the step's facts too;
//!   `config`: it is the same node.
#![tactic(auto)]

mod promises;
mod proposer;

pub use proposer::{ProposeFault, Proposer, ProposerEffect};
