//! The tasks of a client: commands, questions and messages are brought to servers.
//!
//! ```text
//! run(&rt, &task)?;                                        // `TaskFault` says why a task fails
//! ```
//!
//! - [`run`]: it is safe and ends, and each call that it makes is made where its contract allows
//!   it; what it prints and which fault it ends with, no clause says.
//! - [`well`]: a task that asks for no answer ends well, unless it fails.
//! - [`submit`], [`ask`], [`tend`], [`state_of`]: the peer that is asked can be asked again. What
//!   is asked, and what its answer comes to, is in the clauses of `ts_exchange`.
//!
//! # Not promised
//!
//! That a task does what its words ask for: rows of `tests/` and `examples/real/day` show it.
#![tactic(auto)]

mod explaining;
mod keyed;
mod listing;
mod pausing;
mod replaying;
mod requests;
mod running;
mod syncing;
mod upkeep;
mod vouching;
mod waiting;

pub use requests::{ask, submit};
pub use running::{run, well};
pub use upkeep::{state_of, tend};
