//! The log of a group is brought to another group: the commands that a record knows, and which step
//! comes next.
//!
//! ```text
//! let commands = commands_in(alloc, first, second)?;      // of the record's two files, in order
//! let mut replay = Replay::begin(known);                  // as many commands the node knows
//! match replay.next(&commands) {
//!     Step::Look(command) => ..,                          // ask where the node has it
//!     Step::Submit(command) => ..,                        // submit it, and wait
//!     Step::Done => ..,
//! }
//! replay = replay.after(settled)?;                        // None: another command is there
//! ```
//!
//! - [`commands_in`]: exactly the commands that the record's node knows from position 1 on without
//!   a gap (`specs/Recorded`): `found`, `only`; `fault`: why there is no record.
//! - [`Replay::begin`], [`Replay::next`], [`Replay::after`]: the steps (`specs/Replaying`): as many
//!   positions as the node knew are looked at, and behind them each command is submitted; a
//!   command that is settled at another position, or is not there, ends the replay.
//! - [`known_in`], [`settled_in`]: how many commands a frame says to be known, and where it says
//!   that a command is settled (`specs/Answers`).
//! - [`laws::replays_end`]: where a replay ends well, the node has said of each command of the
//!   record, in their order, that it is settled at the position that it has in the record.
//! - [`laws::replays_submit`]: a command is submitted only where it has said so of each one before
//!   it, and these are as many as it knew at first.
//!
//! Out of memory is answered as `Memory`.
//!
//! # Not promised
//!
//! That the node says what is so, and that two commands of one id are the same: a node is asked by
//! ids. A command that a record has at two positions is settled at the first of them, so a replay
//! ends at the second.
#![tactic(auto)]

mod answers;
pub mod laws;
mod recorded;
mod replaying;

pub use answers::{known_in, settled_in};
pub use recorded::commands_in;
pub use replaying::{Replay, Step};
