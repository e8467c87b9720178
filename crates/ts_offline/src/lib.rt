//! The tasks of whoever has files alone: keys, commands and questions are made, what files hold is
//! printed, and chains are judged without a node.
//!
//! ```text
//! let is_valid = verify_files(&rt, &words)?;               // `TaskFault` says why a task fails
//! ```
//!
//! - [`verify_files`]: it hands what files and words give to `judge` of `ts_judge`, whose clauses
//!   say what the verdict is and what is printed.
//! - [`make_command`], [`make_question`], [`print_id`], [`show_file`], [`print_key`]: what the
//!   programs of these names print. It is safe and ends.
//!
//! # Not promised
//!
//! That a task does what its words ask for: rows of `tests/` and `examples/real/day` show it.
#![tactic(auto)]

mod keygen;
mod making;
mod verifying;

pub use keygen::print_key;
pub use making::{make_command, make_question, print_id, show_file};
pub use verifying::verify_files;
