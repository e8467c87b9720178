//! What a client hands to a node, and what it makes of the answer: octets of requests, the one
//! frame of an answer, lines that are printed, pages that are asked for one after another, and the
//! commands that bring what files hold. Nothing here reads or writes anything.
//!
//! ```text
//! let octets = request_octets(alloc, &request)?;                       // handed to a node
//! let saying = submit_saying(alloc, &answer_in(alloc, &answered)?)?;   // a line, and an ending
//! ```
//!
//! - [`request_octets`]: the one encoding of a request; refused exactly where it is too long.
//! - [`answer_in`]: octets are exactly this one frame, which is none that says a fault; else why
//!   not (`IsNoAnswer` in `specs/Answers`).
//! - [`answer_to_question`]: the answer that a frame carries, and nothing of another frame.
//! - [`submit_saying`], [`upkeep_line`]: exactly this line (`specs/Lines`); refused exactly where
//!   the frame is no answer to what was asked. [`ask_line`]: the line of an answer to a question.
//! - [`Upkeep::request`]: the request for it.
//! - [`ending_of`], [`ending_by`]: how a client's task ends, by what a node answers
//!   (`specs/Endings`): the program ends with 1 for a command that is refused, and where a valid
//!   chain is asked for and none is answered.
//! - [`PageWalk`]: what the next page is asked for, at one k; it goes on behind the rows of a page
//!   while there are more (`specs/Walk`). [`laws::walks_get_all`]: pages that are asked for so,
//!   each as nodes answer it, have all rows together, in their order and each once.
//! - [`Value`]: octets of a file with their SHA-256, which is that of its octets.
//!   [`steps_from`]: the plan of `ts_sync` for these ids. [`value_of`]: the value that a step
//!   brings, and none for a step that brings nothing. [`command_of`]: the command that does a step,
//!   with exactly these octets. [`step_line`]: its line.
//! - [`held_in`]: the ids of the anchors and of the CRLs that a store's rows say it holds, in their
//!   order (`specs/Held`).
#![tactic(auto)]

mod answer;
mod ending;
mod fault;
pub mod laws;
mod saying;
mod steps;
mod upkeep;
mod value;
mod walk;

pub use answer::{answer_in, answer_to_question, ask_line, request_octets};
pub use ending::{Ending, ending_by, ending_of};
pub use fault::ExchangeFault;
pub use saying::{Saying, submit_saying};
pub use steps::{StepFault, WantedFiles, command_of, held_in, step_line, steps_from, value_of};
pub use upkeep::{Upkeep, upkeep_line};
pub use value::Value;
pub use walk::{PageWalk, Rows};
