//! The command line of `trustd`: words to a task, and tasks to encoded commands and questions.
//!
//! ```text
//! // else `report` prints why, and gives the status
//! let task = task_of_process(&rt)?;
//! // the one encoding of the command
//! let octets = command_octets(alloc, &id, &words.change, &contents)?;
//! // the one encoding of the question
//! let octets = question_octets(alloc, &words, &certificates)?;
//! ```
//!
//! The second word says whose words these are: the program's own, those of `trustd command` or
//! those of `trustd question`. No file is read here, no id is drawn, and no connection is made.
//!
//! - [`task_of`]: `lab`: only out of memory keeps `trustd lab` from the lab; `taken`: a task comes
//!   only from words in which the parser has no fault to find; `asked`: it is what the subcommand
//!   says that they name, by the values that they give it (`specs/Says`); `ranges`: numbers are in
//!   range.
//! - [`report`]: the status: 2 for a wrong command line or a wrong value, at most 1 after help, 1
//!   for out of memory.
//! - [`command_octets`]: `made`, `fits`: the encoding of the command that the change says; `long`,
//!   `memory`: `TooLong` exactly where the file is longer than a command holds.
//! - [`question_octets`]: `made`, `fits`: the encoding of the question that the words say;
//!   `refused`: `OutOfLimits` only where that is outside its limits.
//! - [`id_text`]: the SHA-256 in lower-case hexadecimal digits, by which a store knows an anchor or
//!   a list.
//! - [`address_of`]: the host and the port, exactly where a text is these; [`is_address`]: it is,
//!   or it is an IPv6 address in brackets and a port.
//!
//! Gaps. No clause says that words whose values are all right have a task, but for `trustd lab`:
//! that is tested. Nor is there one for the text of help and of errors, nor for which words a
//! process has: of [`task_of_process`] only `ranges` is promised.
//!
//! Out of memory is answered as `Memory` or `AllocError`.
//!
//! # What the parser takes
//!
//! What the command lines of `trustd` take, as `clap` parses it: which subcommands there are, and
//! the arguments of each, with their help.
//!
//! ```text
//! let matches = program(alloc)?.try_get_matches_from(words)?;      // or `commands`, `questions`
//! ```
//!
//! There are three command lines, each of one level, so that the parser's contracts say all of it:
//! the program's own, that of `trustd command` and that of `trustd question`.
//!
//! - [`program`], [`commands`], [`questions`]: the command line is the one of that name in
//!   `specs/Shapes`, with each argument: its kind, how often it may be given, and whether it has to
//!   be.
//!
//! The text of help and of errors is what `clap` makes of the words here; no clause says it. The
//! error is that memory ran out.
//!
//! # Not promised
//!
//! Only tested, by rows of `tests/words`: that words whose values are all right have a task, but
//! for `trustd lab`, and which of the wrong values is named (`lines.rows`); encodings against
//! octets that were made by hand (`encodings.rows`). Of the texts of help and of errors these rows
//! show some lines; the others are neither proved nor tested, nor is which words a process has.
#![tactic(auto)]

mod arguments;
mod command_line;
mod command_shape;
mod command_words;
mod encoding;
mod fault;
mod group;
mod listing_shape;
mod listing_task;
mod matched;
mod oids;
mod parcel;
mod program_shape;
mod program_task;
mod question_shape;
mod question_words;
mod reach;
mod serve_words;
mod sync_shape;
mod sync_words;
mod task;
mod values;
mod verdict_shape;
mod verify_shape;
mod verify_words;

pub use command_line::{task_of, task_of_process};
pub use command_words::{CommandAction, CommandWords};
pub use encoding::{MakeFault, command_octets, id_text, question_octets};
pub use fault::{CommandFault, WrongValue, report};
pub use program_shape::VERSION;
pub use question_words::{QuestionWords, Subject, TermWords};
pub use reach::Reach;
pub use serve_words::ServeWords;
pub use sync_words::SyncWords;
pub use task::Task;
pub use values::{address_of, is_address, peer_of};
pub use verify_words::VerifyWords;
