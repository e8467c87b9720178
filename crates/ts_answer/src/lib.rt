//! The trust store under a node: commands are taken, and questions are answered after any number of
//! them.
//!
//! ```text
//! let mut answers = Answers::new(alloc, check);             // it owns the check of signatures
//! // Applied, Repeated(position) or Refused(why)
//! let outcome = answers.push(&command)?;
//! // over the store after the first k commands
//! let answer = answers.answer(k, &question)?;
//! // Answers is the state machine of a node
//! let node = ts_node::Node::open(alloc, a, b, answers)?;
//! ```
//!
//! The reply to a question over a store is, in this order: `Malformed`, with the first part that
//! can't be read (the initial subtrees, which have index 0, and then the certificates, counted from
//! 1) and the first rule that it breaks; `NoAnchor`, where a chain's anchor is not in the store;
//! and else what path validation or the search answers (`specs/Reply`). To a question for a page of
//! the store or of its log it is that page (`ts_listing`).
//!
//! - [`Answers::new`], [`Answers::close`], [`Answers::prefix`]: no commands; the check, given back;
//!   how many commands were taken.
//! - [`Answers::push`]: `outcome`: that of the definition; `pushed`; `refused`: at an error nothing
//!   changes; `check`.
//! - [`Answers::settled`]: the first command of an id, and what it came to.
//! - [`Answers::answer`], for a k of at most 1,000,000: `answer`: the reply after the first k
//!   commands (`IsAnswer`, `specs/Machine`); `not_yet`: exactly where fewer were taken; `at_once`:
//!   then without an error; `unchanged`.
//! - `impl ts_node::Machine<Command> for Answers<S>`: those of the trait: what a node is proved
//!   over.
//! - [`is_deliverable`]: whether a node takes a message.
//! - [`laws::one_answer`]: questions that ask the same have one answer after a list of commands.
//! - [`laws::headline`]: over every run of nodes: agreement, and every answer at k is the one over
//!   the store of the first k chosen commands.
//!
//! The answers that were given last are cached, each under its k and its question
//! (`specs/inside/Cache`): a question that is asked again at one k is answered without validating
//! anything. No public clause names the cache: it is an invariant of `Answers` that each answer in
//! it is the right one. Pages are not cached.
//!
//! Out of memory is answered as `AllocError`.
//!
//! # Not promised
//!
//! Only tested: that calls with ample memory answer. Neither proved nor tested: time, and that the
//! cache is used.
#![tactic(auto)]

mod answers;
mod cache;
mod deliverable;
mod fault;
mod judging;
pub mod laws;
mod machine;
mod parts;
mod store;
mod trusted;
mod verdicts;

pub use answers::Answers;
pub use deliverable::is_deliverable;
