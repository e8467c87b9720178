//! The lab: scripts that make certificates and lists, judge chains, and run nodes that agree on a
//! trust store.
//!
//! ```text
//! // 0, or 2 after a wrong line, or 1 where a stream failed
//! let status = lab(alloc, &mut reader, &mut writer);
//! ```
//!
//! - [`lab()`]: `text`: where the reader tells its octets, what is written is what the script says,
//!   line by line, up to its first wrong line (`specs/Lab`, `specs/Script`, `specs/Says`); `bound`.
//! - [`laws::one_word`]: a line that makes something is answered, or refused with one word.
//!
//! What the lines about nodes print, no clause says: examples show it (`tests/lab/nodes.rows`).
//! That each run of them ends, is safe, changes nothing that is known by name, and is answered or
//! refused with one of the script's words, is proved. A node of the lab is a `ts_node::Node` on two
//! disks in memory, so that what it does is one event of the protocol's world; the lab is the
//! network, which loses nothing and delivers what the script says.
#![tactic(auto)]

mod answer;
mod asking;
mod commands;
mod cursor;
pub mod laws;
mod member;
mod network;
mod node_answer;
mod node_line;
mod scanner;
mod sent;
mod show;
mod stream;
mod trouble;

pub use stream::{READ_LIMIT, lab};
