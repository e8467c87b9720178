//! The tasks of a node: its record is made, brought over from an older version, and served.
//!
//! ```text
//! format_record(&rt, "node.record", 1, 3, group)?;         // `TaskFault` says why a task fails
//! serve_record(&rt, &words)?;                              // until it is ended, or a device fails
//! ```
//!
//! - [`format_record`], [`migrate_record`], [`serve_record`]: they are safe, and each call that
//!   they make is made where its contract allows it; what files and sockets give and take, no
//!   contract can say. While a record is made or served it is locked, so that another process is
//!   answered `Busy`.
//!
//! # Not promised
//!
//! That a task does what its words ask for: rows of `tests/` and `examples/real/day` show it.
#![tactic(auto)]

mod grouping;
mod programs;

pub use programs::{format_record, migrate_record, serve_record};
