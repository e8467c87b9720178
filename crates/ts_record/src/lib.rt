//! Facts that survive a crash at any moment: a record of what a node keeps, on two disks.
//!
//! ```text
//! Record::<MemDisk, Command>::format(&mut a, &mut b, 1, 3)?;      // once: node 1 of 3
//! // refused, it gives the disks back
//! let mut record = Record::open(alloc, a, b)?;
//! record.append(alloc, &[Fact::Used { round: 1 }])?;              // kept, all of them or none
//! let facts = record.facts();
//! let (a, b) = record.close();
//! ```
//!
//! - `Record::format`: `first`, `second`: the octets; `opens`: each pair of images opens to no
//!   facts.
//! - `Record::open`: `opens`: each pair of images opens to the facts; `only`: where the two images
//!   open to facts as the record of a node, these are answered, and it is that node's, or memory
//!   or a device failed; `moments`: a crash within the call leaves nothing new; `fault`: where each
//!   fault comes from; `same`, `owner`.
//! - `Record::append`: `moments`: at every moment each pair of images opens to the facts before, or
//!   to those with all of the new ones; `kept`, `opens`, `owner`, `swapped`, `generation`;
//!   `refused`: at a fault the facts stay, and so does the rewrite; `nothing`, `calls`: how often
//!   it calls a disk; `memory`, `failed`, `broken`, `stays`.
//! - `Record::compact`: one step of a rewrite on the other disk. `moments`: at every moment each
//!   pair of images opens to equivalent facts; `from`: before the last step to the facts,
//!   from the disk in use; `steps`, `force`, `opens`, `owner`; `refused`, `memory`, `failed`,
//!   `broken`, `stays`, `exhausted`, `last`.
//! - `Record::migrate`: a record of version 1, written again on two other disks. `opens`: each pair
//!   of images opens to the facts of the old one; `moments`: on fresh disks each pair opens to all
//!   of them or to nothing, at every moment; `unwritten`, `same`: the old disk stays; `fault`,
//!   `untouched`.
//! - `Record::facts`, `node`, `nodes`, `is_broken`, `close`: the facts; whose record it is; whether
//!   a device failed; the two disks.
//! - `Codec`: a command's octets; one encoding, both ways.
//!
//! A pair of images opens to at most one list of facts, as the record of one node (`only`). That a
//! record is sound between two calls is the invariant of its type, and no call requires it.
#![tactic(auto)]

mod blocks;
mod compacted;
mod fault;
mod known;
mod layout;
mod ledger;
mod migrating;
mod opening;
mod progress;
mod reading;
mod record;
mod writing;

pub use fault::RecordFault;
pub use progress::Progress;
pub use record::{Record, RefusedRecord};
