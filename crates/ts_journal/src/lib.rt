//! A journal of entries on two disks, which survives a crash at any moment, also while it is
//! rewritten.
//!
//! A disk holds a header of 24 octets, a live byte, blocks, and a clear commit byte. A block is a
//! set commit byte, four octets of length, and an entry. A byte is clear where it is 0, and set
//! otherwise. Of the disks whose live byte is set, the one of the greater generation is in use.
//! Definitions call these two bytes gates, open or closed, and the entries bodies.
//!
//! ```text
//! // node 1 of 3: the first disk is live, of generation 1
//! format(&mut a, &mut b, 1, 3)?;
//! format_with(&mut a, &mut b, 1, 3, &text)?; // the same, with entries from the start
//! // length, entry and clear commit byte; sync; the commit byte before them is set; sync
//! journal.append(&entry)?;
//! journal.shut()?;                           // a rewrite: the other disk's live byte is cleared,
//! journal.begin()?;                          // its header of the next generation is written,
//! journal.copy(&entry)?;                     // entries are appended to it,
//! journal.switch()?;                         // and its live byte is set
//! ```
//!
//! - `format`: `first`, `second`: the octets; `opens`: each pair of images opens to no entries.
//! - `format_with`: `opens`: each pair of images opens to the entries of the blocks that it is
//!   given; `moments`: on disks that held nothing, each pair opens to all of them or does not open,
//!   at every moment.
//! - `look_at`, `choose`: `chosen`, `none`: which disk is in use, and that none is.
//! - `Journal::append`: `holds`, and `moments`: each pair of images opens to the entries before, or
//!   to those and the new one, from the disk in use; `counted`: by four writes and syncs.
//! - `Journal::shut`, `begin`, `copy`: `holds`, and `moments`: each pair opens to the entries, from
//!   the disk in use.
//! - `Journal::switch`: `holds`, and `moments`: each pair opens to the entries before, or to the
//!   copied ones.
//!
//! `failed`: a fault comes only where a device failed in the call.
#![tactic(auto)]

mod choice;
mod durable;
mod filled;
mod header;
mod journal;
mod rewrite;

pub use choice::{Choice, Look, Owner, choose, look_at};
pub use filled::format_with;
pub use header::{format, head_octets};
pub use journal::{Journal, Stage};
