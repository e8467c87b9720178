//! What a trust store holds, and the commands that it took, in pages of rows.
//!
//! ```text
//! let reply = store_page(alloc, &history.at(alloc, k)?, from)?; // what the store holds after k
//! let purposes = purposes_of(alloc, &command)?;                 // those that the command sets
//! let entry = Entry::of(&command, purposes, outcome);           // a command, and what it came to
//! let reply = log_page(alloc, &entries[..k], from)?;            // the commands up to k
//! ```
//!
//! A page is a reply (`ts_question`): how many rows there are, and the 64 after so many of them, or
//! those that are left. A row of the store is an anchor's or a CRL's (`specs/Listing`): anchors
//! first, then complete CRLs, then delta CRLs, each in the order of the store. A row of the log is
//! a command's (`specs/Log`).
//!
//! Names come from certificates and CRLs of strangers, and may have 64 kB and more: of a name, of a
//! CRL number and of what a CRL says that it covers, a row has at most the first 4,096 octets. So a
//! row has at most some 16,500 octets, and a page at most 1,060,000.
//!
//! - [`store_page`]: `page` of `store_rows`; of the tables of a store these are its `listing`. No
//!   certificate is read again, and of a CRL only its head and the number of its entries.
//! - [`purposes_of`]: the octets of the purposes that a command sets.
//! - [`Entry::of`]: the line of a command, by `command_row`.
//! - [`log_page`]: `page` of the lines of entries.
//! - [`missing`]: the rows that are not among others (`specs/Changes`): of two listings, what the
//!   one has and the other hasn't.
//! - [`laws::pages_are_all`]: the pages that are asked one after another have all rows.
//!
//! Out of memory is answered as `AllocError`.
//!
//! # Not promised
//!
//! Only tested: that calls with ample memory succeed. Neither proved nor tested: time. The entries
//! of each CRL on a page are walked to count them, which takes some 10 ns an entry; an entry of the
//! log takes one SHA-256 of what its command loads.
#![tactic(auto)]

mod changes;
mod crl_rows;
mod digests;
pub mod laws;
mod listing;
mod log;
mod page;
mod purposes;

pub use changes::missing;
pub use listing::store_page;
pub use log::{Entry, log_page, purposes_of};
