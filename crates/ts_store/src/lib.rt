//! A trust store: a fold over commands (`ts_command`).
//!
//! ```text
//! let mut store = Store::new(alloc);
//! // Applied, Repeated(position) or Refused(why)
//! let outcome = store.apply(1, &command)?;
//! ```
//!
//! A CRL is in memory once: the tables share the octets of the commands (`ts_octets`).
//!
//! - [`Anchors::add`], [`Anchors::withdraw`], [`Anchors::set_purposes`]: the table after the
//!   command, or its refusal, by the definition (`specs/Anchors`); at an `Err` nothing changes.
//! - [`place_of_anchor`], [`place_of_crl`], [`place_of_slot`], [`digest`]: where an anchor or CRL
//!   of an id is, and the CRL of a slot; an id.
//! - [`Crls::put`], [`Crls::remove`], [`Tables::change`]: the same for a table of CRLs, and of all
//!   tables (`specs/Lists`, `specs/Tables`).
//! - [`Store::new`], [`Store::apply`]: the definition's empty store, and its step with the step's
//!   outcome (`specs/Store`); at an `Err` nothing changes.
//! - [`Store::first`], [`Store::taken`], [`Store::tables`], [`Store::anchors`], [`Store::crls`],
//!   [`Store::deltas`]: what the store's value says.
//! - [`laws::one_step`]: of the store's definition: a command that is not applied leaves the
//!   tables; each takes one position; a new id is held with its position and outcome, and keeps
//!   them; the fold over two lists.
//!
//! A CRL is kept in the slot of its issuer, its issuing distribution point
//! and its authority key identifier; complete CRLs and delta CRLs have slots of their own.
//! [`StoredCrl::crl`] borrows the CRL and [`TrustAnchor::certificate`] the certificate, which are
//! read once, when they come.
//!
//! Clients choose the ids. They are kept in an ordered map, so that a look-up takes a number of
//! steps that grows with the logarithm of their number whatever ids are chosen; no ids collide, as
//! they would in a table whose hash is known. A load is compared with the CRLs that are kept, at
//! most 1,024.
//!
//! Out of memory is answered as `AllocError`.
//!
//! # The tables after any number of commands
//!
//! The tables of a trust store after any number of its commands.
//!
//! ```text
//! let mut history = History::new(alloc);
//! // Applied, Repeated(position) or Refused(why)
//! let outcome = history.push(&command)?;
//! let now = Snapshot::of(alloc, history.tables())?;  // borrows the tables after all commands
//! // borrows the tables after the first k commands
//! let then = history.at(alloc, k)?;
//! ```
//!
//! A history keeps beside each command which place of which table the command changed. The tables
//! after the first k commands are made by k such changes of lists of references: no certificate and
//! no CRL is read again, hashed or copied, and no slot is searched. A CRL is borrowed with its id.
//!
//! - [`History::new`], [`History::count`]: no commands; how many were taken.
//! - [`History::push`]: `outcome`: that of the store's definition; `pushed`; `refused`: at an error
//!   nothing changes.
//! - [`History::first`]: the first command of an id, and what it came to.
//! - [`History::tables`], [`Snapshot::of`]: the tables after all commands.
//! - [`History::at`]: the tables after the first k commands.
//! - [`Snapshot::anchors`], [`Snapshot::complete`], [`Snapshot::deltas`]: what tables hold
//!   (`specs/Contents`).
//!
//! # Not promised
//!
//! Only tested: that the calls that take memory succeed when there is enough
//! (`tests/lab/nodes.rows`, `tests/served/store.rows`). Neither proved nor tested: time.
#![tactic(auto)]

mod anchor;
mod anchors;
mod history;
mod ids;
pub mod laws;
mod lists;
mod placing;
mod snapshot;
mod store;
mod stored;
mod tables;
mod taken;

pub use anchor::TrustAnchor;
pub use anchors::{Anchors, MAX_ANCHORS, digest, place_of_anchor};
pub use history::History;
pub use ids::FirstCommand;
pub use lists::{Crls, MAX_CRLS, place_of_crl, place_of_slot};
pub use snapshot::{BorrowedAnchor, Snapshot};
pub use store::Store;
pub use stored::StoredCrl;
pub use tables::Tables;
