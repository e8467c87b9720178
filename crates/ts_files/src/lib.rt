//! What all tasks of `trustd` need: files of certificates, CRLs, keys and records, the clock,
//! standard output, and why a task fails.
//!
//! ```text
//! let octets = octets_of(rt, alloc, &files, Kind::Certificate)?;   // `TaskFault` says why not
//! ```
//!
//! - [`certificate_of`], [`crl_of`]: unless it is forced, what a command adds or loads is a
//!   certificate, or a CRL that a store takes (their clauses); [`is_certificate`] says which.
//! - [`vouch_by`], [`vouch_for_file`]: a CRL is loaded only where nothing speaks against it
//!   (`doubt_about` of `ts_given`); [`issuers_in`]: the certificates that octets are, one for one.
//! - [`other_kind`]: what octets hold that are not of the wanted kind, where that is known
//!   (`IsOther` in `specs/Others`).
//! - [`read_file`], [`read_within`], [`read_at_most`], [`read_record`]: no more octets than a frame
//!   may have, or than are wanted (`short`).
//! - [`values_in`], [`octets_of`], [`certificates_of`], [`values_of`], [`files_of`],
//!   [`key_in`], [`keyring_of`], [`fault_of`], [`second`], [`draw_id`]: files, and what is wrong
//!   with them. It is safe and ends; which octets a file gives, no clause says.
//! - [`format_files`], [`migrate_files`], [`open_disks`], [`RecordLock`]: they end; what files give
//!   and take, no contract can say. A record is locked while it is made or served, so that another
//!   process is answered `Busy`.
//! - [`now`], [`put`], [`say`]: the clock, and standard output.
//!
//! # Not promised
//!
//! That a task does what its words ask for: rows of `tests/` and `examples/real/day` show it.
#![tactic(auto)]

mod clock;
mod disks;
mod fault;
mod files;
mod folders;
mod ids;
mod keys;
mod kinds;
mod locking;
mod material;
mod printing;
mod vouching;

pub use clock::now;
pub use disks::{format_files, migrate_files, open_disks, read_record};
pub use fault::TaskFault;
pub use files::{MAX_SHOWN, MAX_TABLE, fault_of, read_at_most, read_file, read_within, second};
pub use folders::files_of;
pub use ids::draw_id;
pub use keys::{key_in, keyring_of};
pub use kinds::{other_kind, say_other};
pub use locking::RecordLock;
pub use material::{
    certificate_of, certificates_of, crl_of, is_certificate, octets_of, values_in, values_of,
};
pub use printing::{output_fault, put, say};
pub use vouching::{issuers_in, vouch_by, vouch_for_file};
