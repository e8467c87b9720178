//! A file of the operating system as a disk of `ts_disk`.
//!
//! ```text
//! // made where it is missing; open: has to be there
//! let mut disk = create(&rt, alloc, "record")?;
//! put(&mut disk, 0, b"octets")?;                                  // written and synced
//! // after a crash, or after a failure
//! let again = open(&rt, alloc, "record")?;
//! ```
//!
//! - `FileDisk::new`, `open`, `create`: `whole`: no failure is counted.
//! - `FileDisk` as a `Disk`: those of a disk: `octets`, `overwrite`, `durable`, `call`, `cause`;
//!   `stays`: a disk that has failed once fails each later call.
//!
//! The octets are read when the file is opened, and a read gives them, once and before anything is
//! written: so a record that is open has no second copy of its file in memory. Any later read
//! fails. A failed write may have left a part of its octets in the file, and a failed sync may have
//! lost what was written before it, though a later one answers `Ok`. So a disk that has failed once
//! is of no more use: open the file again, which reads what it holds.
//!
//! What is trusted: no contract can say what a file gives or keeps, so the clauses on the images
//! that a crash may leave are proved of a history of calls that takes no memory (`History`). The
//! three calls of `OsFile` (`os_file.rt`, some ten lines) note what they do to the file; that each
//! has done what it notes is read there, and all else is proved from their clauses: a disk that
//! does not write, or does not sync, is refused. That a file keeps to that history is a premise:
//! what was synced stays, a write that is not synced changes no octets outside its range, and
//! nothing else writes the file.
//!
//! # Not promised
//!
//! Only tested: that what is written to a real file is read when it is opened again; that a short
//! and an interrupted write go on; that a failed write and a failed sync are failures. Trusted:
//! the bodies of `OsFile`, and that the file keeps to that history.
#![tactic(auto)]

mod file;
mod history;
mod os_file;
mod path;

pub use file::FileDisk;
pub use path::{create, open};
