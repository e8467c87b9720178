//! A disk whose writes and syncs are counted.
//!
//! ```text
//! let meter = Meter::new();
//! let mut disk = MeteredDisk::new(disk, &meter);
//! disk.sync()?;
//! let syncs = meter.syncs();               // 1
//! ```
//!
//! - [`MeteredDisk`]: a disk that does what the disk within does: its meaning is that disk's, and
//!   each call has the clauses of `Disk`.
//!
//! # Not promised
//!
//! What is counted: no clause knows what a cell holds. It is tested.
#![tactic(auto)]

mod meter;
mod metered;

pub use meter::Meter;
pub use metered::MeteredDisk;
