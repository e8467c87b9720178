//! Disks as crash-safe code sees them: a list of octets, of which a crash may lose what was not yet
//! synced.
//!
//! ```text
//! let mut disk = MemDisk::new(alloc, Vec::new(alloc))?;
//! put(&mut disk, 0, b"octets")?;                      // written and synced
//! assert_eq!(rt; disk.octets(), b"octets".as_slice());
//! ```
//!
//! - `Disk::read`, `write_at`, `sync`: `octets`, `overwrite`, `durable`; `call`, which images a
//!   crash may leave afterwards; `counted`, that a write and a sync take the disk to the next
//!   moment, and a read doesn't; `cause`, that a failure is counted.
//! - `put`: a write and its sync: `overwrite`, `durable`, `counted`, and `moments`, what each image
//!   at each moment has kept.
//! - `MemDisk::new`, `octets`, `calls`, `set_fuse`, `fail_at`: a disk in memory that keeps its
//!   calls, and fails when a test wants it to: `plan`, which calls fail; `refused`, that they do.
//! - `MemDisk::crash`: `left`, one of the images that a crash now may leave; `image`, which one;
//!   `new`; `durable`.
//!
//! `MemDisk` meets the laws of a disk, so that they can be met. That a real device keeps to them is
//! a premise.
#![tactic(auto)]

mod call;
mod crash;
mod disk;
mod durable;
mod fault;
mod memory;

pub use call::DiskCall;
pub use crash::Torn;
pub use disk::Disk;
pub use durable::put;
pub use fault::DiskFault;
pub use memory::MemDisk;
