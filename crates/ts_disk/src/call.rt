//! A call that a disk in memory has made.

/// A call that a disk in memory has made.
#[derive(Debug, Drop)]
pub enum DiskCall {
    Read,
    Write { at: usize, octets: Vec<u8> },
    Sync,
}
