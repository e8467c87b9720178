//! How far a rewrite is after one of its steps.

/// How far a rewrite is after one of its steps.
#[derive(Clone, Copy, Debug, PartialEq, Eq)]
pub enum Progress {
    /// There are steps left.
    Working,
    /// The record is on its other disk, and the rewrite is done.
    Switched,
}
