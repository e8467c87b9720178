//! Tests of files as disks: what no contract can say of them.
//!
//! In a crate of their own they are proved alone: a crate with tests is proved once more with them.
#![tactic(auto)]

#[cfg(test)]
mod file_tests;
