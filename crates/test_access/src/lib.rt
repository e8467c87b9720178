//! Tags and sealed records as an RFC and another tool have them.
//!
//! In a crate of their own they are proved alone: a crate with tests is proved once more with them.
#![tactic(auto)]

#[cfg(test)]
mod hmac_tests;
#[cfg(test)]
mod record_tests;
