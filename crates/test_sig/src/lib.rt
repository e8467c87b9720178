//! Tests of the signature algorithms, over the public calls of their crates: signatures that others
//! made, and such as are spoiled.
//!
//! In a crate of their own they are proved alone: a crate with tests is proved once more with them.
#![tactic(auto)]

#[cfg(test)]
mod cavp;
#[cfg(test)]
mod ecdsa_tests;
#[cfg(test)]
mod eddsa_rows;
#[cfg(test)]
mod eddsa_tests;
#[cfg(test)]
mod openssl;
#[cfg(test)]
mod sample;
