//! Tests of what serves one connection after another, which no program does, since `trustd` serves
//! all of them at once (`ts_loop`); and of how an exchange ends whose answer is too long, or does
//! not come.
//!
//! In a crate of its own it is proved alone: a crate with tests is proved once more with them.
#![tactic(auto)]

#[cfg(test)]
mod exchange_tests;
#[cfg(test)]
mod listen_tests;
