//! A new key.

use std::io::Print;
use std::random::RandomSource;
use ts_access::{Key, Role, key_line};
use ts_files::{TaskFault, output_fault};
use ts_keyring::draw;

/// Octets that nobody else draws.
fn random_octets(rt: &impl RandomSource) -> Result<[u8; 32], TaskFault> {
    draw(rt).ok_or(TaskFault::Random)
}

/// Prints a line of a file of keys: a number and a secret that nobody else draws, for a role.
///
/// # Errors
///
/// `Random`, `Memory`, `Write`.
pub fn print_key(
    rt: &(impl AllocGlobal + RandomSource + Print),
    role: Role,
) -> Result<(), TaskFault> {
    let [a, b, c, d, ..] = random_octets(rt)?;
    let key = Key {
        id: u32::from_be_bytes([a, b, c, d]),
        role,
        secret: random_octets(rt)?,
    };
    let line = key_line(rt.alloc(), &key)?;
    println!(rt; "{line}").map_err(output_fault)
}
