//! What nobody else draws.

use std::random::RandomSource;

/// Thirty-two octets of the system's random source: a secret, a challenge or a nonce. `None` where
/// the system gives none.
pub fn draw(source: &impl RandomSource) -> Option<[u8; 32]> {
    let mut octets = [0; 32];
    source.fill_bytes(&mut octets).ok()?;
    Some(octets)
}
