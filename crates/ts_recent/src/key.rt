//! The octets under which a value is kept.

ghost use Rattle.std.specs.Prelude.{◌≡◌};

use crate::fingerprint::fingerprint;
use std::marker::Model;

/// The octets under which a value is kept, with the number by which they are found.
#[derive(Drop)]
pub struct Key {
    pub(crate) octets: Vec<u8>,
    pub(crate) number: u64,
}

impl Model for Key {
    ghost use Rattle.std.specs.Prelude.{ℕ, List};

    ghost Value = { List ℕ };

    ghost view = { λ k. k.octets.items };
}

impl Key {
    /// These octets.
    pub fn of(octets: Vec<u8>) -> Key
        ensures { result ≡ octets.items }
    {
        let number = fingerprint(&octets);
        Key { octets, number }
    }

    /// The octets.
    pub fn octets(&self) -> &[u8]
        ensures { result.now ≡ self.now }
    {
        self.octets.as_slice()
    }
}
