//! What a file holds.

ghost use Rattle.std.specs.Prelude.{◌≡◌};
ghost use Rattle.sha2.specs.Sha256.{sha256};

use ts_store::digest;

/// A certificate or a CRL that a file holds.
#[derive(Drop)]
pub struct Value {
    /// Its SHA-256, by which a store knows it.
    pub id: [u8; 32],
    /// The file.
    pub file: String,
    /// Its octets.
    pub octets: Vec<u8>,
    ghost digest: { id ≡ sha256 octets.items },
}

impl Value {
    /// A value of a file.
    pub fn new(file: String, octets: Vec<u8>) -> Value
        ensures file { result.file ≡ file }
        ensures octets { result.octets ≡ octets }
    {
        Value {
            id: digest(&octets),
            file,
            octets,
        }
    }
}
