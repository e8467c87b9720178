//! HMAC-SHA256, at once or of a text that comes in pieces.

ghost use Rattle.std.specs.Prelude.{◌≡◌, ◌++◌, [], ℕ, List, ⊤};
ghost use Rattle.ts_hmac.specs.Hmac.{hmac_sha256};
ghost use Rattle.ts_hmac.specs.Holding.{Holds};

use crate::key::{block_key, xor_with};
use sha2::{Digest, Sha256};
use std::alloc::AllocError;

/// The pad of the key before the text (RFC 2104, 2).
const INNER_PAD: u8 = 0x36;

/// The pad of the key before the inner hash.
const OUTER_PAD: u8 = 0x5c;

/// The tag of a text that comes in pieces.
#[derive(Drop)]
pub struct Hmac {
    /// The hash of the inner key and the text so far.
    inner: Sha256,
    /// The hash of the outer key.
    outer: Sha256,
}

impl Hmac {
    /// A text of which nothing has come.
    pub fn new(key: &[u8]) -> Hmac
        ensures { Holds result key.now [] }
    {
        let block = block_key(key);
        Hmac {
            inner: Sha256::new_with_prefix(&xor_with(&block, INNER_PAD)),
            outer: Sha256::new_with_prefix(&xor_with(&block, OUTER_PAD)),
        }
    }

    /// Takes the next piece of the text.
    pub fn update(&mut self, piece: &[u8])
        ensures { (key text : List ℕ) → Holds self.old key text
            → Holds self.new key (text ++ piece.now) }
    {
        self.inner.update(piece);
    }

    /// The tag of all pieces.
    pub fn finalize(self) -> [u8; 32]
        ensures { (key text : List ℕ) → Holds self key text → result ≡ hmac_sha256 key text }
    {
        let Hmac { inner, mut outer } = self;
        outer.update(&inner.finalize());
        outer.finalize()
    }
}

impl Clone for Hmac {
    ghost is_clone = { λ old new. new ≡ old };

    ghost is_infallible = { λ _. ⊤ };

    fn clone(&self) -> Result<Hmac, AllocError> {
        Ok(Hmac {
            inner: self.inner.clone()?,
            outer: self.outer.clone()?,
        })
    }
}

/// The tag of a text.
pub fn hmac_sha256(key: &[u8], text: &[u8]) -> [u8; 32]
    ensures { result ≡ hmac_sha256 key.now text.now }
{
    let mut hmac = Hmac::new(key);
    hmac.update(text);
    hmac.finalize()
}
