//! A key, made as long as a block.

ghost use Rattle.std.specs.Prelude.{◌≡◌, ◌≤◌, ◌-◌, ◌++◌, length, replicate};
ghost use Rattle.ts_hmac.specs.Hmac.{block_key, xor_with};

use sha2::{Digest, Sha256};

/// The octets of a block of SHA-256.
pub(crate) const BLOCK: usize = 64;

/// A short key, with zeros after it.
fn pad_key(key: &[u8]) -> [u8; BLOCK]
    requires { length key.now ≤ 64 }
    ensures { result ≡ key.now ++ replicate (64 - length key.now) 0 }
{
    let mut block = [0; BLOCK];
    let (front, _zeros) = block.split_at_mut(key.len());
    front.copy_from_slice(key);
    block
}

/// The key of a block's length.
pub(crate) fn block_key(key: &[u8]) -> [u8; BLOCK]
    ensures { result ≡ block_key key.now }
{
    if key.len() <= BLOCK {
        pad_key(key)
    } else {
        pad_key(&Sha256::digest(key))
    }
}

/// Each octet of a block with the same pad.
pub(crate) fn xor_with(block: &[u8; BLOCK], pad: u8) -> [u8; BLOCK]
    ensures { result ≡ xor_with pad block.now }
{
    let mut out = [0; BLOCK];
    for i in 0..BLOCK {
        out[i] = block[i] ^ pad;
    }
    out
}
