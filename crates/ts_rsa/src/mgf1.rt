//! The mask generation function MGF1 (RFC 8017 B.2.1).

ghost use Rattle.std.specs.Prelude.{◌≡◌, ℕ, ◌+◌, ◌<◌, ◌≤◌, length, slice_index, bit_xor};
ghost use Rattle.ts_rsa.specs.Pss.{unmasked_from};

use ts_digest::{Hash, hash_of_parts, size_of_hash};

/// Xors octets from an offset on with a block, as far as there are octets.
fn xor_block(octets: &mut [u8], at: usize, block: &[u8])
    requires { at ≤ length octets.old }
    ensures within { (j : ℕ) → j < length block.now → at + j < length octets.old
        → slice_index octets.new (at + j)
        ≡ bit_xor (slice_index octets.old (at + j)) (slice_index block.now j) }
    ensures below { (i : ℕ) → i < at → slice_index octets.new i ≡ slice_index octets.old i }
    ensures above { (i : ℕ) → at + length block.now ≤ i
        → slice_index octets.new i ≡ slice_index octets.old i }
{
    let count = block.len().min(octets.len() - at);
    for j in 0..count {
        octets[at + j] ^= block[j];
    }
}

/// Takes the mask of a seed from some octets.
pub fn unmask(octets: &mut [u8], hash: Hash, seed: &[u8])
    requires { length octets.old ≤ 1024 }
    ensures { octets.new ≡ unmasked_from hash seed.now 0 octets.old }
{
    let size = size_of_hash(hash);
    for block in 0..octets.len() / size + 1 {
        let mask = hash_of_parts(hash, seed, &[0, 0, 0, block as u8], &[]);
        xor_block(octets, block * size, mask.as_slice());
    }
}
