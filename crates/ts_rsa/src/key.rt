//! Public keys.

ghost use Rattle.std.specs.Prelude.{◌≡◌, ◌<◌, ◌≤◌, ◌↔◌, IsTrue, length, slice_index};
ghost use Rattle.ts_rsa.specs.Key.{bit_length, IsKey};

/// How many octets a modulus has at most, whatever the bounds are: 8,192 bits.
pub const OCTETS: usize = 1024;

/// Which keys are taken. The modulus also has at most 8,192 bits, and modulus and exponent are
/// odd, whatever these bounds are.
#[derive(Clone, Copy, Debug, PartialEq, Eq)]
pub struct KeyBounds {
    /// The least number of bits of the modulus.
    pub min_bits: usize,
    /// The greatest number of bits of the modulus.
    pub max_bits: usize,
    /// The least exponent.
    pub min_exponent: u64,
    /// The greatest exponent.
    pub max_exponent: u64,
}

impl KeyBounds {
    /// Moduli of 2,048 to 8,192 bits, exponents from 3 to 2^33 - 1.
    pub const STANDARD: KeyBounds = KeyBounds {
        min_bits: 2048,
        max_bits: 8192,
        min_exponent: 3,
        max_exponent: 0x1_ffff_ffff,
    };
}

/// How many bits the number of some octets has, the first of which is not 0.
pub fn bits_of(octets: &[u8]) -> usize
    requires some { 0 < length octets.now }
    requires limit { length octets.now ≤ OCTETS }
    ensures { result ≡ bit_length octets.now }
{
    8 * octets.len() - octets[0].leading_zeros() as usize
}

/// Whether the octets of a modulus and an exponent are a key within the bounds.
pub fn is_key(bounds: KeyBounds, modulus: &[u8], exponent: u64) -> bool
    ensures { IsTrue result ↔ IsKey bounds modulus.now exponent }
{
    let len = modulus.len();
    if len == 0 {
        return false;
    }
    if len > OCTETS {
        return false;
    }
    if modulus[0] == 0 {
        return false;
    }
    if modulus[len - 1] % 2 == 0 {
        return false;
    }
    let bits = bits_of(modulus);
    if bits < bounds.min_bits {
        return false;
    }
    if bits > bounds.max_bits {
        return false;
    }
    if exponent < bounds.min_exponent {
        return false;
    }
    if exponent > bounds.max_exponent {
        return false;
    }
    exponent % 2 == 1
}
