//! A number made of octets. No promise rests on it: it decides where a value is looked for, and so
//! speed alone.

/// An odd number whose bits look random: 2^64 over the golden ratio.
const FACTOR: u64 = 0x9e37_79b9_7f4a_7c15;

/// The number, and one word more.
#[inline(always)]
fn mix(number: u64, word: u64) -> u64 {
    (number ^ word).wrapping_mul(FACTOR).rotate_left(29)
}

/// A number made of octets, eight at a time.
pub(crate) fn fingerprint(octets: &[u8]) -> u64 {
    let mut number = octets.len() as u64;
    let mut rest = octets;
    while let [a, b, c, d, e, f, g, h, behind @ ..] = rest {
        number = mix(number, u64::from_le_bytes([*a, *b, *c, *d, *e, *f, *g, *h]));
        rest = behind;
    }
    for octet in rest {
        number = mix(number, *octet as u64);
    }
    mix(number, number >> 32)
}
