//! Octets in hexadecimal.

ghost use Rattle.std.specs.Prelude.{◌≡◌, ◌*◌, ℕ, List, length, MatchOption};
ghost use Rattle.std.specs.Bool.{MatchBool};
ghost use Rattle.ts_literal.specs.Literals.{IsHex};

/// Writes the octets that a text writes in lower-case hexadecimal digits, if it writes so many;
/// else the octets are left as they may be. There is room for the digits.
fn hex_into(text: &str, octets: &mut [u8], digits: &mut [u8]) -> bool
    requires { length digits.now ≡ 2 * length octets.now }
    ensures { MatchBool result (IsHex (length octets.old) text.now octets.new)
        ((xs : List ℕ) → ¬ (IsHex (length octets.old) text.now xs)) }
{
    if hex::decode_to_slice(text, octets).is_err() {
        return false;
    }
    if hex::encode_to_slice(&*octets, digits).is_err() {
        return false;
    }
    &*digits == text.as_bytes()
}

/// The 32 octets that a text writes in lower-case hexadecimal digits.
pub fn digest_of(text: &str) -> Option<[u8; 32]>
    ensures { MatchOption result ((octets : List ℕ) → ¬ (IsHex 32 text.now octets))
        (IsHex 32 text.now) }
{
    let mut octets = [0; 32];
    if hex_into(text, &mut octets, &mut [0; 64]) {
        Some(octets)
    } else {
        None
    }
}

/// The 16 octets that a text writes in lower-case hexadecimal digits.
pub fn id_of(text: &str) -> Option<[u8; 16]>
    ensures { MatchOption result ((octets : List ℕ) → ¬ (IsHex 16 text.now octets))
        (IsHex 16 text.now) }
{
    let mut octets = [0; 16];
    if hex_into(text, &mut octets, &mut [0; 32]) {
        Some(octets)
    } else {
        None
    }
}
