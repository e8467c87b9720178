//! Fast path. `false` or `None` means undecided; the caller then uses the full reader. Removing it
//! changes speed alone.
//!
//! Extensions in the forms that most certificates have, recognised by their first sixteen octets.

ghost use Rattle.std.specs.Prelude.{◌≡◌, ◌≤◌, IfSome, length, take, slice_index_or};
ghost use Rattle.ts_extensions.specs.Valid.{IsValidUnder};

use ts_der::lie_between;

/// Basic constraints that are critical and say that cA is TRUE, but for the last octet (RFC 5280
/// 4.2.1.9).
const AUTHORITY: [u8; 16] = [
    0x30, 0x0F, 0x06, 0x03, 0x55, 0x1D, 0x13, 0x01, 0x01, 0xFF, 0x04, 0x05, 0x30, 0x03, 0x01, 0x01,
];

/// A critical key usage in one octet, of which one bit is not used, and that octet is 0 (RFC 5280
/// 4.2.1.3).
const LEAST_USAGE: [u8; 16] = [
    0x30, 0x0E, 0x06, 0x03, 0x55, 0x1D, 0x0F, 0x01, 0x01, 0xFF, 0x04, 0x04, 0x03, 0x02, 0x01, 0x00,
];

/// The key usage whose last octet is FF.
const GREATEST_USAGE: [u8; 16] = [
    0x30, 0x0E, 0x06, 0x03, 0x55, 0x1D, 0x0F, 0x01, 0x01, 0xFF, 0x04, 0x04, 0x03, 0x02, 0x01, 0xFF,
];

/// A subject key identifier of twenty octets, of which five are 0 (RFC 5280 4.2.1.2).
const LEAST_SUBJECT_KEY: [u8; 16] = [
    0x30, 0x1D, 0x06, 0x03, 0x55, 0x1D, 0x0E, 0x04, 0x16, 0x04, 0x14, 0, 0, 0, 0, 0,
];

/// A subject key identifier of twenty octets, of which five are FF.
const GREATEST_SUBJECT_KEY: [u8; 16] = [
    0x30, 0x1D, 0x06, 0x03, 0x55, 0x1D, 0x0E, 0x04, 0x16, 0x04, 0x14, 0xFF, 0xFF, 0xFF, 0xFF, 0xFF,
];

/// An authority key identifier that is a key identifier of twenty octets, of which three are 0 (RFC
/// 5280 4.2.1.1).
const LEAST_AUTHORITY_KEY: [u8; 16] = [
    0x30, 0x1F, 0x06, 0x03, 0x55, 0x1D, 0x23, 0x04, 0x18, 0x30, 0x16, 0x80, 0x14, 0, 0, 0,
];

/// An authority key identifier that is a key identifier of twenty octets, of which three are FF.
const GREATEST_AUTHORITY_KEY: [u8; 16] = [
    0x30, 0x1F, 0x06, 0x03, 0x55, 0x1D, 0x23, 0x04, 0x18, 0x30, 0x16, 0x80, 0x14, 0xFF, 0xFF, 0xFF,
];

/// The size of the basic constraints of an authority without a bound.
#[inline(always)]
fn authority_size(octets: &[u8]) -> Option<usize>
    ensures sound { IfSome result (λ size. IsValidUnder 0x13 (take size octets.now)) }
    ensures within { IfSome result (λ size. size ≤ length octets.now) }
{
    if octets.len() < 17 || octets[16] != 0xFF {
        return None;
    }
    if !lie_between(octets, &AUTHORITY, &AUTHORITY) {
        return None;
    }
    Some(17)
}

/// The size of a key usage in one octet that ends with cRLSign, bit 6.
#[inline(always)]
fn usage_size(octets: &[u8]) -> Option<usize>
    ensures sound { IfSome result (λ size. IsValidUnder 0x0F (take size octets.now)) }
    ensures within { IfSome result (λ size. size ≤ length octets.now) }
{
    if octets.len() < 16 || octets[15] % 4 != 2 {
        return None;
    }
    if !lie_between(octets, &LEAST_USAGE, &GREATEST_USAGE) {
        return None;
    }
    Some(16)
}

/// The size of a subject key identifier of twenty octets.
#[inline(always)]
fn subject_key_size(octets: &[u8]) -> Option<usize>
    ensures sound { IfSome result (λ size. IsValidUnder 0x0E (take size octets.now)) }
    ensures within { IfSome result (λ size. size ≤ length octets.now) }
{
    if octets.len() < 31 || !lie_between(octets, &LEAST_SUBJECT_KEY, &GREATEST_SUBJECT_KEY) {
        return None;
    }
    Some(31)
}

/// The size of an authority key identifier of twenty octets, alone.
#[inline(always)]
fn authority_key_size(octets: &[u8]) -> Option<usize>
    ensures sound { IfSome result (λ size. IsValidUnder 0x23 (take size octets.now)) }
    ensures within { IfSome result (λ size. size ≤ length octets.now) }
{
    if octets.len() < 33 || !lie_between(octets, &LEAST_AUTHORITY_KEY, &GREATEST_AUTHORITY_KEY) {
        return None;
    }
    Some(33)
}

/// The size of the extension at the front of octets, where it is the identifier of a key, in twenty
/// octets and alone, the basic constraints of an authority, or a key usage that ends with cRLSign,
/// each with the lengths and the criticality that most have. `None` decides nothing.
#[inline(always)]
pub(crate) fn fast_size(octets: &[u8]) -> Option<usize>
    ensures sound { IfSome result (λ size. IsValidUnder (slice_index_or octets.now 6 0)
        (take size octets.now)) }
    ensures within { IfSome result (λ size. size ≤ length octets.now) }
    ensures seven { IfSome result (λ size. 7 ≤ length octets.now) }
{
    let [_, _, _, _, _, _, arc, ..] = octets else {
        return None;
    };
    match *arc {
        0x13 => authority_size(octets),
        0x0F => usage_size(octets),
        0x0E => subject_key_size(octets),
        0x23 => authority_key_size(octets),
        _ => None,
    }
}
