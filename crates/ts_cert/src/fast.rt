//! Fast path. `false` or `None` means undecided; the caller then uses the full reader. Removing it
//! changes speed alone.
//!
//! The layout of a certificate of version 3 that has extensions and UTCTimes and no unique
//! identifiers, as most certificates do. One walk finds it by offsets alone and keeps nothing else.

ghost use Rattle.std.specs.Prelude.{◌≡◌, ◌≤◌, ◌+◌, IfSome, List, Option, length, true, unwrap_or};
ghost use Rattle.std.specs.Prelude.{[], ℕ};
ghost use Rattle.ts_der.specs.Integer.{is_shortest};
ghost use Rattle.ts_der.specs.Stands.{HavePart};
ghost use Rattle.ts_shape.specs.Fields.{Within, IsOid, IsInteger, IsBits};
ghost use Rattle.ts_name.specs.NameEncoding.{IsName};
ghost use Rattle.ts_field.specs.Algorithm.{AreParameters, IsAlgorithm};
ghost use Rattle.ts_field.specs.Time.{IsTime};
ghost use Rattle.ts_cert.specs.Layout.{AreLaidOut};
ghost use Rattle.ts_cert.specs.inside.Layout.{Spans, AreValidExplicit, IsRepeated, IsVersion3};
ghost use Rattle.ts_cert.specs.Encoding.{IsValidity, IsKeyInfo};

use crate::layout::Layout;
use crate::optional_reading::EXTENSIONS;
use crate::version::{VERSION, Version};
use ts_der::tag::{BIT_STRING, INTEGER, OBJECT_IDENTIFIER, SEQUENCE, UTC_TIME};
use ts_der::{ContentBounds, OidRef, are_equal, bounds_at, lie_between};
use ts_extensions::are_sound_extensions;
use ts_name::is_name;
use ts_time::begins_with_utc;

/// Longer certificates are left to the full reader: one that breaks a rule is read once more.
const SHORT: usize = 4_096;

/// Whether octets are an INTEGER's content in as few octets as can be (X.690 8.3.2).
#[inline(always)]
fn is_shortest(content: &[u8]) -> bool
    ensures { result ≡ is_shortest content.now }
{
    match content {
        [] => false,
        [0x00, second, ..] => *second >= 0x80,
        [0xFF, second, ..] => *second < 0x80,
        _ => true,
    }
}

/// Where an INTEGER ends.
#[inline(always)]
fn integer_end(octets: &[u8], at: usize) -> Option<usize>
    requires { at ≤ length octets.now }
    ensures { IfSome result (Spans (Within 0x02 IsInteger) octets.now at) }
{
    let ContentBounds { start, end } = bounds_at(octets, at, INTEGER)?;
    if !is_shortest(&octets[start..end]) {
        return None;
    }
    Some(end)
}

/// Where an OBJECT IDENTIFIER ends.
#[inline(always)]
fn oid_end(octets: &[u8], at: usize) -> Option<usize>
    requires { at ≤ length octets.now }
    ensures { IfSome result (Spans (Within 0x06 IsOid) octets.now at) }
{
    let ContentBounds { start, end } = bounds_at(octets, at, OBJECT_IDENTIFIER)?;
    let _oid = OidRef::from_content(&octets[start..end])?;
    Some(end)
}

/// Whether the parameters of an algorithm stand between two offsets, or nothing.
#[inline(always)]
fn are_parameters(octets: &[u8], at: usize, end: usize) -> bool
    requires { at ≤ length octets.now }
    ensures { result ≡ true → (p : Option (List ℕ)) × AreParameters p
        × HavePart octets.now at (unwrap_or p []) end }
{
    if at == end {
        return true;
    }
    let Some(tag) = octets[at..].first() else {
        return false;
    };
    match bounds_at(octets, at, *tag) {
        Some(bounds) => bounds.end == end,
        None => false,
    }
}

/// The least octets that an AlgorithmIdentifier of RSA may begin with, parameters NULL (RFC 3279
/// 2.2.1, 2.3.1), and the greatest.
const RSA_LOW: [u8; 16] = [
    0x30, 0x0D, 0x06, 0x09, 0x2A, 0x86, 0x48, 0x86, 0xF7, 0x0D, 0x01, 0x01, 0x00, 0x05, 0x00, 0x00,
];

const RSA_HIGH: [u8; 16] = [
    0x30, 0x0D, 0x06, 0x09, 0x2A, 0x86, 0x48, 0x86, 0xF7, 0x0D, 0x01, 0x01, 0x7F, 0x05, 0x00, 0xFF,
];

/// Whether an AlgorithmIdentifier of RSA is at an offset.
#[inline(always)]
fn is_rsa(octets: &[u8], at: usize) -> bool
    requires { at ≤ length octets.now }
    ensures { result ≡ true → Spans (Within 0x30 IsAlgorithm) octets.now at (at + 15) }
{
    let rest = &octets[at..];
    if rest.len() < 16 {
        return false;
    }
    lie_between(rest, &RSA_LOW, &RSA_HIGH)
}

/// The least octets that an AlgorithmIdentifier of ECDSA, which has no parameters (RFC 5758 3.2),
/// may begin with, and the greatest.
const ECDSA_LOW: [u8; 16] = [
    0x30, 0x0A, 0x06, 0x08, 0x2A, 0x86, 0x48, 0xCE, 0x3D, 0x04, 0x03, 0x00, 0x00, 0x00, 0x00, 0x00,
];

const ECDSA_HIGH: [u8; 16] = [
    0x30, 0x0A, 0x06, 0x08, 0x2A, 0x86, 0x48, 0xCE, 0x3D, 0x04, 0x03, 0x7F, 0xFF, 0xFF, 0xFF, 0xFF,
];

/// Whether an AlgorithmIdentifier of ECDSA is at an offset.
#[inline(always)]
fn is_ecdsa(octets: &[u8], at: usize) -> bool
    requires { at ≤ length octets.now }
    ensures { result ≡ true → Spans (Within 0x30 IsAlgorithm) octets.now at (at + 12) }
{
    let rest = &octets[at..];
    if rest.len() < 16 {
        return false;
    }
    lie_between(rest, &ECDSA_LOW, &ECDSA_HIGH)
}

/// The least octets that an AlgorithmIdentifier of a key on a named curve (RFC 5480 2.1.1) may
/// begin with, and the greatest.
const CURVE_LOW: [u8; 16] = [
    0x30, 0x00, 0x06, 0x07, 0x2A, 0x86, 0x48, 0xCE, 0x3D, 0x02, 0x01, 0x06, 0x00, 0x00, 0x00, 0x00,
];

const CURVE_HIGH: [u8; 16] = [
    0x30, 0x7F, 0x06, 0x07, 0x2A, 0x86, 0x48, 0xCE, 0x3D, 0x02, 0x01, 0x06, 0xFF, 0xFF, 0xFF, 0xFF,
];

/// Where an AlgorithmIdentifier of a key on a named curve ends.
#[inline(always)]
fn curve_end(octets: &[u8], at: usize) -> Option<usize>
    requires { at ≤ length octets.now }
    ensures { IfSome result (Spans (Within 0x30 IsAlgorithm) octets.now at) }
{
    let rest = &octets[at..];
    if rest.len() < 16 {
        return None;
    }
    if !lie_between(rest, &CURVE_LOW, &CURVE_HIGH) {
        return None;
    }
    let size = rest[1] as usize;
    if rest[12] as usize + 11 != size {
        return None;
    }
    if rest.len() < size + 2 {
        return None;
    }
    Some(at + 2 + size)
}

/// Where any AlgorithmIdentifier ends.
#[inline(never)]
fn full_algorithm_end(octets: &[u8], at: usize) -> Option<usize>
    requires { at ≤ length octets.now }
    ensures { IfSome result (Spans (Within 0x30 IsAlgorithm) octets.now at) }
{
    let ContentBounds { start, end } = bounds_at(octets, at, SEQUENCE)?;
    let parameters = oid_end(octets, start)?;
    if !are_parameters(octets, parameters, end) {
        return None;
    }
    Some(end)
}

/// Where the AlgorithmIdentifier of a signature ends.
#[inline(always)]
fn signature_algorithm_end(octets: &[u8], at: usize) -> Option<usize>
    requires { at ≤ length octets.now }
    ensures { IfSome result (Spans (Within 0x30 IsAlgorithm) octets.now at) }
{
    if is_rsa(octets, at) {
        return Some(at + 15);
    }
    if is_ecdsa(octets, at) {
        return Some(at + 12);
    }
    full_algorithm_end(octets, at)
}

/// Where the AlgorithmIdentifier of a key ends.
#[inline(always)]
fn key_algorithm_end(octets: &[u8], at: usize) -> Option<usize>
    requires { at ≤ length octets.now }
    ensures { IfSome result (Spans (Within 0x30 IsAlgorithm) octets.now at) }
{
    if is_rsa(octets, at) {
        return Some(at + 15);
    }
    match curve_end(octets, at) {
        Some(end) => Some(end),
        None => full_algorithm_end(octets, at),
    }
}

/// Where a Name ends.
#[inline(always)]
fn name_end(octets: &[u8], at: usize) -> Option<usize>
    requires { at ≤ length octets.now }
    ensures { IfSome result (Spans (Within 0x30 IsName) octets.now at) }
{
    let ContentBounds { start, end } = bounds_at(octets, at, SEQUENCE)?;
    if !is_name(&octets[start..end]) {
        return None;
    }
    Some(end)
}

/// Where a UTCTime ends.
#[inline(always)]
fn utc_end(octets: &[u8], at: usize) -> Option<usize>
    requires { at ≤ length octets.now }
    ensures { IfSome result (Spans IsTime octets.now at) }
{
    let [tag, length, text @ ..] = &octets[at..] else {
        return None;
    };
    if *tag != UTC_TIME || *length != 13 || !begins_with_utc(text) {
        return None;
    }
    Some(at + 15)
}

/// Where a Validity ends that has two UTCTimes.
#[inline(always)]
fn validity_end(octets: &[u8], at: usize) -> Option<usize>
    requires { at ≤ length octets.now }
    ensures { IfSome result (Spans (Within 0x30 IsValidity) octets.now at) }
{
    let ContentBounds { start, end } = bounds_at(octets, at, SEQUENCE)?;
    let not_after = utc_end(octets, start)?;
    if utc_end(octets, not_after)? != end {
        return None;
    }
    Some(end)
}

/// Where a BIT STRING of whole octets ends.
#[inline(always)]
fn bits_end(octets: &[u8], at: usize) -> Option<usize>
    requires { at ≤ length octets.now }
    ensures { IfSome result (Spans (Within 0x03 IsBits) octets.now at) }
{
    let ContentBounds { start, end } = bounds_at(octets, at, BIT_STRING)?;
    let [unused, ..] = &octets[start..end] else {
        return None;
    };
    if *unused != 0 {
        return None;
    }
    Some(end)
}

/// Where a SubjectPublicKeyInfo ends.
#[inline(always)]
fn key_end(octets: &[u8], at: usize) -> Option<usize>
    requires { at ≤ length octets.now }
    ensures { IfSome result (Spans (Within 0x30 IsKeyInfo) octets.now at) }
{
    let ContentBounds { start, end } = bounds_at(octets, at, SEQUENCE)?;
    let key = key_algorithm_end(octets, start)?;
    if bits_end(octets, key)? != end {
        return None;
    }
    Some(end)
}

/// Where extensions end that break no rule.
#[inline(always)]
fn extensions_end(octets: &[u8], at: usize) -> Option<usize>
    requires { at ≤ length octets.now }
    ensures { IfSome result (Spans (Within 0xA3 AreValidExplicit) octets.now at) }
{
    let explicit = bounds_at(octets, at, EXTENSIONS)?;
    let list = bounds_at(octets, explicit.start, SEQUENCE)?;
    if list.end != explicit.end || !are_sound_extensions(&octets[list.start..list.end]) {
        return None;
    }
    Some(explicit.end)
}

/// Where the same octets end once more, at another offset.
#[inline(always)]
fn again_end(octets: &[u8], at: usize, from: usize, to: usize) -> Option<usize>
    requires at { at ≤ length octets.now }
    requires from { from ≤ to }
    requires to { to ≤ length octets.now }
    ensures { IfSome result (IsRepeated octets.now at from to) }
{
    let rest = &octets[at..];
    let size = to - from;
    if rest.len() < size || !are_equal(&rest[..size], &octets[from..to]) {
        return None;
    }
    Some(at + size)
}

/// Where a Name ends, which may have the octets of another.
#[inline(always)]
fn name_end_beside(octets: &[u8], at: usize, from: usize, to: usize) -> Option<usize>
    requires at { at ≤ length octets.now }
    requires from { from ≤ to }
    requires other { Spans (Within 0x30 IsName) octets.now from to }
    ensures { IfSome result (Spans (Within 0x30 IsName) octets.now at) }
{
    match again_end(octets, at, from, to) {
        Some(end) => Some(end),
        None => name_end(octets, at),
    }
}

/// Where the version ends, if it is 3.
#[inline(always)]
fn version_end(octets: &[u8], at: usize) -> Option<usize>
    requires { at ≤ length octets.now }
    ensures { IfSome result (IsVersion3 octets.now at) }
{
    let [tag, length, inner, size, number, ..] = &octets[at..] else {
        return None;
    };
    if *tag != VERSION || *length != 3 || *inner != INTEGER || *size != 1 || *number != 2 {
        return None;
    }
    Some(at + 5)
}

/// The layout of the certificate that octets are, where it is in the form that most certificates
/// have.
#[inline(always)]
pub(crate) fn fast_layout(octets: &[u8]) -> Option<Layout>
    ensures { IfSome result (AreLaidOut octets.now) }
{
    if octets.len() > SHORT {
        return None;
    }
    let whole = bounds_at(octets, 0, SEQUENCE)?;
    let tbs = bounds_at(octets, whole.start, SEQUENCE)?;
    let serial_number = version_end(octets, tbs.start)?;
    let signature = integer_end(octets, serial_number)?;
    let issuer = signature_algorithm_end(octets, signature)?;
    let validity = name_end(octets, issuer)?;
    let subject = validity_end(octets, validity)?;
    let subject_public_key_info = name_end_beside(octets, subject, issuer, validity)?;
    let extensions = key_end(octets, subject_public_key_info)?;
    let signature_algorithm = extensions_end(octets, extensions)?;
    let signature_value = again_end(octets, signature_algorithm, signature, issuer)?;
    let end = bits_end(octets, signature_value)?;
    if signature_algorithm != tbs.end || end != whole.end || end != octets.len() {
        return None;
    }
    Some(Layout {
        version: Version::V3,
        tbs: whole.start,
        serial_number,
        signature,
        issuer,
        validity,
        subject,
        subject_public_key_info,
        issuer_unique_id: extensions,
        subject_unique_id: extensions,
        extensions,
        signature_algorithm,
        signature_value,
    })
}
