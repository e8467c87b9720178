//! Fast path. `false` or `None` means undecided; the caller then uses the full reader. Removing it
//! changes speed alone.
//!
//! The values of extensions in the forms that most certificates have, by their first octets.

ghost use Rattle.std.specs.Prelude.{◌≡◌, ◌++◌, ◌∷◌, [], true, ℕ, List, Bool, Ok, Some, None};
ghost use Rattle.std.specs.Prelude.{IfSome};
ghost use Rattle.ts_der.specs.Element.{Fits, encode};
ghost use Rattle.ts_der.specs.View.{now};
ghost use Rattle.ts_extensions.specs.Extension.{Located, located_of, IsExtension};
ghost use Rattle.ts_ext.specs.declared.basic_constraints.BasicConstraints.{BasicConstraints};
ghost use Rattle.ts_ext.specs.Encoding.{IfTrue, IsBasicConstraints, IsKeyUsage};
ghost use Rattle.ts_extensions.specs.ValueRules.{IsValidValue, value_fault};

use crate::fast_points::are_uris;
use ts_der::tag::{BIT_STRING, BOOLEAN, INTEGER, OBJECT_IDENTIFIER, OCTET_STRING, SEQUENCE};
use ts_der::{Element, bounds_at};
use ts_ext::tag::KEY_IDENTIFIER;
use ts_ext::{Holder, Known};

/// The content of the one element that octets are, where it has this tag and the length has at most
/// two octets after the first. `None` decides nothing.
#[inline(always)]
fn content_of(tag: u8, octets: &[u8]) -> Option<&[u8]>
    ensures { IfSome result (λ content. Fits tag content.now
        × (octets.now ≡ encode tag content.now)) }
{
    let bounds = bounds_at(octets, 0, tag)?;
    if bounds.end != octets.len() {
        return None;
    }
    Some(&octets[bounds.start..])
}

/// Whether basic constraints are those of an authority, with no bound or one below 128 (RFC 5280
/// 4.2.1.9).
#[inline(always)]
fn are_of_authority(content: &[u8]) -> bool
    ensures { result ≡ true → (constraints : BasicConstraints)
        × IsBasicConstraints content.now constraints }
{
    let [tag, length, ca, bound @ ..] = content else {
        return false;
    };
    if *tag != BOOLEAN || *length != 1 || *ca != 0xFF {
        return false;
    }
    let [integer, one, number] = bound else {
        return bound.is_empty();
    };
    if *integer != INTEGER || *one != 1 || *number >= 0x80 {
        return false;
    }
    true
}

/// Whether a key usage has one octet and ends with cRLSign, bit 6 (RFC 5280 4.2.1.3).
#[inline(always)]
fn ends_with_crl_sign(content: &[u8]) -> bool
    ensures { result ≡ true → (bits : List Bool) × IsKeyUsage content.now bits }
{
    let [unused, octet] = content else {
        return false;
    };
    if *unused != 1 || *octet % 4 != 2 {
        return false;
    }
    true
}

/// Whether octets are a value of this extension as most certificates have it, which breaks no rule:
/// the identifier of a key, alone where it is the authority's; the basic constraints of an
/// authority; a key usage that ends with cRLSign; distribution points that are URIs. `false`
/// decides nothing.
#[inline(always)]
fn is_fast(known: Known, octets: &[u8]) -> bool
    ensures { result ≡ true → IsValidValue (Some known) octets.now }
{
    match known {
        Known::SubjectKeyIdentifier => content_of(OCTET_STRING, octets).is_some(),
        Known::BasicConstraints => match content_of(SEQUENCE, octets) {
            Some(content) => are_of_authority(content),
            None => false,
        },
        Known::KeyUsage => match content_of(BIT_STRING, octets) {
            Some(content) => ends_with_crl_sign(content),
            None => false,
        },
        Known::AuthorityKeyIdentifier => match content_of(SEQUENCE, octets) {
            Some(content) => content_of(KEY_IDENTIFIER, content).is_some(),
            None => false,
        },
        Known::CrlDistributionPoints => match content_of(SEQUENCE, octets) {
            Some(content) => are_uris(content),
            None => false,
        },
        _ => false,
    }
}

/// What follows critical, where that is TRUE, and else all.
#[inline(always)]
fn behind_critical(fields: &[u8]) -> &[u8]
    ensures { (flag : List ℕ) × (critical : Bool) × IfTrue 0x01 flag critical
        × (fields.now ≡ flag ++ result.now) }
{
    let [tag, length, octet, value @ ..] = fields else {
        return fields;
    };
    if *tag != BOOLEAN || *length != 1 || *octet != 0xFF {
        return fields;
    }
    value
}

/// The last arc of an extension under 2.5.29, and its value, where each of its lengths has one
/// octet. `None` decides nothing.
#[inline(always)]
pub(crate) fn short_parts(content: &[u8]) -> Option<(u8, &[u8])>
    ensures { IfSome result (λ parts. (critical : Bool)
        × IsExtension content.now (record
        { extnID = 0x55 ∷ 0x1D ∷ parts.0 ∷ []; critical = critical; extnValue = parts.1.now })) }
{
    let [tag, length, joint, ce, arc, fields @ ..] = content else {
        return None;
    };
    if *tag != OBJECT_IDENTIFIER || *length != 3 || *joint != 0x55 || *ce != 0x1D || *arc >= 0x80 {
        return None;
    }
    let value = content_of(OCTET_STRING, behind_critical(fields))?;
    Some((*arc, value))
}

/// The last arc, under 2.5.29, of the extension that a SEQUENCE is, where it is one of most
/// certificates with such a value.
/// `None` decides nothing.
#[inline(always)]
pub(crate) fn fast_arc(element: Element<'_>, holder: Holder) -> Option<u8>
    ensures { IfSome result (λ arc. (x : Located) × (located_of (now element.entry) ≡ Ok x)
        × (x.extnID ≡ 0x55 ∷ 0x1D ∷ arc ∷ []) × (value_fault holder x ≡ None)) }
{
    let (arc, value) = short_parts(element.content)?;
    let known = Known::with_arc(holder, arc)?;
    if !is_fast(known, value) {
        return None;
    }
    Some(arc)
}
