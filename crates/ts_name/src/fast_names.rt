//! Fast path. `false` or `None` means undecided; the caller then uses the full reader. Removing it
//! changes speed alone.
//!
//! Names of short attributes, as most certificates have them.

ghost use Rattle.std.specs.Prelude.{◌≡◌, ◌++◌, ◌∷◌, [], List, true, IsTrue, ◌↔◌, IfSome};
ghost use Rattle.ts_der.specs.Element.{Fits};
ghost use Rattle.ts_der.specs.Text.{is_ascii};
ghost use Rattle.ts_name.specs.Canon.{Attr};
ghost use Rattle.ts_name.specs.NameEncoding.{IsRdn, IsName, rdn_content, encoded_rdn};
ghost use Rattle.ts_name.specs.NameView.{rdns_in};

use crate::name::Name;
use crate::name_reading::check_rdns;
use ts_der::tag::{OBJECT_IDENTIFIER, SEQUENCE, SET};
use ts_der::{Reader, are_ascii};

/// What follows the relative distinguished name at the front of ASCII, where that is one attribute,
/// with lengths of one octet and a type of three octets. Where nothing is answered, nothing is
/// claimed.
#[inline(always)]
fn behind_short_rdn(octets: &[u8]) -> Option<&[u8]>
    requires { is_ascii octets.now ≡ true }
    ensures stands { IfSome result
        (λ more. (x : Attr) × IsRdn (x ∷ []) × Fits 0x31 (rdn_content (x ∷ []))
        × (octets.now ≡ encoded_rdn (x ∷ []) ++ more.now)) }
    ensures ascii { IfSome result (λ more. is_ascii more.now ≡ true) }
{
    let [
        set,
        length,
        sequence,
        inner,
        identifier,
        three,
        _,
        _,
        _,
        tag,
        size,
        more @ ..,
    ] = octets
    else {
        return None;
    };
    if *set != SET || *sequence != SEQUENCE || *identifier != OBJECT_IDENTIFIER || *three != 3 {
        return None;
    }
    let size = *size as usize;
    if *length as usize != size + 9 || *inner as usize != size + 7 || *tag % 0x20 == 0x1f {
        return None;
    }
    if more.len() < size {
        return None;
    }
    Some(more.split_at(size).1)
}

/// Whether octets are one such relative distinguished name after another. Where they are not,
/// nothing is claimed.
#[inline(always)]
pub(crate) fn are_short_rdns(content: &[u8]) -> bool
    ensures { result ≡ true → (rdns : List (List Attr)) × IsName content.now rdns }
{
    if !are_ascii(content) {
        return false;
    }
    let mut rest = content;
    while !rest.is_empty() {
        let Some(more) = behind_short_rdn(rest) else {
            return false;
        };
        rest = more;
    }
    true
}

/// Whether octets are the content of a name, by each rule.
#[inline(never)]
fn is_other_name(content: &[u8]) -> bool
    ensures { IsTrue result ↔ (rdns : List (List Attr)) × IsName content.now rdns }
{
    check_rdns(&mut Reader::new(content)).is_ok()
}

/// Whether octets are the content of a name: relative distinguished names that are each a set of
/// attributes, as [`Name::read`](crate::Name::read) reads them (RFC 5280 4.1.2.4).
#[inline(always)]
pub fn is_name(content: &[u8]) -> bool
    ensures { IsTrue result ↔ (rdns : List (List Attr)) × IsName content.now rdns }
{
    are_short_rdns(content) || is_other_name(content)
}

/// Whether two names have one encoding, as those of an issuer in its own certificate and in another
/// mostly have, and so the same attributes.
#[inline(always)]
pub(crate) fn have_one_encoding(first: Name<'_>, second: Name<'_>) -> bool
    ensures { result ≡ true → rdns_in first.entry ≡ rdns_in second.entry }
{
    first.element.content == second.element.content
}
