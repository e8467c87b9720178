//! Fast path. `false` or `None` means undecided; the caller then uses the full reader. Removing it
//! changes speed alone.
//!
//! The extensions of a certificate, where they are in the forms that most certificates have.

ghost use Rattle.std.specs.Prelude.{◌≡◌, ◌≤◌, ◌↔◌, IsTrue, true, IfSome, length, take, None, Ok};
ghost use Rattle.ts_der.specs.View.{now};
ghost use Rattle.ts_ext.specs.declared.known.Holder.TheVariants.{Certificate};
ghost use Rattle.ts_extensions.specs.Extension.{Located, located_of};
ghost use Rattle.ts_extensions.specs.Valid.{IsNewKey, IsValidAndNew, AreValidOnce};
ghost use Rattle.ts_extensions.specs.ValueRules.{value_fault};

use crate::checked_extensions::judge_each;
use crate::extension::read_extension;
use crate::fast::fast_arc;
use crate::fast_extension::fast_size;
use ts_der::tag::SEQUENCE;
use ts_der::{Element, Reader};
use ts_ext::Holder;
use ts_shape::{Keyed, LastOctets};

/// A list of more octets is not looked at: one that breaks a rule is walked once more, and may be
/// made to be slow.
const SHORT: usize = 4_096;

/// Whether an extension's object identifier ends in an octet of its own, and its value breaks no
/// rule.
#[inline(always)]
fn is_sound_and_new(element: Element<'_>, ends: &mut LastOctets) -> bool
    ensures { result ≡ true → (x : Located) × (located_of (now element.entry) ≡ Ok x)
        × (value_fault Certificate x ≡ None) × IsNewKey ends.old ends.new x.extnID }
{
    if let Some(arc) = fast_arc(element, Holder::Certificate) {
        return ends.is_new(&[0x55, 0x1D, arc]);
    }
    let Ok(extension) = read_extension(element) else {
        return false;
    };
    if extension.first_fault(Holder::Certificate).is_some() {
        return false;
    }
    ends.is_new(extension.key())
}

/// The size of the extension at the front of octets, where its object identifier ends in an octet
/// of its own, and its value breaks no rule.
#[inline(never)]
fn sound_size(octets: &[u8], ends: &mut LastOctets) -> Option<usize>
    ensures sound { IfSome result (λ size. IsValidAndNew ends.old ends.new (take size octets.now)) }
    ensures within { IfSome result (λ size. size ≤ length octets.now) }
{
    let Ok(element) = Reader::new(octets).element(SEQUENCE) else {
        return None;
    };
    if !is_sound_and_new(element, ends) {
        return None;
    }
    Some(element.whole.len())
}

/// As the above, with the forms that most certificates have looked at first.
#[inline(always)]
fn next_size(octets: &[u8], ends: &mut LastOctets) -> Option<usize>
    ensures sound { IfSome result (λ size. IsValidAndNew ends.old ends.new (take size octets.now)) }
    ensures within { IfSome result (λ size. size ≤ length octets.now) }
{
    let Some(size) = fast_size(octets) else {
        return sound_size(octets, ends);
    };
    if !ends.is_new(&[0x55, 0x1D, octets[6]]) {
        return None;
    }
    Some(size)
}

/// Whether octets are a short list of extensions of a certificate of which no two object
/// identifiers end alike, and each value breaks no rule. `false` decides nothing.
#[inline(always)]
pub(crate) fn have_ends_of_their_own(content: &[u8]) -> bool
    ensures { result ≡ true → AreValidOnce content.now }
{
    if content.len() > SHORT {
        return false;
    }
    let mut ends = LastOctets::new();
    let mut rest = content;
    while !rest.is_empty() {
        let Some(size) = next_size(rest, &mut ends) else {
            return false;
        };
        rest = rest.split_at(size).1;
    }
    !content.is_empty()
}

/// Whether octets are extensions of a certificate of which none occurs twice, and each value breaks
/// no rule.
#[cold]
#[inline(never)]
fn are_others(content: &[u8]) -> bool
    ensures { IsTrue result ↔ AreValidOnce content.now }
{
    let list = Element::of_content(SEQUENCE, content);
    match judge_each(list, Holder::Certificate) {
        Ok(judged) => judged.fault.is_none(),
        Err(_) => false,
    }
}

/// Whether the content of a SEQUENCE is extensions of a certificate that break no rule: one or
/// more, none of which stands twice, each with a value that its extension has and that keeps the
/// rules of RFC 5280 (4.2), as `CheckedExtensions` finds them.
#[inline(always)]
pub fn are_sound_extensions(content: &[u8]) -> bool
    ensures { IsTrue result ↔ AreValidOnce content.now }
{
    have_ends_of_their_own(content) || are_others(content)
}
