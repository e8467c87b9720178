//! Reading a distinguished name.

ghost use Rattle.std.specs.Prelude.{◌≡◌, ◌∷◌, [], List, true, None, Ok, IfOk, IsOkAnd, option_map};
ghost use Rattle.std.specs.Str.{is_utf8};
ghost use Rattle.ts_der.specs.Answer.{Answers, refusal};
ghost use Rattle.ts_der.specs.Rules.{first_broken};
ghost use Rattle.ts_der.specs.Element.{inside};
ghost use Rattle.ts_der.specs.View.{now};
ghost use Rattle.ts_der.specs.Reading.{value_at, many};
ghost use Rattle.ts_name.specs.Names.{attribute_of, attribute_at, rdn_of, rdn_at, name_of};
ghost use Rattle.ts_name.specs.Names.{text_rules};
ghost use Rattle.ts_shape.specs.Steps.{Takes, Passes};
ghost use Rattle.ts_name.specs.Canon.{Attr};
ghost use Rattle.ts_shape.specs.Fault.{about};
ghost use Rattle.ts_name.specs.NameEncoding.{IsRdnContent, IsName};
ghost use Rattle.ts_name.specs.NameView.{rdns_in, attributes_in};
ghost use Rattle.ts_name.specs.NameRows.{relative_distinguished_name, rdn_fault};
ghost use Rattle.ts_shape.specs.Shape.{items, judge};
ghost use Rattle.ts_name.specs.View.{attr_of};

use crate::attribute::Attribute;
use crate::fast_names::are_short_rdns;
use crate::name::Name;
use crate::rdn::Rdn;
use std::str;
use ts_der::tag::{IA5_STRING, OBJECT_IDENTIFIER, PRINTABLE_STRING, SEQUENCE, SET, UTF8_STRING};
use ts_der::{DerFault, Element, Fault, Reader};

/// The content of an attribute's value, whose text obeys its character set.
fn read_value<'a>(value: Element<'a>) -> Result<&'a [u8], Fault>
    ensures { Answers (λ c. c.now) result
        (value_at (text_rules value.entry.tag) (λ c. c) (now value.entry)) }
{
    match value.tag {
        UTF8_STRING => Ok(value.utf8()?.as_bytes()),
        PRINTABLE_STRING | IA5_STRING => value.ascii(),
        _ => Ok(value.content),
    }
}

/// The attribute that a SEQUENCE's content is.
#[tactic(auto, unfolding(crate::specs::Names::attribute_of))]
pub(crate) fn read_attribute<'a>(element: Element<'a>) -> Result<Attribute<'a>, Fault>
    ensures { Answers attr_of result (attribute_of (now element.entry)) }
{
    let mut fields = element.reader();
    let kind = fields.element(OBJECT_IDENTIFIER)?.oid()?;
    let value = fields.next()?;
    let content = read_value(value)?;
    fields.end()?;
    Ok(Attribute {
        kind: kind.content,
        tag: value.tag,
        value: content,
    })
}

/// The next attribute of a set, which the reader has then passed.
#[tactic(auto, unfolding(ts_shape::specs::Fields::within))]
#[inline(always)]
fn next_attribute<'a>(rest: &mut Reader<'a>) -> Result<Attribute<'a>, Fault>
    ensures { Takes attr_of rest.new result (attribute_at rest.old) }
{
    let element = rest.element(SEQUENCE)?;
    read_attribute(element)
}

/// The attributes of a set, one after another, and whether there is one and no other.
#[inline(always)]
fn check_attributes(set: Element<'_>) -> Result<bool, Fault>
    ensures fault { refusal result ≡ refusal (many attribute_at (inside (now set.entry))) }
    ensures single { IfOk result (λ is_single. is_single ≡ true
        → (x : Attr) × (many attribute_at (inside (now set.entry)) ≡ Ok (x ∷ []))) }
{
    let mut rest = set.reader();
    let mut is_first = true;
    let mut is_single = false;
    while !rest.is_at_end() {
        next_attribute(&mut rest)?;
        is_single = is_first;
        is_first = false;
    }
    Ok(is_single)
}

/// Whether octets are text in UTF-8.
#[tactic(auto, using(ts_der::proofs::Texts::is_utf8_is, ts_der::proofs::Texts::is_utf8_is_not))]
#[inline(never)]
fn is_utf8(octets: &[u8]) -> bool
    ensures { result ≡ is_utf8 octets.now }
{
    match str::from_utf8(octets) {
        Ok(_) => true,
        Err(_) => false,
    }
}

/// Whether octets are in the character set that a tag has.
#[inline(always)]
fn are_in_character_set(tag: u8, octets: &[u8]) -> bool
    ensures { result ≡ true → first_broken (text_rules tag) octets.now ≡ None }
{
    // Those of ASCII are in each.
    if octets.is_ascii() {
        return true;
    }
    match tag {
        UTF8_STRING => is_utf8(octets),
        PRINTABLE_STRING | IA5_STRING => false,
        _ => true,
    }
}

/// Whether the content of a set is one attribute, with lengths of one octet and a type of three
/// numbers below 128, as in most names. Where it is not, nothing is claimed.
#[inline(always)]
fn is_one_short_attribute(content: &[u8]) -> bool
    ensures { result ≡ true → (x : Attr) × IsRdnContent content.now (x ∷ []) }
{
    let [
        sequence,
        length,
        identifier,
        three,
        a,
        b,
        c,
        tag,
        size,
        value @ ..,
    ] = content
    else {
        return false;
    };
    if *sequence != SEQUENCE || *identifier != OBJECT_IDENTIFIER || *three != 3 {
        return false;
    }
    let count = value.len();
    if count > 120 || *size as usize != count || *length as usize != 7 + count {
        return false;
    }
    if *a >= 0x80 || *b >= 0x80 || *c >= 0x80 || *tag % 0x20 == 0x1f {
        return false;
    }
    are_in_character_set(*tag, value)
}

/// Checks what is in a set that is a relative distinguished name, and its order.
#[tactic(auto, unfolding(crate::specs::Names::rdn_of))]
fn check_any_rdn(set: Element<'_>) -> Result<(), Fault>
    ensures { refusal result ≡ refusal (rdn_of (now set.entry)) }
{
    // One attribute, as in most names, is in order.
    if check_attributes(set)? {
        return Ok(());
    }
    if set.content.is_empty() {
        return Err(Fault {
            kind: DerFault::Empty,
            at: set.at,
        });
    }
    set.set_of()?;
    Ok(())
}

/// Checks what is in a set that is a relative distinguished name, with a short way for the one
/// short attribute that is in most.
#[inline(always)]
fn check_rdn(set: Element<'_>) -> Result<(), Fault>
    ensures { refusal result ≡ refusal (rdn_of (now set.entry)) }
{
    if is_one_short_attribute(set.content) {
        return Ok(());
    }
    check_any_rdn(set)
}

/// The next relative distinguished name, which the reader has then passed.
#[inline(always)]
fn pass_rdn(rest: &mut Reader<'_>) -> Result<(), Fault>
    ensures { Passes rest.new result (rdn_at rest.old) }
{
    let set = rest.element(SET)?;
    check_rdn(set)
}

/// The relative distinguished names of a name, one after another.
#[inline(always)]
pub(crate) fn check_rdns(rest: &mut Reader<'_>) -> Result<(), Fault>
    ensures { refusal result ≡ refusal (many rdn_at rest.old) }
{
    while !rest.is_at_end() {
        pass_rdn(rest)?;
    }
    Ok(())
}

/// The relative distinguished names of a name, with a short way for what most names are.
#[tactic(auto, unfolding(crate::specs::Names::name_of))]
#[inline(always)]
fn check_name(name: Element<'_>) -> Result<(), Fault>
    ensures { refusal result ≡ refusal (name_of (now name.entry)) }
{
    if are_short_rdns(name.content) {
        return Ok(());
    }
    check_rdns(&mut name.reader())
}

impl<'a> Name<'a> {
    /// The name that a SEQUENCE's content is, or the first rule that is broken, at its place. The
    /// tag is not looked at.
    ///
    /// The rules in their order: of each relative distinguished name, its header (a SET); of each
    /// attribute in it, its header (a SEQUENCE), its type (`OidForm`), its value's header and, of a
    /// UTF8String, PrintableString or IA5String, its text (`TextForm`), and `Trailing`; then that
    /// the set is not empty (`Empty`) and in order (`SetOrder`).
    #[inline(always)]
    pub fn read(element: Element<'a>) -> Result<Name<'a>, Fault>
        ensures found { IfOk result (λ name. IsName element.entry.content.now (rdns_in name)) }
        ensures only { (rdns : List (List Attr)) → IsName element.entry.content.now rdns
            → IsOkAnd result (λ name. rdns_in name ≡ rdns) }
        ensures fault { option_map about (refusal result)
            ≡ judge (items relative_distinguished_name) (inside (now element.entry)) }
        ensures exact { Answers rdns_in result (name_of (now element.entry)) }
    {
        read_name(element)
    }

    /// The name that another element's content is, as `read` reads it. Where that has the octets of
    /// this name, as the subject of a self-signed certificate has those of its issuer, they are not
    /// read again.
    #[inline(always)]
    pub fn read_beside(self, element: Element<'a>) -> Result<Name<'a>, Fault>
        ensures exact { Answers rdns_in result (name_of (now element.entry)) }
    {
        if self.element.content == element.content {
            return Ok(Name { element });
        }
        read_name(element)
    }
}

/// The name that an element's content is, or the first rule that it breaks.
#[inline(always)]
fn read_name<'a>(element: Element<'a>) -> Result<Name<'a>, Fault>
    ensures { Answers rdns_in result (name_of (now element.entry)) }
{
    check_name(element)?;
    Ok(Name { element })
}

impl<'a> Rdn<'a> {
    /// The relative distinguished name that a SET's content is, or the first rule that is broken,
    /// at its place. The tag is not looked at. The rules are those of `Name::read` within one SET.
    pub fn read(element: Element<'a>) -> Result<Rdn<'a>, Fault>
        ensures found { IfOk result (λ rdn. IsRdnContent element.entry.content.now
            (attributes_in rdn)) }
        ensures only { (attributes : List Attr) → IsRdnContent element.entry.content.now attributes
            → IsOkAnd result (λ rdn. attributes_in rdn ≡ attributes) }
        ensures fault { option_map about (refusal result) ≡ rdn_fault (now element.entry) }
        ensures exact { Answers attributes_in result (rdn_of (now element.entry)) }
    {
        read_rdn(element)
    }
}

/// The relative distinguished name that an element's content is, or the first rule that it breaks.
fn read_rdn<'a>(element: Element<'a>) -> Result<Rdn<'a>, Fault>
    ensures { Answers attributes_in result (rdn_of (now element.entry)) }
{
    check_rdn(element)?;
    Ok(Rdn { element })
}
