//! Names in canonical form, owned.

ghost use Rattle.std.specs.Prelude.{◌≡◌, ◌++◌, [], ◌∷◌, ◌↔◌, IsTrue, IfOk, OnOk, OnErr, map};
ghost use Rattle.ts_name.specs.Canon.{canon_attr, sort_attrs};
ghost use Rattle.ts_name.specs.CanonView.{attr_in};
ghost use Rattle.ts_name.specs.View.{attr_of};

use crate::attribute::Attribute;
use crate::folded::FoldedText;
use std::alloc::{AllocError, Global};
use ts_der::tag::UTF8_STRING;

/// An attribute in canonical form.
#[derive(Debug, Drop, PartialEq, Eq, PartialOrd, Ord)]
pub struct CanonAttribute {
    /// The type: the content octets of its OBJECT IDENTIFIER.
    pub kind: Vec<u8>,
    /// The tag of the value, that of UTF8String for every text.
    pub tag: u8,
    /// The octets of the value: of a text, its words with one space between each two, the letters A
    /// to Z as a to z.
    pub value: Vec<u8>,
}

/// The attributes of a relative distinguished name in canonical form, in ascending order.
#[derive(Debug, Drop, PartialEq, Eq, PartialOrd, Ord)]
pub struct CanonRdn {
    attributes: Vec<CanonAttribute>,
}

/// A name in canonical form: the relative distinguished names, in the order of the name.
#[derive(Debug, Drop, PartialEq, Eq, PartialOrd, Ord)]
pub struct Canon {
    rdns: Vec<CanonRdn>,
}

/// The canonical form of an attribute (RFC 5280 7.1), or `AllocError` where memory runs out.
pub fn canon_attribute(
    alloc: Global,
    attribute: Attribute<'_>,
) -> Result<CanonAttribute, AllocError>
    ensures { IfOk result (λ canon. attr_in canon ≡ canon_attr (attr_of attribute.entry)) }
{
    let kind = Vec::from_slice(alloc, attribute.kind)?;
    if attribute.is_text() {
        let value = FoldedText::new(attribute.value).collect(alloc)?;
        Ok(CanonAttribute {
            kind,
            tag: UTF8_STRING,
            value,
        })
    } else {
        let value = Vec::from_slice(alloc, attribute.value)?;
        Ok(CanonAttribute {
            kind,
            tag: attribute.tag,
            value,
        })
    }
}

impl CanonRdn {
    ghost use Rattle.ts_name.specs.CanonView.{attr_in, attrs_in};

    /// The relative distinguished name of these attributes, which are put in order.
    #[tactic(auto, unfolding(crate::specs::Canon::compare_attrs))]
    pub fn from_attributes(attributes: Vec<CanonAttribute>) -> Self
        ensures { attrs_in result ≡ sort_attrs (map attr_in attributes.items) }
    {
        let mut attributes = attributes;
        attributes.sort_unstable();
        CanonRdn { attributes }
    }
}

impl Canon {
    ghost use Rattle.ts_name.specs.CanonView.{attrs_in, rdns_in};

    /// A name without relative distinguished names.
    pub fn new(alloc: Global) -> Self
        ensures { rdns_in result ≡ [] }
    {
        Canon {
            rdns: Vec::new(alloc),
        }
    }

    /// Adds a relative distinguished name at the end. Where memory runs out, the name stays as it
    /// was and the other is dropped.
    pub fn push(&mut self, rdn: CanonRdn) -> Result<(), AllocError>
        ensures ok { OnOk result (rdns_in self.new ≡ rdns_in self.old ++ attrs_in rdn ∷ []) }
        ensures err { OnErr result (rdns_in self.new ≡ rdns_in self.old) }
    {
        self.rdns.push(rdn)?;
        Ok(())
    }

    /// Whether two names are one in canonical form, as `==` says it.
    pub fn same(&self, other: &Canon) -> bool
        ensures { IsTrue result ↔ (rdns_in self.now ≡ rdns_in other.now) }
    {
        self == other
    }
}
