//! Attributes of distinguished names.

ghost use Rattle.std.specs.Prelude.{◌≡◌, ◌↔◌, IsTrue};
ghost use Rattle.ts_name.specs.Canon.{is_text, canon_attr};

use crate::folded::same_text;
use ts_der::tag::{IA5_STRING, PRINTABLE_STRING, UTF8_STRING};

/// An attribute of a relative distinguished name, as it lies in the source (RFC 5280 4.1.2.4,
/// `AttributeTypeAndValue`).
#[derive(Clone, Copy, Debug, Default)]
pub struct Attribute<'a> {
    /// The type: the content octets of its OBJECT IDENTIFIER.
    pub kind: &'a [u8],
    /// The tag of the value.
    pub tag: u8,
    /// The content octets of the value.
    pub value: &'a [u8],
}

impl Attribute<'_> {
    ghost use Rattle.ts_name.specs.View.{attr_of};

    /// Whether the value is compared as text: it is a UTF8String, a PrintableString or an
    /// IA5String.
    pub fn is_text(self) -> bool
        ensures { result ≡ is_text self.entry.tag }
    {
        matches!(self.tag, UTF8_STRING | PRINTABLE_STRING | IA5_STRING)
    }

    /// Whether two attributes are one in canonical form (RFC 5280 7.1): they have one type, and
    /// either both are text with the same words, letters A to Z counting as a to z, or the tags and
    /// the octets of their values are equal.
    pub fn same(self, other: Attribute<'_>) -> bool
        ensures { IsTrue result ↔ (canon_attr (attr_of self.entry)
            ≡ canon_attr (attr_of other.entry)) }
    {
        if self.kind != other.kind {
            return false;
        }
        if self.is_text() && other.is_text() {
            same_text(self.value, other.value)
        } else {
            self.tag == other.tag && self.value == other.value
        }
    }
}
