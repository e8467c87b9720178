//! An extension, whatever its value says.

ghost use Rattle.ts_der.specs.Answer.{Answers};
ghost use Rattle.ts_der.specs.View.{now};
ghost use Rattle.ts_extensions.specs.Extension.{located_of};
ghost use Rattle.ts_extensions.specs.ExtensionView.{located_as};

use ts_der::tag::{BOOLEAN, OBJECT_IDENTIFIER, OCTET_STRING, SEQUENCE};
use ts_der::{Element, Fault, OidRef};
use ts_shape::{FromElement, Keyed, tagged_as};

/// An extension of a certificate, of a CRL or of a CRL entry, as it lies in the source (RFC 5280
/// 4.1, 4.2).
#[derive(Clone, Copy)]
pub struct Extension<'a> {
    /// The offset of its SEQUENCE.
    pub at: usize,
    /// The object identifier of its type.
    pub id: OidRef<'a>,
    /// Whether it is critical: whoever does not process it has to refuse the certificate, CRL or
    /// entry.
    pub critical: bool,
    /// The OCTET STRING that holds its value.
    pub value: Element<'a>,
}

impl<'a> FromElement<'a> for Extension<'a> {
    ghost use Rattle.ts_extensions.specs.Extension.{Located, located_in};

    ghost Record = { Located };

    ghost record_of = { located_as };

    ghost reading = { located_in };

    ghost key_of = { λ x. x.extnID };

    #[tactic(auto, unfolding(ts_shape::specs::Items::of_tag))]
    #[inline(always)]
    fn read(element: Element<'a>) -> Result<Extension<'a>, Fault> {
        read_extension(tagged_as(element, SEQUENCE)?)
    }
}

impl<'a> Keyed<'a> for Extension<'a> {
    /// The object identifier.
    fn key(&self) -> &'a [u8] {
        self.id.content
    }
}

/// The extension that a SEQUENCE is.
#[tactic(auto, unfolding(crate::specs::Extension::located_of, ts_shape::specs::Fields::oid_at, ts_shape::specs::Fields::within))]
#[inline(always)]
pub(crate) fn read_extension<'a>(element: Element<'a>) -> Result<Extension<'a>, Fault>
    ensures { Answers located_as result (located_of (now element.entry)) }
{
    let mut fields = element.reader();
    let id = fields.element(OBJECT_IDENTIFIER)?.oid()?;
    let critical = fields.flag(BOOLEAN)?;
    let value = fields.element(OCTET_STRING)?;
    fields.end()?;
    Ok(Extension {
        at: element.at,
        id,
        critical,
        value,
    })
}
