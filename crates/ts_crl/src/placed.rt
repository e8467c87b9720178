//! Extensions of a CRL or of an entry, with their place.

ghost use Rattle.std.specs.Prelude.{option_map};
ghost use Rattle.ts_der.specs.Answer.{Answers};
ghost use Rattle.ts_der.specs.View.{now};
ghost use Rattle.ts_shape.specs.Fields.{optional_of};
ghost use Rattle.ts_shape.specs.Items.{alone, of_tag, some_of};
ghost use Rattle.ts_shape.specs.Steps.{Takes};
ghost use Rattle.ts_extensions.specs.Extension.{located_in};
ghost use Rattle.ts_crl.specs.EntryView.{located_items_in, placed_in};
ghost use Rattle.ts_crl.specs.Reading.{located_extensions_of, wrapped_extensions_of};

use crate::extension_list::ExtensionList;
use ts_der::tag::SEQUENCE;
use ts_der::{Element, Fault, Reader};
use ts_shape::tagged_as;

/// The tag of a CRL's extensions, which are explicit (RFC 5280 5.1).
const CRL_EXTENSIONS: u8 = 0xA0;

/// The extensions of a CRL or of an entry (RFC 5280 5.1.2.7, 5.3).
#[derive(Clone, Copy)]
pub(crate) struct PlacedFault<'a> {
    /// The offset of the element that holds them: of a CRL the explicit tag, of an entry the
    /// SEQUENCE.
    pub at: usize,
    /// The extensions.
    pub list: ExtensionList<'a>,
}

/// The extensions that a SEQUENCE is.
#[tactic(auto, unfolding(crate::specs::Reading::located_extensions_of))]
fn read_extensions<'a>(element: Element<'a>) -> Result<PlacedFault<'a>, Fault>
    ensures { Answers placed_in result (located_extensions_of (now element.entry)) }
{
    Ok(PlacedFault {
        at: element.at,
        list: ExtensionList::read(element)?,
    })
}

/// The extensions that a SEQUENCE within an element is, and nothing after it.
#[tactic(auto, unfolding(ts_shape::specs::Items::alone, ts_shape::specs::Items::each, ts_shape::specs::Items::of_tag))]
fn read_alone<'a>(element: Element<'a>) -> Result<ExtensionList<'a>, Fault>
    ensures { Answers located_items_in result
        (alone (of_tag 0x30 (some_of located_in)) (now element.entry)) }
{
    let mut fields = element.reader();
    let extensions = ExtensionList::read(tagged_as(fields.next()?, SEQUENCE)?)?;
    fields.end()?;
    Ok(extensions)
}

/// The extensions that an explicit tag holds.
#[tactic(auto, unfolding(crate::specs::Reading::wrapped_extensions_of))]
fn read_wrapped<'a>(element: Element<'a>) -> Result<PlacedFault<'a>, Fault>
    ensures { Answers placed_in result (wrapped_extensions_of (now element.entry)) }
{
    Ok(PlacedFault {
        at: element.at,
        list: read_alone(element)?,
    })
}

/// The extensions of an entry, where they are next.
#[tactic(auto, unfolding(ts_shape::specs::Fields::optional_of, ts_der::specs::Reading::optional_at))]
pub(crate) fn next_extensions_if_any<'a>(
    fields: &mut Reader<'a>,
) -> Result<Option<PlacedFault<'a>>, Fault>
    ensures { Takes (option_map placed_in) fields.new result
        (optional_of 0x30 located_extensions_of fields.old) }
{
    match fields.optional(SEQUENCE)? {
        Some(element) => Ok(Some(read_extensions(element)?)),
        None => Ok(None),
    }
}

/// The extensions of a CRL, where they are next.
#[tactic(auto, unfolding(ts_shape::specs::Fields::optional_of, ts_der::specs::Reading::optional_at))]
pub(crate) fn next_wrapped_if_any<'a>(
    fields: &mut Reader<'a>,
) -> Result<Option<PlacedFault<'a>>, Fault>
    ensures { Takes (option_map placed_in) fields.new result
        (optional_of 0xA0 wrapped_extensions_of fields.old) }
{
    match fields.optional(CRL_EXTENSIONS)? {
        Some(element) => Ok(Some(read_wrapped(element)?)),
        None => Ok(None),
    }
}
