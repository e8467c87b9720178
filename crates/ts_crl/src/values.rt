//! The values of extensions.

ghost use Rattle.std.specs.Prelude.{◌≡◌, [], map, unwrap_or, option_map};
ghost use Rattle.std.specs.List.{find, list_any};
ghost use Rattle.ts_extensions.specs.Extension.{unlocated};
ghost use Rattle.ts_ext.specs.declared.known.Holder.TheVariants.{List as ListHolder};
ghost use Rattle.ts_ext.specs.declared.known.Known.TheVariants.{DeltaCrlIndicator};
ghost use Rattle.ts_extensions.specs.ExtensionView.{located_as};
ghost use Rattle.ts_ext.specs.ExtView.{ext_in};
ghost use Rattle.ts_ext.specs.Known.{known_at};
ghost use Rattle.ts_crl.specs.EntryView.{extension_as, located_items_in, placed_in};
ghost use Rattle.ts_crl.specs.List.{unlocated_extensions};
ghost use Rattle.ts_crl.specs.Values.{is_known, value_in_octets, value_if_any as value_of_if_any};
ghost use Rattle.ts_crl.specs.Values.{value_among, with_number as said_with_number};
ghost use Rattle.ts_crl.specs.Values.{located_with_number};

use crate::extension_list::ExtensionList;
use crate::placed::PlacedFault;
use ts_der::OidRef;
use ts_ext::{Ext, Holder, Known};
use ts_extensions::Extension;

/// The object identifier of cRLNumber (RFC 5280 5.2.3).
const CRL_NUMBER: &[u8] = b"\x55\x1d\x14";

/// The value of an extension.
fn value_of<'a>(holder: Holder, extension: Extension<'a>) -> Option<Ext<'a>>
    ensures { option_map ext_in result
        ≡ value_in_octets (known_at holder extension.entry.id.content.now)
        extension.entry.value.content.now }
{
    let Extension { id, value, .. } = extension;
    Ext::read(holder, id, value).ok()
}

/// The first extension of a list that is this one.
fn find_in<'a>(known: Known, list: ExtensionList<'a>) -> Option<Extension<'a>>
    ensures { option_map extension_as result
        ≡ find (is_known known) (map unlocated (located_items_in list.entry)) }
{
    list.extensions().find(known)
}

/// The value of the first extension of a list that is this one.
fn value_in<'a>(holder: Holder, known: Known, list: ExtensionList<'a>) -> Option<Ext<'a>>
    ensures { option_map ext_in result
        ≡ value_among holder known (map unlocated (located_items_in list.entry)) }
{
    value_of(holder, find_in(known, list)?)
}

/// The value of the first extension that is this one, where there may be no extensions.
pub(crate) fn value_if_any<'a>(
    holder: Holder,
    known: Known,
    placed: Option<PlacedFault<'a>>,
) -> Option<Ext<'a>>
    ensures { option_map ext_in result
        ≡ value_among holder known (unwrap_or
        (option_map unlocated_extensions (option_map placed_in placed.entry)) []) }
{
    value_in(holder, known, placed?.list)
}

/// An extension with its value as that of cRLNumber.
#[tactic(auto, unfolding(ts_der::specs::ObjectIdentifier::is_oid, ts_der::specs::ObjectIdentifier::series_of, ts_der::specs::ObjectIdentifier::subidentifier))]
pub(crate) fn with_number<'a>(extension: Extension<'a>) -> Extension<'a>
    ensures { located_as result ≡ located_with_number (located_as extension.entry) }
{
    Extension {
        id: OidRef {
            content: CRL_NUMBER,
        },
        ..extension
    }
}

/// The value of the first deltaCRLIndicator of a CRL, as that of cRLNumber.
fn base_in<'a>(list: ExtensionList<'a>) -> Option<Ext<'a>>
    ensures { option_map ext_in result
        ≡ value_of_if_any ListHolder (option_map said_with_number
        (find (is_known DeltaCrlIndicator) (map unlocated (located_items_in list.entry)))) }
{
    value_of(
        Holder::List,
        with_number(find_in(Known::DeltaCrlIndicator, list)?),
    )
}

/// The value of the first deltaCRLIndicator of a CRL, as that of cRLNumber, where there may be no
/// extensions.
pub(crate) fn base_if_any<'a>(placed: Option<PlacedFault<'a>>) -> Option<Ext<'a>>
    ensures { option_map ext_in result
        ≡ value_of_if_any ListHolder (option_map said_with_number
        (find (is_known DeltaCrlIndicator)
        (unwrap_or (option_map unlocated_extensions (option_map placed_in placed.entry)) []))) }
{
    base_in(placed?.list)
}

/// Whether an extension of a list is this one.
fn is_in(known: Known, list: ExtensionList<'_>) -> bool
    ensures { result ≡ list_any (is_known known) (map unlocated (located_items_in list.entry)) }
{
    find_in(known, list).is_some()
}

/// Whether some extension is this one, where there may be no extensions.
pub(crate) fn is_among(known: Known, placed: Option<PlacedFault<'_>>) -> bool
    ensures { result ≡ list_any (is_known known)
        (unwrap_or (option_map unlocated_extensions (option_map placed_in placed.entry)) []) }
{
    match placed {
        Some(placed) => is_in(known, placed.list),
        None => false,
    }
}
