//! Rules of this profile, which have no place.

ghost use Rattle.std.specs.Prelude.{◌≡◌, [], map, unwrap_or, option_map};
ghost use Rattle.std.specs.List.{list_any};
ghost use Rattle.std.specs.Option.{option_copied};
ghost use Rattle.ts_extensions.specs.Extension.{unlocated};
ghost use Rattle.ts_ext.specs.NameViews.{issuing_point_in};
ghost use Rattle.ts_crl.specs.EntryView.{located_items_in, placed_in, revoked_in};
ghost use Rattle.ts_crl.specs.Fault.{fault_in};
ghost use Rattle.ts_crl.specs.List.{unlocated_extensions, unlocated_entry};
ghost use Rattle.ts_crl.specs.ListView.{crl_in};
ghost use Rattle.ts_crl.specs.Profile.{has_number as has_number_of_list};
ghost use Rattle.ts_crl.specs.Profile.{unprocessed_in as unprocessed_in_list};
ghost use Rattle.ts_crl.specs.Profile.{unprocessed_of_entries as unprocessed_of};
ghost use Rattle.ts_crl.specs.Profile.{first_unprocessed as unprocessed_of_list, names_issuer};
ghost use Rattle.ts_crl.specs.Profile.{as_scope};
ghost use Rattle.ts_crl.specs.Profile.{is_relative_name, scope_meets, scope_of};
ghost use Rattle.ts_crl.specs.Profile.{is_indirect as is_indirect_list};
ghost use Rattle.ts_crl.specs.Profile.{is_relative as is_relative_list, is_delta as is_delta_list};
ghost use Rattle.ts_crl.specs.Profile.{profile_fault as profile_fault_of};

use crate::crl::Crl;
use crate::extension_list::ExtensionList;
use crate::fault::CrlFault;
use crate::placed::PlacedFault;
use crate::revoked::RevokedEntries;
use crate::values::{is_among, value_if_any};
use ts_ext::{Ext, Holder, IssuingDistributionPoint, Known, PointName};

/// The object identifier of the first critical extension that is not processed.
fn unprocessed_in<'a>(holder: Holder, list: ExtensionList<'a>) -> Option<&'a [u8]>
    ensures { option_copied result
        ≡ unprocessed_in_list holder (map unlocated (located_items_in list.entry)) }
{
    for extension in list.extensions().iter() {
        if extension.critical && Known::at(holder, extension.id).is_none() {
            return Some(extension.id.content);
        }
    }
    None
}

/// The object identifier of the first critical extension that is not processed, where there may be
/// no extensions.
fn unprocessed_if_any<'a>(holder: Holder, placed: Option<PlacedFault<'a>>) -> Option<&'a [u8]>
    ensures { option_copied result
        ≡ unprocessed_in_list holder (unwrap_or
        (option_map unlocated_extensions (option_map placed_in placed.entry)) []) }
{
    unprocessed_in(holder, placed?.list)
}

/// The object identifier of the first critical extension of entries that is not processed, where
/// there may be no list of entries. It was found when they were read.
fn unprocessed_of_entries_if_any<'a>(revoked: Option<RevokedEntries<'a>>) -> Option<&'a [u8]>
    ensures { option_copied result
        ≡ unprocessed_of (unwrap_or (option_map (map unlocated_entry)
        (option_map revoked_in revoked.entry)) []) }
{
    revoked?.findings.unprocessed
}

/// The object identifier of the first critical extension of a CRL, then of its entries, that is
/// not processed.
fn first_unprocessed<'a>(crl: &Crl<'a>) -> Option<&'a [u8]>
    ensures { option_copied result ≡ unprocessed_of_list (crl_in crl.now) }
{
    match unprocessed_if_any(Holder::List, crl.extensions) {
        Some(oid) => Some(oid),
        None => unprocessed_of_entries_if_any(crl.revoked),
    }
}

/// Whether an entry names another issuer, where there may be no list of them: it was found when
/// they were read.
fn has_issuer_if_any(revoked: Option<RevokedEntries<'_>>) -> bool
    ensures { result ≡ list_any names_issuer
        (unwrap_or (option_map (map unlocated_entry) (option_map revoked_in revoked.entry)) []) }
{
    match revoked {
        Some(revoked) => revoked.findings.names_issuer,
        None => false,
    }
}

/// What a CRL covers, where it says so.
pub(crate) fn scope<'a>(crl: &Crl<'a>) -> Option<IssuingDistributionPoint<'a>>
    ensures { option_map issuing_point_in result ≡ scope_of (crl_in crl.now) }
{
    match value_if_any(
        Holder::List,
        Known::IssuingDistributionPoint,
        crl.extensions,
    ) {
        Some(Ext::IssuingDistributionPoint(point)) => Some(point),
        _ => None,
    }
}

/// Whether a CRL, or an entry of it, is for certificates of other issuers.
fn is_indirect(crl: &Crl<'_>) -> bool
    ensures { result ≡ is_indirect_list (crl_in crl.now) }
{
    let stated = match scope(crl) {
        Some(point) => point.indirect_crl,
        None => false,
    };
    stated || has_issuer_if_any(crl.revoked)
}

/// Whether the name of a CRL is relative to that of its issuer.
fn is_relative(crl: &Crl<'_>) -> bool
    ensures { result ≡ is_relative_list (crl_in crl.now) }
{
    match scope(crl) {
        Some(point) => matches!(point.name, Some(PointName::RelativeName(_))),
        None => false,
    }
}

/// Whether a CRL states what has changed since another one (RFC 5280 5.2.4).
pub(crate) fn is_delta(crl: &Crl<'_>) -> bool
    ensures { result ≡ is_delta_list (crl_in crl.now) }
{
    is_among(Known::DeltaCrlIndicator, crl.extensions)
}

/// Whether a CRL has a number (RFC 5280 5.2.3).
fn has_number(crl: &Crl<'_>) -> bool
    ensures { result ≡ has_number_of_list (crl_in crl.now) }
{
    is_among(Known::CrlNumber, crl.extensions)
}

/// The first rule of this profile that a CRL breaks.
pub(crate) fn profile_fault<'a>(crl: &Crl<'a>) -> Option<CrlFault<'a>>
    ensures { option_map fault_in result ≡ profile_fault_of (crl_in crl.now) }
{
    if crl.next_update.is_none() {
        return Some(CrlFault::NoNextUpdate);
    }
    if let Some(oid) = first_unprocessed(crl) {
        return Some(CrlFault::CriticalCrlExtension(oid));
    }
    if is_indirect(crl) {
        return Some(CrlFault::Indirect);
    }
    if is_relative(crl) {
        return Some(CrlFault::RelativeName);
    }
    if is_delta(crl) && !has_number(crl) {
        return Some(CrlFault::DeltaCrl);
    }
    None
}
